//! Laws of instance times. A function here has no code: its contract is the law.

ghost use Rattle.smil_interval.specs.Rising.{BeginTimesRise, EndTimesRise};

/// The begin instance times of an element rise.
pub fn begin_times_rise()
    ensures { BeginTimesRise }
{}

/// The end instance times of an element rise.
pub fn end_times_rise()
    ensures { EndTimesRise }
{}
