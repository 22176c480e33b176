//! What limits a play beside its simple duration, and the durations that follow.

ghost use Rattle.std.specs.Prelude.{◌≡◌, ◌^◌, ◌≤ℤ◌, ◌<ℤ◌, ◌||◌, is_some, pos, negsuc};
ghost use Rattle.smil_model.specs.Times.{thousandths_of};
ghost use Rattle.smil_model.specs.declared.times.Time.TheVariants.{At};
ghost use Rattle.smil_model.specs.interval.Durations;
ghost use Rattle.smil_model.specs.interval.Durations.{bounds_of, intermediate_duration, active_duration, within_bounds, iterated, intermediate_end, repeated_end, repeated_duration, at_most};
ghost use Rattle.smil_model.specs.interval.Intervals.{bounds_in};
ghost use Rattle.smil_model.specs.document.Defaults.{min_of, max_of};

use smil_model::{Attrs, Count, Facts, Play, Time, capped, greatest, later, least, moved};
use std::marker::Model;

/// What limits a play: the attributes `repeatCount`, `repeatDur`, `min` and `max`, with what an
/// absent `min` or `max` means.
#[derive(Clone, Copy)]
pub struct Bounds {
    count: Option<Count>,
    repeat_dur: Option<Time>,
    min: i64,
    max: Time,
}

impl Model for Bounds {
    ghost use Rattle.smil_model.specs.interval.Durations as durations;

    ghost Value = { durations.Bounds };

    ghost view = { λ b.
        record { count = b.count; repeat_dur = b.repeat_dur; min = b.min; max = b.max } };

    ghost inverse = { λ b.
        record { count = b.count; repeat_dur = b.repeat_dur; min = b.min; max = b.max } };
}

impl Bounds {
    /// The bounds that attributes set. Where `max` is less than `min`, both count as absent.
    pub fn of_attrs(attrs: &Attrs) -> Bounds
        ensures { result ≡ bounds_of attrs.now }
    {
        let min = attrs.min.unwrap_or(0);
        let max = attrs.max.unwrap_or(Time::Indefinite);
        let (min, max) = match max {
            Time::At(most) if most < min => (0, Time::Indefinite),
            _ => (min, max),
        };
        Bounds {
            count: attrs.repeat_count,
            repeat_dur: attrs.repeat_dur,
            min,
            max,
        }
    }

    /// The bounds in the facts of an element.
    pub fn of_facts(facts: &Facts) -> Bounds
        ensures { result ≡ bounds_in facts.now }
    {
        Bounds {
            count: facts.count,
            repeat_dur: facts.repeat_dur,
            min: facts.min,
            max: facts.max,
        }
    }

    /// The least length of a play, in milliseconds.
    pub fn min(&self) -> i64
        ensures { result ≡ self.now.min }
    {
        self.min
    }

    /// The greatest length of a play, in milliseconds; indefinite sets no bound.
    pub fn max(&self) -> Time
        ensures { result ≡ self.now.max }
    {
        self.max
    }

    /// Whether the attributes have what repeats a play: a repeat count or a repeat duration.
    pub fn repeats(&self) -> bool
        ensures { result ≡ (is_some self.now.count || is_some self.now.repeat_dur) }
    {
        self.count.is_some() || self.repeat_dur.is_some()
    }

    /// The intermediate active duration, in milliseconds: the least of the repeat count's and the
    /// repeat duration's, and the simple duration where neither is given. SMIL 3.0, "Computing the
    /// active duration".
    #[inline(always)]
    pub fn intermediate(&self, simple: Time) -> Time
        ensures { result ≡ intermediate_duration self.now simple }
    {
        if simple == Time::At(0) {
            return simple;
        }
        match (self.count, self.repeat_dur) {
            (None, None) => simple,
            (Some(count), None) => iterated(count, 0, simple),
            (None, Some(length)) => length,
            (Some(count), Some(length)) => least(iterated(count, 0, simple), length),
        }
    }

    /// The active duration, in milliseconds: the intermediate one, between `min` and `max`. SMIL
    /// 3.0, "Computing the active duration".
    #[inline(always)]
    pub fn active(&self, simple: Time) -> Time
        ensures { result ≡ active_duration self.now simple }
    {
        self.within(0, self.intermediate(simple))
    }

    /// The active end of a play, in milliseconds on the element's own clock. SMIL 3.0, "Computing
    /// the active duration".
    pub fn active_end(&self, simple: Time, play: &Play) -> Time
        ensures { result ≡ Durations.active_end self.now simple play.now.first play.now.start
            play.now.iteration }
    {
        self.within(play.first, self.intermediate_end(simple, play))
    }

    /// Where the iterations or the repeat duration of a play end, whichever is first, in
    /// milliseconds on the element's own clock; `min` and `max` are left aside. A simple duration
    /// of 0 ends where the present iteration starts. SMIL 3.0, "Computing the active duration".
    pub fn intermediate_end(&self, simple: Time, play: &Play) -> Time
        ensures { result ≡ intermediate_end self.now simple play.now.first play.now.start
            play.now.iteration }
    {
        if simple == Time::At(0) {
            return Time::At(play.start);
        }
        repeated_end(self.count, self.repeat_dur, simple, play)
    }

    // A time between `min` and `max` after `start`.
    #[inline(always)]
    fn within(&self, start: i64, time: Time) -> Time
        ensures { result ≡ within_bounds self.now start time }
    {
        let from_min = greatest(moved(start, self.min), time);
        match self.max {
            Time::At(max) => least(moved(start, max), from_min),
            _ => from_min,
        }
    }
}

// Where the iterations or the repeat duration of a play end, of a simple duration that may repeat.
fn repeated_end(count: Option<Count>, repeat_dur: Option<Time>, simple: Time, play: &Play) -> Time
    ensures { result ≡ Durations.repeated_end count repeat_dur simple play.now.first play.now.start
        play.now.iteration }
{
    match count {
        None => match repeat_dur {
            None => later(simple, play.start),
            Some(length) => later(length, play.first),
        },
        Some(count) => {
            let counted = later(iterated(count, play.iteration, simple), play.start);
            match repeat_dur {
                None => counted,
                Some(length) => least(counted, later(length, play.first)),
            }
        }
    }
}

// The time of the iterations of a count after so many that are done, rounded down.
fn iterated(count: Count, done: u32, simple: Time) -> Time
    ensures { result ≡ Durations.iterated count done simple }
{
    match count {
        Count::Thousandths(total) => match simple {
            Time::At(length) => {
                let left = i128::from(total) - 1000 * i128::from(done);
                thousandths(left, length)
            }
            other => other,
        },
        Count::Indefinite => match simple {
            Time::Unresolved => Time::Unresolved,
            _ => Time::Indefinite,
        },
    }
}

// So many thousandths of a number, rounded down. They are at most a count's, and at least the
// negative of those done.
fn thousandths(count: i128, length: i64) -> Time
    requires low { negsuc (2 ^ 48) ≤ℤ count }
    requires high { count <ℤ pos (2 ^ 64) }
    ensures { result ≡ thousandths_of count (At length) }
{
    capped((count * i128::from(length)).div_euclid(1000))
}
