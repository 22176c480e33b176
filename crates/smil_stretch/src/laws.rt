//! The law of entries that change no clock. The function here has no code: its contract is the law.

ghost use Rattle.smil_stretch.specs.Laws.{OtherEntriesLeaveClocks};

/// Only a pause, and a resume, an end or a cut of a paused element change clocks.
pub fn other_entries_leave_clocks()
    ensures { OtherEntriesLeaveClocks }
{}
