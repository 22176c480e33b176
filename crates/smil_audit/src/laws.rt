//! Laws of the verdict: which diaries are accepted. A function here has no code: its contract is
//! the law.

ghost use Rattle.smil_audit.specs.Laws.{NoOtherIsAccepted, OwnDiaryIsAccepted};

/// Nothing is wrong in the diary of a presentation.
pub fn own_diary_is_accepted()
    ensures { OwnDiaryIsAccepted }
{}

/// Of lists of entries that name as many log entries, nothing is wrong in one at the most.
pub fn no_other_is_accepted()
    ensures { NoOtherIsAccepted }
{}
