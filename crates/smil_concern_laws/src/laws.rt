//! Laws of whom an entry concerns. A function here has no code: its contract is the law.

ghost use Rattle.smil_concern_laws.specs.Concerned.{ConcernedIsTouched};
ghost use Rattle.smil_concern_laws.specs.Unconcerned.{IntervalsFollowFromEnds, LeavesEnds, LeavesUnconcerned};

/// Whom an entry concerns, it touches.
pub fn concerned_is_touched()
    ensures { ConcernedIsTouched }
{}

/// Entries leave an element that they do not concern with the plays that it had, and deferred as it
/// was.
pub fn unconcerned_ends_stay()
    ensures { LeavesEnds }
{}

/// Entries leave an element that they do not concern with the interval, and with what comes of it,
/// that it had, given the same intervals of the others, where the ends of its time children are the
/// same.
pub fn unconcerned_elements_stay()
    ensures { LeavesUnconcerned }
{}

/// The interval of an element follows, of its time children, from their ends alone.
pub fn intervals_follow_from_ends()
    ensures { IntervalsFollowFromEnds }
{}
