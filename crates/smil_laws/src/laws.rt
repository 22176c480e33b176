//! Laws over the definitions. A function here has no code: its contract is the law.

ghost use Rattle.smil_laws.specs.Locality.{LeavesUnreached};
ghost use Rattle.smil_laws.specs.Rounds.{AgreeingIsCurrent, DependenciesHaveRank, RoundsComeToRest};
ghost use Rattle.smil_laws.specs.Quiet.{QuietChangesNothing, QuietMayBeJumped};
ghost use Rattle.smil_laws.specs.Cut.{ReachesByItsLog, ReachesWhenCut};
ghost use Rattle.smil_laws.specs.Edited.{EditAgreesThroughBegin, EditDiffersBelow, EditKeepsDiary};
ghost use Rattle.smil_laws.specs.Agreement.{AgreesThroughBegin, AgreesUntilBegun, SameUnlessBegun, StepsAgree};
ghost use Rattle.smil_laws.specs.Image.{ImageHasDiary};
ghost use Rattle.smil_laws.specs.Migration.{OpeningsMigrate, OutcomesMigrate};

/// The dependencies that are not looped have a rank that rises along each of them, so they have no
/// cycle.
pub fn dependencies_have_rank()
    ensures { DependenciesHaveRank }
{}

/// Rounds past the number of elements change no interval.
pub fn rounds_come_to_rest()
    ensures { RoundsComeToRest }
{}

/// Intervals that are given, each by the others, are the current ones.
pub fn agreeing_is_current()
    ensures { AgreeingIsCurrent }
{}

/// Where no entry is later than the moment, a millisecond later the current intervals, what comes,
/// and the views are the same.
pub fn quiet_changes_nothing()
    ensures { QuietChangesNothing }
{}

/// The resolution may jump over moments at which nothing comes and nothing is logged.
pub fn quiet_may_be_jumped()
    ensures { QuietMayBeJumped }
{}

/// An entry leaves the current interval of each element outside its reach as it was.
pub fn unreached_intervals_stay()
    ensures { LeavesUnreached }
{}

/// Two documents that are the same but for the descendants of one element give, by a lawful diary
/// in which that element has not begun, the same current intervals and the same next step.
pub fn next_step_is_same_before_begin()
    ensures { StepsAgree }
{}

/// So their resolutions are the same, step by step, until the element has begun.
pub fn steps_agree_until_begin()
    ensures { AgreesUntilBegun }
{}

/// So the resolution of the new document comes to the old diary's part through the first begin of
/// the element.
pub fn diaries_agree_through_begin()
    ensures { AgreesThroughBegin }
{}

/// And the diaries are the same where the element does not begin.
pub fn diaries_are_same_without_begin()
    ensures { SameUnlessBegun }
{}

/// An edit that leaves references as they are changes the document only below the time parent of
/// the edited node.
pub fn edit_differs_below()
    ensures { EditDiffersBelow }
{}

/// So the old diary and the new resolution agree through the first begin of that time parent.
pub fn edit_agrees_through_begin()
    ensures { EditAgreesThroughBegin }
{}

/// And they agree wholly where it does not begin.
pub fn edit_keeps_diary()
    ensures { EditKeepsDiary }
{}

/// What a course reaches, it reaches with the part of the log that was heard by then, and up to
/// that moment.
pub fn reaches_when_cut()
    ensures { ReachesWhenCut }
{}

/// So a diary that is reached is reached by the part of the log that it names, up to the moment of
/// its last entry.
pub fn reaches_by_its_log()
    ensures { ReachesByItsLog }
{}

/// The diary of a par with one image, at every moment.
pub fn image_has_diary()
    ensures { ImageHasDiary }
{}

/// An order that meets no limit has the same outcome within larger limits.
pub fn outcomes_migrate()
    ensures { OutcomesMigrate }
{}

/// And so has a load.
pub fn openings_migrate()
    ensures { OpeningsMigrate }
{}
