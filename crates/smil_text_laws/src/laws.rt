//! Laws of documents that are the same but for their plain texts. A function here has no code: its
//! contract is the law.

ghost use Rattle.smil_text_laws.specs.PlainTexts.{DiariesAreSame, ElementsAreTimedSame, GroupsAreSame, ListedIntervalsAreSame, LoopsAreSame, MomentsAreSame, PresentedIsSame, ReachesAreSame, ReadingsAreSame, StepsAreSame, TextEditsKeepPresented, TextEditsLeaveRest};

/// By the same log and diary, the diary says the same of each element: whether it is alive or
/// deferred, its plays, its iteration, its clocks, and the queue of an excl.
pub fn readings_are_same()
    ensures { ReadingsAreSame }
{}

/// By the same log and diary, and the same intervals of the others, an element has the same
/// instance times and the same interval.
pub fn elements_are_timed_same()
    ensures { ElementsAreTimedSame }
{}

/// By the same log and diary, at each moment: all current intervals, what comes and the views of
/// all elements are the same.
pub fn moments_are_same()
    ensures { MomentsAreSame }
{}

/// And so are the intervals of an element that the order `history` lists.
pub fn listed_intervals_are_same()
    ensures { ListedIntervalsAreSame }
{}

/// A begin, an end or a repeat appends the same entries.
pub fn groups_are_same()
    ensures { GroupsAreSame }
{}

/// The same references are looped.
pub fn loops_are_same()
    ensures { LoopsAreSame }
{}

/// Each entry has the same reach, so the sums of reaches are the same.
pub fn reaches_are_same()
    ensures { ReachesAreSame }
{}

/// The resolutions of the two documents with one log are the same, step by step.
pub fn steps_are_same()
    ensures { StepsAreSame }
{}

/// So are their diaries, within each limit on their entries.
pub fn diaries_are_same()
    ensures { DiariesAreSame }
{}

/// A presentation has the same diary and the same views with the one document as with the other.
pub fn presented_is_same()
    ensures { PresentedIsSame }
{}

/// A plain text that is set, or taken away, gives a document that is the same but for plain texts.
pub fn text_edits_leave_rest()
    ensures { TextEditsLeaveRest }
{}

/// So such an edit leaves the diary and the views of a presentation as they were.
pub fn text_edits_keep_presented()
    ensures { TextEditsKeepPresented }
{}
