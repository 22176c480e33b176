//! Laws of resolved diaries, and of the groups of entries that they are made of.

ghost use Rattle.smil_laws.specs.Resolved.{GroupEndsWithBegin, GroupHasEntry, ResolvedChildrenLive, ResolvedIsLawful};

/// The diary of a document and a log is lawful after each step of its resolution, where the last
/// moment is not above the horizon.
pub fn resolved_diaries_are_lawful()
    ensures { ResolvedIsLawful }
{}

/// In a resolved diary each active element is alive: its time parent, where it has one, is active.
pub fn resolved_children_live()
    ensures { ResolvedChildrenLive }
{}

/// A group has at least one entry.
pub fn groups_have_an_entry()
    ensures { GroupHasEntry }
{}

/// A begin or a repeat is the last entry of its group.
pub fn groups_end_with_begins()
    ensures { GroupEndsWithBegin }
{}
