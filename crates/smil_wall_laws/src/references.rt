//! Laws of references to the begin of a root that begins by itself. A function here has no code:
//! its contract is the law.

ghost use Rattle.smil_wall_laws.specs.References.{ReferencesGiveOffsets, PresentedReferencesGiveOffsets};

/// After each step of each resolution: an item of a begin or an end list that refers to the begin
/// of the root gives the instance time that its offset is, in milliseconds of document time, where
/// the root states no begin, and the element is alive, is not the root, and has no ancestor that
/// was paused so far. The number stands on the clock of the element's time parent, which shows
/// document time at every moment.
pub fn references_give_offsets()
    ensures { ReferencesGiveOffsets }
{}

/// So it is in each presentation, by its diary and the current intervals at its moment.
pub fn presented_references_give_offsets()
    ensures { PresentedReferencesGiveOffsets }
{}
