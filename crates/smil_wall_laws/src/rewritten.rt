//! Laws of wall clock items. A function here has no code: its contract is the law.

ghost use Rattle.smil_wall_laws.specs.Rewritten.{RewrittenItemsAreRead};

/// What stands in the place of a wall clock item, where moment 0 is at this start and the root has
/// this id, is read as a reference to the begin of the root. Its offset is how many milliseconds
/// after the start the item's instant is, with the item's own offset added.
pub fn rewritten_items_are_read()
    ensures { RewrittenItemsAreRead }
{}
