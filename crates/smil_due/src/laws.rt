//! Laws of the order of keys. A function here has no code: its contract is the law.

ghost use Rattle.smil_due.specs.Laws.{IsIrreflexive, IsTotal, IsTransitive, KeepsOrder, KeysHaveSerials};

/// No key comes before itself.
pub fn order_is_irreflexive()
    ensures { IsIrreflexive }
{}

/// What comes before a second key comes before all that the second comes before.
pub fn order_is_transitive()
    ensures { IsTransitive }
{}

/// Of two different keys of one document, one comes before the other.
pub fn order_is_total()
    ensures { IsTotal }
{}

/// The keys of all that comes by the timing model are of one document: each has the serial of the
/// element at its place.
pub fn keys_have_serials()
    ensures { KeysHaveSerials }
{}

/// The order of the queue keeps the model's: what comes before another key is below it.
pub fn queue_keeps_order()
    ensures { KeepsOrder }
{}
