//! The order in which what is to happen happens.

ghost use Rattle.std.specs.Prelude.{◌≡◌};
ghost use Rattle.smil_model.specs.happening.Keys;
ghost use Rattle.smil_due.specs.Order;
ghost use Rattle.smil_due.specs.Order.{happening_cmp};

use smil_model::{BEGIN_CLASS, Key};
use std::cmp::Ordering;

/// Whether the first key happens before the second: by moment, then by class, then by place. Among
/// keys of one moment and class the begins earlier in the document are first and of all others the
/// later ones, and an end is before a repeat of the same element. It takes no memory.
pub fn comes_before(a: Key, b: Key) -> bool
    ensures { result ≡ Keys.comes_before a b }
{
    if a.value != b.value {
        return a.value < b.value;
    }
    order_of(a, b).is_lt()
}

/// Compares two keys by when they happen: by moment, by class, by turn, and an end before a repeat.
pub fn order_of(a: Key, b: Key) -> Ordering
    ensures { result ≡ happening_cmp a b }
{
    a.value
        .cmp(&b.value)
        .then(a.class.cmp(&b.class))
        .then(turn(a).cmp(&turn(b)))
        .then(a.repeat.cmp(&b.repeat))
}

// The turn of a key among those of its moment and class: begins in document order, all others
// against it.
fn turn(key: Key) -> i64
    ensures { result ≡ Order.turn key }
{
    let place = i64::from(key.position);
    if key.class == BEGIN_CLASS {
        place
    } else {
        -place
    }
}
