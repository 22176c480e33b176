//! What is to happen to an element.

use smil_model::Key;

/// What happens to an element, in milliseconds: a begin or an end on the clock of its time parent,
/// or a repeat on its own.
#[derive(Clone, Copy)]
pub enum Change {
    /// A play of the element begins, at this value.
    Begins { begin: i64 },
    /// The play of the element ends, at this value.
    Ends { end: i64 },
    /// The next iteration of the element starts, at this value.
    Repeats { start: i64 },
}

/// What is to happen to an element, with the key that orders it among all that is to happen.
#[derive(Clone, Copy)]
pub struct DueChange {
    pub key: Key,
    pub change: Change,
}
