//! What is to happen: its key, and what the class of an excl's child asks for.

use super::document::Act;

/// The class of a repeat, and of the end of an interval of positive length.
pub const END_CLASS: u8 = 1;

/// The class of a begin.
pub const BEGIN_CLASS: u8 = 2;

/// The class of the end of an interval of length 0.
pub const EMPTY_END_CLASS: u8 = 3;

/// The key of a begin, an end or a repeat that is to happen. Keys are compared by moment, then by
/// class, then by place.
#[derive(Clone, Copy, PartialEq, Eq)]
pub struct Key {
    /// The moment, in milliseconds of document time.
    pub value: i64,
    /// `END_CLASS`, `BEGIN_CLASS` or `EMPTY_END_CLASS`.
    pub class: u8,
    /// The place of the element among the elements, in document order from 0.
    pub position: u32,
    pub serial: u32,
    /// Whether it is a repeat.
    pub repeat: bool,
}

/// The priorityClass of a child of an excl. SMIL 3.0, "The priorityClass element".
#[derive(Clone, Copy)]
pub struct Class {
    /// The place of the class among those of its excl, from 0; the first is the highest.
    pub rank: u32,
    /// What a begin in the same class does.
    pub peers: Act,
    /// What a begin in a higher class does.
    pub higher: Act,
    /// What a begin in a lower class does.
    pub lower: Act,
}
