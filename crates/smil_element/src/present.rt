//! An element at a moment.

use smil_past::Past;

/// The element with the serial `who` at a moment, in milliseconds of document time, and what has
/// happened by then.
#[derive(Clone, Copy)]
pub struct Present<'a> {
    pub past: &'a Past,
    pub who: u32,
    pub moment: i64,
}
