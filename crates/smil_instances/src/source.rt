//! What the times of an item follow from.

use smil_model::Edge;
use std::alloc::Global;
use std::default::MadeWith;

/// What the times of an item follow from. SMIL 3.0, "The begin and end attributes".
#[derive(Clone, Copy)]
pub enum Source {
    /// The start of the time parent's iteration.
    Start,
    /// The begin or the end of the element with the serial `of`.
    Syncbase { of: u32, edge: Edge },
    /// The events or the repeats of the element with the serial `of`.
    Eventbase { of: u32 },
    /// The presses of an access key.
    Key { key: u8 },
    /// Nothing that happens: no element has the id, or the item is `indefinite`.
    Nothing,
}

impl MadeWith<Global> for Source {
    fn made_with(_alloc: Global) -> Source {
        Source::Nothing
    }
}
