//! The begin or the end that an item waits for.

use smil_model::Edge;
use std::alloc::Global;
use std::default::MadeWith;

/// The begin or the end of the element with the serial `of`, and an offset in milliseconds (SMIL
/// 3.0 Timing, syncbase values).
#[derive(Clone, Copy)]
pub struct Syncbase {
    pub of: u32,
    pub edge: Edge,
    pub offset: i64,
}

impl MadeWith<Global> for Syncbase {
    fn made_with(_alloc: Global) -> Syncbase {
        Syncbase {
            of: 0,
            edge: Edge::Begin,
            offset: 0,
        }
    }
}
