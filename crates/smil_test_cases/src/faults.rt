//! The faults of readers, printed.

use super::fault::Fault;
use super::printed::{put_valued, put_word};
use smil_grammar::NodeFault;
use smil_model::Bytes;
use std::alloc::AllocError;

/// Appends the word of a fault, and a column where there is one.
pub fn put_fault(out: &mut Bytes, word: &str, column: Option<u32>) -> Result<(), AllocError> {
    match column {
        Some(column) => put_valued(out, word, column),
        None => put_word(out, word),
    }
}

/// Appends why a node line has no reading, which may be that memory ran out.
pub fn put_node_fault(out: &mut Bytes, fault: NodeFault) -> Result<(), Fault> {
    let (word, column) = match fault {
        NodeFault::BadOutline => ("bad-outline", None),
        NodeFault::BadPlace => ("bad-place", None),
        NodeFault::Unsupported { column } => ("unsupported", Some(column)),
        NodeFault::UnknownAttribute { column } => ("unknown-attribute", Some(column)),
        NodeFault::BadValue { column } => ("bad-value", Some(column)),
        NodeFault::TooManyItems { column } => ("too-many-items", Some(column)),
        NodeFault::Memory => return Err(Fault::Memory),
    };
    Ok(put_fault(out, word, column)?)
}
