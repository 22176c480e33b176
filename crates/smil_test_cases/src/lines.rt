//! The lines of answers.

use super::fault::Fault;
use super::printed::put;
use smil_model::Bytes;
use std::alloc::AllocError;

/// Ends the line of a case with a line feed, where it doesn't end with one. What was written stays
/// where the case has an answer; where it has none, the word of the fault stands in its place.
pub fn end_line(out: &mut Bytes, answer: Result<(), Fault>) -> Result<(), AllocError> {
    if let Err(fault) = answer {
        out.cut_back(0);
        put(out, fault.word())?;
    }
    if out.slice().last() != Some(&b'\n') {
        out.push(b'\n')?;
    }
    Ok(())
}

/// Appends lines, with `|` in the place of each line feed.
pub fn put_lines(out: &mut Bytes, text: &Bytes) -> Result<(), AllocError> {
    for byte in text.slice() {
        out.push(if *byte == b'\n' { b'|' } else { *byte })?;
    }
    Ok(())
}
