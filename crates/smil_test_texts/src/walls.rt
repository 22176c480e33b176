//! Calls of smil_wall.

use smil_model::Bytes;
use smil_test_cases::{Fault, Words, put_number, put_valued, put_word};
use smil_wall::{WallFault, anchor, read_instant, rewrite};
use std::alloc::Global;

/// `instant TEXT`: the instant in milliseconds, or `bad`.
pub fn instant(words: &mut Words<'_>, out: &mut Bytes) -> Result<(), Fault> {
    match read_instant(words.rest().as_bytes()) {
        Ok(instant) => Ok(put_number(out, instant)?),
        Err(_) => Ok(put_word(out, "bad")?),
    }
}

/// `anchor LINE`: the place and the length of the root's id, or `-` for none.
pub fn anchored(words: &mut Words<'_>, out: &mut Bytes) -> Result<(), Fault> {
    match anchor(words.rest().as_bytes()) {
        Some((place, length)) => {
            put_number(out, place)?;
            Ok(put_number(out, length)?)
        }
        None => Ok(put_word(out, "-")?),
    }
}

/// `rewrite START ROOT LINE`: the line where moment 0 is START, by the root's id or `-` for none; or
/// the fault and its place.
pub fn rewritten(alloc: Global, words: &mut Words<'_>, out: &mut Bytes) -> Result<(), Fault> {
    let start = words.number()?;
    let root = match words.word()? {
        "-" => None,
        root => Some(root.as_bytes()),
    };
    match rewrite(alloc, words.rest().as_bytes(), root, start) {
        Ok(line) => Ok(out.append(line.slice())?),
        Err(WallFault::NoAnchor) => Ok(put_word(out, "no-anchor")?),
        Err(WallFault::BadValue { place }) => Ok(put_valued(out, "bad-value", place)?),
        Err(WallFault::Unsupported { place }) => Ok(put_valued(out, "unsupported", place)?),
        Err(WallFault::Memory) => Err(Fault::Memory),
    }
}
