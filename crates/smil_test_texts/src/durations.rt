//! Calls of smil_duration. The attributes are those of a node line.

use super::texts::attributes;
use smil_duration::{active_end, intermediate, simple};
use smil_model::{Bytes, Play};
use smil_test_cases::{Fault, Words, put_time};
use std::alloc::Global;

/// `simple IMPLICIT LINE`.
pub fn simple_of(alloc: Global, words: &mut Words<'_>, out: &mut Bytes) -> Result<(), Fault> {
    let implicit = words.time()?;
    let attrs = attributes(alloc, words.rest())?;
    put_time(out, simple(&attrs, implicit))?;
    Ok(())
}

/// `intermediate SIMPLE LINE`.
pub fn intermediate_of(alloc: Global, words: &mut Words<'_>, out: &mut Bytes) -> Result<(), Fault> {
    let simple = words.time()?;
    let attrs = attributes(alloc, words.rest())?;
    put_time(out, intermediate(&attrs, simple))?;
    Ok(())
}

/// `active-end SIMPLE FIRST START ITERATION LINE`.
pub fn active_end_of(alloc: Global, words: &mut Words<'_>, out: &mut Bytes) -> Result<(), Fault> {
    let simple = words.time()?;
    let first = words.number()?;
    let start = words.number()?;
    let iteration = words.natural()?;
    let attrs = attributes(alloc, words.rest())?;
    let play = Play {
        begin: first,
        first,
        start,
        iteration,
        shift: Some(0),
    };
    put_time(out, active_end(&attrs, simple, &play))?;
    Ok(())
}
