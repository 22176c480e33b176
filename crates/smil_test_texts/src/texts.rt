//! Calls of the readers and writers of clock values, lists and node lines.

use smil_attrs::{NodeFault, read_kind, read_node, write_node};
use smil_clock_value::{ClockFault, read_clock, write_clock};
use smil_model::{Attrs, Bytes, Edge, HORIZON, Kind};
use smil_test_cases::{Fault, Words, put_gap, put_node_fault, put_number, put_valued, put_word};
use smil_time_list::{ListFault, read_list, write_list};
use std::alloc::Global;

/// `clock TEXT`: the value, and its printed spelling.
pub fn clock(words: &mut Words<'_>, out: &mut Bytes) -> Result<(), Fault> {
    match read_clock(words.rest().as_bytes()) {
        Ok(value) => {
            put_number(out, value)?;
            spelling(value, out)
        }
        Err(ClockFault::Bad) => Ok(put_word(out, "bad")?),
        Err(ClockFault::TooLong) => Ok(put_word(out, "too-long")?),
    }
}

// The printed spelling of a clock value.
fn spelling(value: i64, out: &mut Bytes) -> Result<(), Fault> {
    if value < 0 || value > HORIZON {
        return Err(Fault::Refused);
    }
    put_gap(out)?;
    write_clock(value, out)?;
    Ok(())
}

/// `list SIDE SEQ TEXT`: the printed spelling of a begin or end list, of a child of a seq where SEQ
/// is 1.
pub fn list(alloc: Global, words: &mut Words<'_>, out: &mut Bytes) -> Result<(), Fault> {
    let side = match words.word()? {
        "begin" => Edge::Begin,
        "end" => Edge::End,
        _ => return Err(Fault::Refused),
    };
    let seq_child = words.flag()?;
    match read_list(alloc, words.rest().as_bytes(), side, seq_child) {
        Ok(items) => Ok(write_list(&items, out)?),
        Err(ListFault::Bad { place }) => Ok(put_valued(out, "bad-value", place)?),
        Err(ListFault::Unsupported { place }) => Ok(put_valued(out, "unsupported", place)?),
        Err(ListFault::TooManyItems) => Ok(put_word(out, "too-many-items")?),
        Err(ListFault::Memory) => Err(Fault::Memory),
    }
}

// A kind by its word.
fn kind(word: &str) -> Result<Kind, Fault> {
    read_kind(word.as_bytes()).ok().ok_or(Fault::Refused)
}

/// `node PARENT LINE`: the canonical form of a node line without leading spaces, below a parent of
/// this kind, or `-` for the root.
pub fn node(alloc: Global, words: &mut Words<'_>, out: &mut Bytes) -> Result<(), Fault> {
    let parent = match words.word()? {
        "-" => None,
        word => Some(kind(word)?),
    };
    match read_node(alloc, parent, words.rest().as_bytes()) {
        Ok((kind, attrs)) => Ok(write_node(0, kind, &attrs, out)?),
        Err(fault) => put_node_fault(out, fault),
    }
}

/// The attributes of a node line.
pub fn attributes(alloc: Global, line: &str) -> Result<Attrs, Fault> {
    match read_node(alloc, None, line.as_bytes()) {
        Ok((_, attrs)) => Ok(attrs),
        Err(NodeFault::Memory) => Err(Fault::Memory),
        Err(_) => Err(Fault::Refused),
    }
}
