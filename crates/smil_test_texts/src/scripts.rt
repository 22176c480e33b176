//! Calls of smil_script.

use smil_model::{Bytes, Order, TEXT_BYTES, Who};
use smil_script::{Read, ends_load, is_blank, opens_load, read_line};
use smil_test_cases::{Fault, Words, put_bytes, put_fault, put_number, put_valued, put_word};
use std::alloc::{AllocError, Global};

/// `script LINE`: what a script line says.
pub fn script(alloc: Global, words: &mut Words<'_>, out: &mut Bytes) -> Result<(), Fault> {
    let line = words.rest().as_bytes();
    if line.len() >= TEXT_BYTES {
        return Err(Fault::Refused);
    }
    if is_blank(line) {
        put_word(out, "blank")?;
    }
    if opens_load(line) {
        put_word(out, "opens")?;
    }
    if ends_load(line) {
        put_word(out, "ends")?;
    }
    match read_line(alloc, line) {
        Ok(read) => Ok(put_read(out, &read)?),
        Err(refusal) => Ok(put_fault(out, refusal.word(), refusal.column())?),
    }
}

// What a line says.
fn put_read(out: &mut Bytes, read: &Read) -> Result<(), AllocError> {
    match read {
        Read::Blank => Ok(()),
        Read::Load { name } => put_named(out, "load", name),
        Read::LoadAt { name, start } => {
            put_named(out, "load", name)?;
            put_valued(out, "at", *start)
        }
        Read::Prefer { word, value } => {
            put_named(out, "prefer", word)?;
            put_bytes(out, value)
        }
        Read::Close { name } => put_named(out, "close", name),
        Read::To { name, order } => {
            put_named(out, "to", name)?;
            put_order(out, order)
        }
    }
}

// A word, and bytes behind it.
fn put_named(out: &mut Bytes, word: &str, bytes: &Bytes) -> Result<(), AllocError> {
    put_word(out, word)?;
    put_bytes(out, bytes)
}

// A word, and a node as `#SERIAL` or by its id.
fn put_who(out: &mut Bytes, word: &str, who: &Who) -> Result<(), AllocError> {
    put_word(out, word)?;
    match who {
        Who::Id(id) => put_bytes(out, id),
        Who::Serial(serial) => put_valued(out, "#", *serial),
    }
}

// An order to a presentation.
fn put_order(out: &mut Bytes, order: &Order) -> Result<(), AllocError> {
    match order {
        Order::Advance { by } => put_valued(out, "advance", *by),
        Order::Seek { to } => put_valued(out, "seek", *to),
        Order::Event { who, name } => {
            put_who(out, "event", who)?;
            put_bytes(out, name)
        }
        Order::Media { who, length } => {
            put_who(out, "media", who)?;
            put_number(out, *length)
        }
        Order::Key { key } => put_valued(out, "key", *key),
        Order::Remove { who } => put_who(out, "remove", who),
        Order::History { who } => put_who(out, "history", who),
        Order::Stack { who, attr } => {
            put_who(out, "stack", who)?;
            put_bytes(out, attr)
        }
        Order::Show => put_word(out, "show"),
        Order::Text => put_word(out, "text"),
        Order::Save => put_word(out, "save"),
        Order::Diary => put_word(out, "diary"),
        Order::Values => put_word(out, "values"),
        edit => put_edit(out, edit),
    }
}

// An order that changes attributes or nodes.
fn put_edit(out: &mut Bytes, order: &Order) -> Result<(), AllocError> {
    match order {
        Order::Set {
            who,
            attr,
            value,
            attr_column,
            column,
        } => {
            put_who(out, "set", who)?;
            put_bytes(out, attr)?;
            put_number(out, *attr_column)?;
            put_number(out, *column)?;
            put_bytes(out, value)
        }
        Order::Unset {
            who,
            attr,
            attr_column,
        } => {
            put_who(out, "unset", who)?;
            put_bytes(out, attr)?;
            put_number(out, *attr_column)
        }
        Order::Insert {
            who,
            place,
            node,
            column,
        } => {
            put_who(out, "insert", who)?;
            put_number(out, *place)?;
            put_number(out, *column)?;
            put_bytes(out, node)
        }
        _ => Ok(()),
    }
}
