//! The edits that the arguments of calls make.

ghost use Rattle.std.specs.Prelude.{◌≡◌, ◌+◌, false};
ghost use Rattle.std.specs.List.{list_all};
ghost use Rattle.smil_grammar.specs.Nodes.{is_no_space};
ghost use Rattle.tenphsar.specs.Edits.{fit, has_quote, insert_of, is_node_text, remove_of, set_of, unset_of};
ghost use Rattle.tenphsar.specs.Orders.{GivesText, GivesWord, IsFit, MakesOrder};

use super::orders::NoOrder;
use smil_model::{Bytes, LINE_BYTES, Order, Refusal, Who};
use smil_script::attribute;
use std::alloc::Global;

// The column of the first text of an edit, in the line that says it.
const TEXT_COLUMN: u32 = 64;

// How many bytes stand around the texts of an edit in its line at most.
const BYTES_AROUND: usize = 66;

// The greatest place of a child.
const LAST_PLACE: u32 = 999_999_999;

/// Gives an attribute of an element, by its serial, a value.
pub(crate) fn set(alloc: Global, element: u32, attr: &[u8], value: &[u8]) -> Result<Order, NoOrder>
    ensures order { MakesOrder result (set_of element attr.now value.now) }
    ensures fit { IsFit result }
{
    if has_quote(value) || !fits(attr.len() + value.len()) {
        return Err(NoOrder::BadArgument);
    }
    let attr = word(alloc, attr)?;
    let value = copied(alloc, value)?;
    let column = TEXT_COLUMN + attr.len() as u32 + 2;
    Ok(Order::Set {
        who: Who::Serial(element),
        attr,
        value,
        attr_column: TEXT_COLUMN,
        column,
    })
}

/// Takes an attribute of an element, by its serial, away.
pub(crate) fn unset(alloc: Global, element: u32, attr: &[u8]) -> Result<Order, NoOrder>
    ensures order { MakesOrder result (unset_of element attr.now) }
    ensures fit { IsFit result }
{
    if !fits(attr.len()) {
        return Err(NoOrder::BadArgument);
    }
    Ok(Order::Unset {
        who: Who::Serial(element),
        attr: word(alloc, attr)?,
        attr_column: TEXT_COLUMN,
    })
}

/// Inserts a node, by its line without depth, as the child of another, by its serial, at a place
/// from 1.
pub(crate) fn insert(alloc: Global, parent: u32, place: u32, node: &[u8]) -> Result<Order, NoOrder>
    ensures order { MakesOrder result (insert_of parent place node.now) }
    ensures fit { IsFit result }
{
    if !is_node(node) || !fits(node.len()) || place > LAST_PLACE {
        return Err(NoOrder::BadArgument);
    }
    Ok(Order::Insert {
        who: Who::Serial(parent),
        place,
        node: copied(alloc, node)?,
        column: TEXT_COLUMN,
    })
}

/// Removes an element or a priorityClass, by its serial, with all below it.
pub(crate) fn remove(element: u32) -> Result<Order, NoOrder>
    ensures order { MakesOrder result (remove_of element) }
    ensures fit { IsFit result }
{
    Ok(Order::Remove {
        who: Who::Serial(element),
    })
}

// Whether texts of so many bytes together fit a line.
fn fits(len: usize) -> bool
    ensures { result ≡ fit len }
{
    len <= LINE_BYTES - BYTES_AROUND
}

// Whether no space stands in a text.
fn is_unspaced(text: &[u8]) -> bool
    ensures { result ≡ list_all is_no_space text.now }
{
    text.iter().all(|byte| *byte != b' ')
}

// Whether a text has a quote.
fn has_quote(text: &[u8]) -> bool
    ensures { result ≡ has_quote text.now }
{
    text.iter().any(|byte| *byte == b'"')
}

// Whether a text may be that of a node.
fn is_node(text: &[u8]) -> bool
    ensures { result ≡ is_node_text text.now }
{
    match text {
        [] => false,
        [byte, ..] => *byte != b' ',
    }
}

// The name of an attribute, as a word of a line.
fn word(alloc: Global, text: &[u8]) -> Result<Bytes, NoOrder>
    ensures { GivesWord result text.now }
{
    if !is_unspaced(text) {
        return Err(NoOrder::BadArgument);
    }
    match attribute(alloc, text) {
        Ok(name) => Ok(name),
        Err(Refusal::Memory) => Err(NoOrder::Memory),
        Err(_) => Err(NoOrder::BadArgument),
    }
}

// A list of the bytes of a text.
fn copied(alloc: Global, text: &[u8]) -> Result<Bytes, NoOrder>
    ensures { GivesText result text.now }
{
    match Bytes::of(alloc, text) {
        Ok(bytes) => Ok(bytes),
        Err(_) => Err(NoOrder::Memory),
    }
}
