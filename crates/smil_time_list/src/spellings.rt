//! Begin and end lists, as they are printed.

ghost use Rattle.std.specs.Prelude.{◌≡◌, ℕ, ◌++◌, nat_abs, codes, List, [], ◌∷◌, length, All, Some, OnOk, OnErr};
ghost use Rattle.smil_model.specs.Times.{IsMoment, IsNear};
ghost use Rattle.smil_model.specs.declared.document.Item.TheVariants.{Sync, Event, Repeat, Key};
ghost use Rattle.smil_grammar.specs.Clock.{clock_text};
ghost use Rattle.smil_grammar.specs.declared.words.TheConstants.{ACCESS_KEY};
ghost use Rattle.smil_grammar.specs.Spellings.{escaped, offset_text, tail_text, of_who, edge_text, item_text, list_text, CanWrite};
ghost use Rattle.smil_model.specs.document.Words.{Begins};
ghost use Rattle.smil_time_list.specs.Joined.{next_text};

use itoa::Buffer;
use smil_clock_value::write_clock;
use smil_grammar::ACCESS_KEY;
use smil_lexis::writers::undone;
use smil_model::{Bytes, Edge, Item, Items};
use std::alloc::AllocError;

// Appends an id as references write it: with a backslash before each `-` and `.`.
fn put_escaped(id: &[u8], out: &mut Bytes) -> Result<(), AllocError>
    ensures ok { OnOk result (out.new ≡ out.old ++ escaped id.now) }
    ensures err { OnErr result (Begins out.old out.new) }
{
    for byte in id {
        if *byte == b'-' || *byte == b'.' {
            out.append(b"\\")?;
        }
        out.push(*byte)?;
    }
    Ok(())
}

// Appends a clock value behind its sign.
fn put_signed(sign: &[u8], offset: i64, out: &mut Bytes) -> Result<(), AllocError>
    requires { IsMoment offset }
    ensures ok { OnOk result (out.new ≡ out.old ++ (sign.now ++ clock_text (nat_abs offset))) }
    ensures err { OnErr result (Begins out.old out.new) }
{
    out.append(sign)?;
    write_clock(offset, out)
}

// Appends an offset.
fn put_offset(offset: i64, out: &mut Bytes) -> Result<(), AllocError>
    requires { IsNear offset }
    ensures ok { OnOk result (out.new ≡ out.old ++ offset_text offset) }
    ensures err { OnErr result (Begins out.old out.new) }
{
    if offset < 0 {
        put_signed(b"-", -offset, out)
    } else {
        put_signed(b"", offset, out)
    }
}

// Appends an offset behind a word: nothing where it is 0.
fn put_tail(offset: i64, out: &mut Bytes) -> Result<(), AllocError>
    requires { IsNear offset }
    ensures ok { OnOk result (out.new ≡ out.old ++ tail_text offset) }
    ensures err { OnErr result (Begins out.old out.new) }
{
    if offset < 0 {
        put_signed(b"-", -offset, out)
    } else if offset > 0 {
        put_signed(b"+", offset, out)
    } else {
        Ok(())
    }
}

// Appends the id of the element that an item names, and a point.
fn put_who(who: &Option<Bytes>, out: &mut Bytes) -> Result<(), AllocError>
    ensures ok { OnOk result (out.new ≡ out.old ++ of_who who.now) }
    ensures err { OnErr result (Begins out.old out.new) }
{
    match who {
        Some(id) => {
            put_escaped(id.slice(), out)?;
            out.append(b".")
        }
        None => Ok(()),
    }
}

// Appends `begin` or `end`.
fn put_edge(edge: Edge, out: &mut Bytes) -> Result<(), AllocError>
    ensures ok { OnOk result (out.new ≡ out.old ++ edge_text edge) }
    ensures err { OnErr result (Begins out.old out.new) }
{
    match edge {
        Edge::Begin => out.append(b"begin"),
        Edge::End => out.append(b"end"),
    }
}

// Appends the begin or the end of an element.
#[tactic(auto, using(smil_model::proofs::GrowingTexts::begins_on))]
fn put_sync(who: &Bytes, edge: Edge, offset: i64, out: &mut Bytes) -> Result<(), AllocError>
    requires { IsNear offset }
    ensures ok { OnOk result (out.new ≡ out.old ++ item_text (Sync who.now edge offset)) }
    ensures err { OnErr result (Begins out.old out.new) }
{
    put_escaped(who.slice(), out)?;
    out.append(b".")?;
    put_edge(edge, out)?;
    put_tail(offset, out)
}

// Appends an event.
#[tactic(auto, using(smil_model::proofs::GrowingTexts::begins_on))]
fn put_event(
    who: &Option<Bytes>,
    name: &Bytes,
    offset: i64,
    out: &mut Bytes,
) -> Result<(), AllocError>
    requires { IsNear offset }
    ensures ok { OnOk result (out.new ≡ out.old ++ item_text (Event who.now name.now offset)) }
    ensures err { OnErr result (Begins out.old out.new) }
{
    put_who(who, out)?;
    out.append(name.slice())?;
    put_tail(offset, out)
}

// Appends an iteration.
#[tactic(auto, using(smil_model::proofs::GrowingTexts::begins_on))]
fn put_repeat(who: &Option<Bytes>, n: u32, offset: i64, out: &mut Bytes) -> Result<(), AllocError>
    requires { IsNear offset }
    ensures ok { OnOk result (out.new ≡ out.old ++ item_text (Repeat who.now n offset)) }
    ensures err { OnErr result (Begins out.old out.new) }
{
    put_who(who, out)?;
    out.append(b"repeat(")?;
    let mut buffer = Buffer::new();
    out.append(buffer.format(n).as_bytes())?;
    out.append(b")")?;
    put_tail(offset, out)
}

// Appends an access key.
#[tactic(auto, using(smil_model::proofs::GrowingTexts::begins_on))]
fn put_call(key: u8, out: &mut Bytes) -> Result<(), AllocError>
    ensures ok { OnOk result (out.new ≡ out.old ++ (ACCESS_KEY.now ++ (key ∷ [])
        ++ codes ")")) }
    ensures err { OnErr result (Begins out.old out.new) }
{
    out.append(ACCESS_KEY)?;
    out.append(&[key])?;
    out.append(b")")
}

// Appends an access key with its offset.
#[tactic(auto, using(smil_model::proofs::GrowingTexts::begins_on))]
fn put_key(key: u8, offset: i64, out: &mut Bytes) -> Result<(), AllocError>
    requires { IsNear offset }
    ensures ok { OnOk result (out.new ≡ out.old ++ item_text (Key key offset)) }
    ensures err { OnErr result (Begins out.old out.new) }
{
    put_call(key, out)?;
    put_tail(offset, out)
}

// Appends an item.
fn put_item(item: &Item, out: &mut Bytes) -> Result<(), AllocError>
    requires { CanWrite item.now }
    ensures ok { OnOk result (out.new ≡ out.old ++ item_text item.now) }
    ensures err { OnErr result (Begins out.old out.new) }
{
    match item {
        Item::Offset { offset } => put_offset(*offset, out),
        Item::Sync { who, edge, offset } => put_sync(who, *edge, *offset, out),
        Item::Event { who, name, offset } => put_event(who, name, *offset, out),
        Item::Repeat { who, n, offset } => put_repeat(who, *n, *offset, out),
        Item::Key { key, offset } => put_key(*key, *offset, out),
        Item::Indefinite => out.append(b"indefinite"),
    }
}

// Appends the item with this index in its list, and the `;` before it.
fn put_next(index: usize, item: &Item, out: &mut Bytes) -> Result<(), AllocError>
    requires { CanWrite item.now }
    ensures ok { OnOk result (out.new ≡ out.old ++ next_text index item.now) }
    ensures err { OnErr result (Begins out.old out.new) }
{
    if index > 0 {
        out.append(b";")?;
    }
    put_item(item, out)
}

// Appends the items, with `;` between them.
#[tactic(auto, using(smil_model::proofs::GrowingTexts::begins_on))]
fn put_list(items: &Items, out: &mut Bytes) -> Result<(), AllocError>
    requires { All CanWrite items.now }
    ensures ok { OnOk result (out.new ≡ out.old ++ list_text items.now) }
    ensures err { OnErr result (Begins out.old out.new) }
{
    for (index, item) in items.slice().iter().enumerate() {
        put_next(index, item, out)?;
    }
    Ok(())
}

/// Appends the printed spelling of a list. After a refusal `out` is as before.
pub fn write_list(items: &Items, out: &mut Bytes) -> Result<(), AllocError>
    requires { All CanWrite items.now }
    ensures ok { OnOk result (out.new ≡ out.old ++ list_text items.now) }
    ensures err { OnErr result (out.new ≡ out.old) }
{
    let before = out.len();
    let written = put_list(items, out);
    undone(written, out, before)
}
