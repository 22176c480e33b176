//! Items of begin and end lists.

ghost use Rattle.std.specs.Prelude.{◌≡◌, ℕ, List, take, drop, true, option_map};
ghost use Rattle.std.specs.Option.{ok_or};
ghost use Rattle.smil_grammar.specs.declared.fault.ItemFault.TheVariants.{Bad};
ghost use Rattle.smil_grammar.specs.Words.{id_len};
ghost use Rattle.smil_model.specs.declared.document.Item.TheVariants.{Event};
ghost use Rattle.smil_grammar.specs.Items.{item_of, GivesItem, sync_of, repeat_of, word_of, what_of, of_element as item_of_element, named_of, subject_of, with_tail, key_of, is_keyed as is_keyed_text, is_left_out as is_left_out_text};

use super::offsets::{count, is_sign, offset, tail};
use smil_grammar::{ACCESS_KEY, ItemFault};
use smil_lexis::runs;
use smil_lexis::texts::{behind, cut, is, is_key, past, unescaped};
use smil_model::{Bytes, Edge, Item};
use std::alloc::Global;

// The begin or the end of an element that is named.
fn sync(who: Option<Bytes>, edge: Edge, rest: &[u8]) -> Option<Item>
    ensures { result ≡ sync_of who edge rest.now }
{
    let who = who?;
    let offset = tail(rest)?;
    Some(Item::Sync { who, edge, offset })
}

// An iteration, whose count stands in parentheses.
fn repeat(who: Option<Bytes>, text: &[u8]) -> Option<Item>
    ensures { result ≡ repeat_of who text.now }
{
    let (digits, rest) = cut(behind(text, b'(')?, b')')?;
    let n = count(digits)?;
    let offset = tail(rest)?;
    Some(Item::Repeat { who, n, offset })
}

// An event with this name.
fn event(alloc: Global, who: Option<Bytes>, word: &[u8], rest: &[u8]) -> Result<Item, ItemFault>
    ensures { GivesItem result (ok_or (with_tail (Event who word.now) rest.now) Bad) }
{
    let offset = tail(rest).ok_or(ItemFault::Bad)?;
    let name = Bytes::of(alloc, word)?;
    Ok(Item::Event { who, name, offset })
}

// The item of this word and what stands behind it.
fn word(alloc: Global, who: Option<Bytes>, word: &[u8], rest: &[u8]) -> Result<Item, ItemFault>
    ensures { GivesItem result (ok_or (word_of who word.now rest.now) Bad) }
{
    if word.is_empty() {
        Err(ItemFault::Bad)
    } else if is(word, b"begin") {
        sync(who, Edge::Begin, rest).ok_or(ItemFault::Bad)
    } else if is(word, b"end") {
        sync(who, Edge::End, rest).ok_or(ItemFault::Bad)
    } else if is(word, b"repeat") {
        repeat(who, rest).ok_or(ItemFault::Bad)
    } else if is(word, b"indefinite") {
        Err(ItemFault::Bad)
    } else {
        event(alloc, who, word, rest)
    }
}

// The item whose word is the longest name at the front.
fn what(alloc: Global, who: Option<Bytes>, text: &[u8]) -> Result<Item, ItemFault>
    ensures { GivesItem result (ok_or (what_of who text.now) Bad) }
{
    let (front, rest) = text.split_at(runs::name(text));
    word(alloc, who, front, rest)
}

// An item of an element that is named.
fn of_element(alloc: Global, who: Bytes, text: &[u8]) -> Result<Item, ItemFault>
    ensures { GivesItem result (item_of_element who text.now) }
{
    if text.starts_with(b"marker(") {
        return Err(ItemFault::Unsupported);
    }
    what(alloc, Some(who), text)
}

// Whether an item is of a form of SMIL that is left out.
fn is_left_out(text: &[u8]) -> bool
    ensures { result ≡ is_left_out_text text.now }
{
    text.starts_with(b"wallclock(") || text.starts_with(b"id(")
}

// Whether an item is an access key.
fn is_keyed(text: &[u8]) -> bool
    ensures { result ≡ is_keyed_text text.now }
{
    text.starts_with(ACCESS_KEY) || text.starts_with(b"accessKey(")
}

// The text stands behind the opening parenthesis.
fn key(text: &[u8]) -> Option<Item>
    ensures { result ≡ key_of text.now }
{
    match text {
        [key, rest @ ..] if is_key(*key) => {
            let offset = tail(behind(rest, b')')?)?;
            Some(Item::Key { key: *key, offset })
        }
        _ => None,
    }
}

// `id` is the longest id at the front of the text, and `rest` stands behind its point, where it has
// one.
fn subject(alloc: Global, text: &[u8], id: &[u8], rest: Option<&[u8]>) -> Result<Item, ItemFault>
    requires { id.now ≡ take (id_len true text.now) text.now }
    ensures { GivesItem result (subject_of text.now (option_map (λ rest. rest.now) rest.entry)) }
{
    match rest {
        Some(rest) => of_element(alloc, unescaped(alloc, id)?, rest),
        None => what(alloc, None, text),
    }
}

// An item that begins with neither a digit nor a sign.
fn named(alloc: Global, text: &[u8]) -> Result<Item, ItemFault>
    ensures { GivesItem result (named_of text.now) }
{
    if is_left_out(text) {
        return Err(ItemFault::Unsupported);
    }
    if is_keyed(text) {
        return key(past(text, ACCESS_KEY.len())).ok_or(ItemFault::Bad);
    }
    if is(text, b"indefinite") {
        return Ok(Item::Indefinite);
    }
    let len = runs::id(text, true);
    if len == 0 {
        return Err(ItemFault::Bad);
    }
    let (id, rest) = text.split_at(len);
    subject(alloc, text, id, behind(rest, b'.'))
}

/// The item of a text without white space at its ends. `Unsupported` where it is of a form that is
/// left out, `Bad` where it is no item, `Memory` where there is none for its words.
pub fn item(alloc: Global, text: &[u8]) -> Result<Item, ItemFault>
    ensures { GivesItem result (item_of text.now) }
{
    match text {
        [] => Err(ItemFault::Bad),
        [first, ..] if first.is_ascii_digit() || is_sign(*first) => {
            let offset = offset(text).ok_or(ItemFault::Bad)?;
            Ok(Item::Offset { offset })
        }
        _ => named(alloc, text),
    }
}
