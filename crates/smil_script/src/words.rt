//! Names, elements and attributes, as they stand in a line.

ghost use Rattle.std.specs.Prelude.{◌≡◌, ◌≤◌, ◌<◌, ◌==◌, length, IfOk, IfErr, OnOk, option_map, is_some, true, ◌&&◌, not, bytes_eq};
ghost use Rattle.std.specs.List.{prefix_len, list_any};
ghost use Rattle.std.specs.Option.{ok_or};
ghost use Rattle.smil_grammar.specs.Texts.{quote};
ghost use Rattle.smil_grammar.specs.Values.{id_of};
ghost use Rattle.smil_grammar.specs.Scripts.{is_presentation_name as is_name_word, who_of, event_of, attribute_word_of};
ghost use Rattle.smil_grammar.specs.Gives.{GivesReading};
ghost use Rattle.smil_model.specs.declared.order.Refusal.TheVariants.{NotACommand, Memory};
ghost use Rattle.smil_model.specs.declared.order.Who.TheVariants as who_value;
ghost use Rattle.smil_attrs.specs.Filled.{filled};
ghost use Rattle.smil_model.specs.document.Words.{is_event_name as is_event_word, is_raised_name, is_of_attribute};
ghost use Rattle.smil_model.specs.shown.Answers.{IsName, IsText};
ghost use Rattle.smil_script.specs.Copies.{IsForCopy};
ghost use Rattle.smil_script.specs.Gives.{GivesName, other_names};

use smil_lexis::runs;
use smil_lexis::texts::{behind, is};
use smil_lexis::utf8::is_utf8;
use smil_model::{Bytes, NAME_BYTES, Refusal, Who};
use smil_time_list::offsets::count;
use std::alloc::Global;

// How many bytes at the front go on a presentation's name.
fn name_bytes(text: &[u8]) -> usize
    ensures len { result ≡ prefix_len is_of_attribute text.now }
    ensures within { result ≤ length text.now }
{
    text.iter()
        .take_while(|byte| runs::is_of_attribute(**byte))
        .count()
}

/// Whether a word is a presentation's name: a letter, then letters, digits, `_` and `-`, of at most
/// 32 bytes, and neither `load` nor `close`.
pub fn is_presentation_name(text: &[u8]) -> bool
    ensures { result ≡ is_name_word text.now }
{
    match text {
        [b'A'..=b'Z' | b'a'..=b'z', rest @ ..] => {
            name_bytes(rest) == rest.len()
                && rest.len() < NAME_BYTES
                && !is(text, b"load")
                && !is(text, b"close")
        }
        _ => false,
    }
}

/// A list of the bytes of a text.
pub fn own(alloc: Global, text: &[u8]) -> Result<Bytes, Refusal>
    ensures same { IfOk result (λ bytes. bytes ≡ text.now) }
    ensures memory { IfErr result (λ refusal. refusal ≡ Memory) }
{
    Ok(Bytes::of(alloc, text)?)
}

// Puts a text in place of bytes, whose memory is kept.
fn put(text: &[u8], bytes: &mut Bytes) -> Result<(), Refusal>
    ensures same { OnOk result (bytes.new ≡ text.now) }
    ensures memory { IfErr result (λ refusal. refusal ≡ Memory) }
{
    bytes.cut_back(0);
    bytes.append(text)?;
    Ok(())
}

// Puts an id that is all of a word in place of what named an element.
fn put_id(alloc: Global, text: &[u8], who: &mut Who) -> Result<(), Refusal>
    ensures reading { GivesReading (filled result who.new)
        (ok_or (option_map who_value.Id (id_of text.now)) NotACommand) }
    ensures copied { IsForCopy (is_some (id_of text.now)) result }
{
    if text.is_empty() || runs::id(text, false) != text.len() {
        return Err(Refusal::NotACommand);
    }
    if let Who::Id(id) = who {
        return put(text, id);
    }
    *who = Who::Id(own(alloc, text)?);
    Ok(())
}

/// Puts the element that a word names, by its id, or by its serial behind `#`, in place of another,
/// whose memory is kept where both are named by an id.
pub fn put_who(alloc: Global, text: &[u8], who: &mut Who) -> Result<(), Refusal>
    requires { IsText text.now }
    ensures reading { GivesReading (filled result who.new) (ok_or (who_of text.now) NotACommand) }
    ensures copied { IsForCopy (is_some (who_of text.now)) result }
    ensures name { OnOk result (IsName who.new) }
{
    match behind(text, b'#') {
        Some(digits) => match count(digits) {
            Some(serial) => {
                *who = Who::Serial(serial);
                Ok(())
            }
            None => Err(Refusal::NotACommand),
        },
        None => put_id(alloc, text, who),
    }
}

/// The element that a word names.
pub fn who(alloc: Global, text: &[u8]) -> Result<Who, Refusal>
    requires { IsText text.now }
    ensures reading { GivesReading result (ok_or (who_of text.now) NotACommand) }
    ensures copied { IsForCopy (is_some (who_of text.now)) result }
    ensures name { IfOk result IsName }
{
    let mut who = Who::Serial(0);
    put_who(alloc, text, &mut who)?;
    Ok(who)
}

// Whether a word means something else in lists, or is the name of an event that the engine raises
// itself.
fn is_other_name(text: &[u8]) -> bool
    ensures { result ≡ list_any (bytes_eq text.now) other_names }
{
    is(text, b"begin")
        || is(text, b"end")
        || is(text, b"repeat")
        || is(text, b"indefinite")
        || is(text, b"beginEvent")
        || is(text, b"endEvent")
        || is(text, b"repeatEvent")
}

// Whether a word is the name of an event that comes from outside.
fn is_event_name(text: &[u8]) -> bool
    ensures { result ≡ is_some (event_of text.now) }
{
    !text.is_empty() && runs::name(text) == text.len() && !is_other_name(text)
}

/// Puts the name of an event that comes from outside in place of another, whose memory is kept.
pub fn put_event_name(text: &[u8], name: &mut Bytes) -> Result<(), Refusal>
    ensures reading { GivesName (filled result name.new) (event_of text.now) }
    ensures name { OnOk result
        ((is_event_word name.new && not (is_raised_name name.new)) ≡ true) }
{
    if !is_event_name(text) {
        return Err(Refusal::NotACommand);
    }
    put(text, name)
}

/// The name of an event that comes from outside.
pub fn event_name(alloc: Global, text: &[u8]) -> Result<Bytes, Refusal>
    ensures reading { GivesName result (event_of text.now) }
    ensures name { IfOk result (λ name. (is_event_word name && not (is_raised_name name)) ≡ true) }
{
    let mut name = Bytes::new(alloc);
    put_event_name(text, &mut name)?;
    Ok(name)
}

// Whether a text has a quote.
fn has_quote(text: &[u8]) -> bool
    ensures { result ≡ list_any (λ b. b == quote) text.now }
{
    text.iter().any(|byte| *byte == b'"')
}

/// An attribute's name: any word of UTF-8 without a quote.
pub fn attribute(alloc: Global, text: &[u8]) -> Result<Bytes, Refusal>
    ensures reading { GivesReading result (ok_or (attribute_word_of text.now) NotACommand) }
    ensures same { IfOk result (λ name. name ≡ text.now) }
    ensures some { IfOk result (λ name. 0 < length text.now) }
{
    if text.is_empty() || !is_utf8(text) || has_quote(text) {
        return Err(Refusal::NotACommand);
    }
    own(alloc, text)
}
