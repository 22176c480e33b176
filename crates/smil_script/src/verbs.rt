//! Orders, each behind its verb.

ghost use Rattle.std.specs.Prelude.{◌≡◌, ◌<◌, ◌+◌, ℤ, true, false, is_some, IfOk, IfSome, OnOk, option_map, length};
ghost use Rattle.smil_grammar.specs.Scripts.{first_of, who_of, with_clock, with_who, event_line, key_line, stack_line, unset_line, set_line, insert_line, finish, given as given_reading, at_end, quoted as quoted_of};
ghost use Rattle.smil_grammar.specs.Gives.{GivesReading};
ghost use Rattle.smil_attrs.specs.Filled.{filled};
ghost use Rattle.smil_model.specs.declared.order.Order.{Order as OrderValue};
ghost use Rattle.smil_model.specs.declared.order.Order.TheVariants as order_value;
ghost use Rattle.smil_model.specs.declared.limits.TheConstants.{TEXT_BYTES};
ghost use Rattle.smil_model.specs.document.Values.{is_clock};
ghost use Rattle.smil_model.specs.shown.Answers.{IsGiven, IsName};
ghost use Rattle.smil_script.specs.Copies.{IsForCopy};
ghost use Rattle.smil_script.specs.Gives.{GivesWho, with_value};

use super::piece::Piece;
use super::words;
use smil_clock_value::clock_within;
use smil_lexis::numbers::short_number;
use smil_lexis::runs;
use smil_lexis::texts::{behind, cut, is_key};
use smil_model::{Bytes, Order, Refusal, Who};
use std::alloc::Global;

// The column of a place, from 1.
fn column(place: usize) -> u32
    requires { place < TEXT_BYTES }
    ensures { result ≡ place + 1 }
{
    place as u32 + 1
}

/// An order at the end of its line.
pub fn ended(line: &Piece<'_>, order: Order) -> Result<Order, Refusal>
    ensures reading { result ≡ finish (at_end line.now (given_reading order)) }
    ensures free { IsForCopy false result }
    ensures same { IfOk result (λ given. given ≡ order) }
{
    if line.is_ended() {
        Ok(order)
    } else {
        Err(Refusal::NotACommand)
    }
}

/// The clock value that is the rest of a line. It is looked at after all else: `BadValue` only where
/// the line ends behind it.
pub fn clock(line: &Piece<'_>) -> Result<i64, Refusal>
    ensures reading { (made : ℤ → OrderValue)
        → finish (with_clock made line.now) ≡ with_value made result }
    ensures free { IsForCopy false result }
    ensures clock { IfOk result (λ value. is_clock value ≡ true) }
{
    let (word, rest) = line.first();
    if word.text.is_empty() || !rest.is_ended() {
        return Err(Refusal::NotACommand);
    }
    match clock_within(word.text) {
        Some(value) => Ok(value),
        None => Err(Refusal::BadValue {
            column: column(word.place),
        }),
    }
}

// The element that the first word names, and what stands behind it.
fn named<'a>(alloc: Global, line: &Piece<'a>) -> Result<(Who, Piece<'a>), Refusal>
    ensures reading { GivesWho result line.now }
    ensures name { IfOk result (λ named. IsName named.0) }
{
    let (word, rest) = line.first();
    let who = words::who(alloc, word.text)?;
    Ok((who, rest))
}

/// `advance`: a length.
pub fn advance(line: &Piece<'_>) -> Result<Order, Refusal>
    ensures reading { GivesReading result (finish (with_clock order_value.Advance line.now)) }
    ensures free { IsForCopy false result }
    ensures given { IfOk result IsGiven }
{
    let by = clock(line)?;
    Ok(Order::Advance { by })
}

/// `seek`: a moment.
pub fn seek(line: &Piece<'_>) -> Result<Order, Refusal>
    ensures reading { GivesReading result (finish (with_clock order_value.Seek line.now)) }
    ensures free { IsForCopy false result }
    ensures given { IfOk result IsGiven }
{
    let to = clock(line)?;
    Ok(Order::Seek { to })
}

/// `event`: puts the element and the event's name in place of others, whose memory is kept.
pub fn put_event(
    alloc: Global,
    line: &Piece<'_>,
    who: &mut Who,
    name: &mut Bytes,
) -> Result<(), Refusal>
    ensures reading { GivesReading (filled result (order_value.Event who.new name.new))
        (finish (with_who event_line line.now)) }
    ensures copied { IsForCopy (is_some (who_of (first_of line.now).0.text)) result }
    ensures given { OnOk result (IsGiven (order_value.Event who.new name.new)) }
{
    let (element, behind) = line.first();
    let (word, rest) = behind.first();
    words::put_who(alloc, element.text, who)?;
    words::put_event_name(word.text, name)?;
    if rest.is_ended() {
        Ok(())
    } else {
        Err(Refusal::NotACommand)
    }
}

/// `event`: an element and the event's name.
pub fn event(alloc: Global, line: &Piece<'_>) -> Result<Order, Refusal>
    ensures reading { GivesReading result (finish (with_who event_line line.now)) }
    ensures copied { IsForCopy (is_some (who_of (first_of line.now).0.text)) result }
    ensures given { IfOk result IsGiven }
{
    let mut who = Who::Serial(0);
    let mut name = Bytes::new(alloc);
    put_event(alloc, line, &mut who, &mut name)?;
    Ok(Order::Event { who, name })
}

/// `media`: an element and a length.
pub fn media(alloc: Global, line: &Piece<'_>) -> Result<Order, Refusal>
    ensures reading { GivesReading result
        (finish (with_who (λ who. with_clock (order_value.Media who)) line.now)) }
    ensures copied { IsForCopy (is_some (who_of (first_of line.now).0.text)) result }
    ensures given { IfOk result IsGiven }
{
    let (who, line) = named(alloc, line)?;
    let length = clock(&line)?;
    Ok(Order::Media { who, length })
}

// A value between quotes with nothing but spaces behind it.
fn quoted<'a>(line: &Piece<'a>) -> Option<Piece<'a>>
    ensures value { option_map (λ value. (value.text, value)) result ≡ quoted_of line.now }
    ensures within { IfSome result (λ value. value.place + length value.text + 1 < TEXT_BYTES) }
{
    let from = line.skipped();
    let inner = behind(from.text, b'"')?;
    let (value, rest) = cut(inner, b'"')?;
    if line.place == from.place || !runs::is_spaces(rest) {
        return None;
    }
    Some(Piece {
        text: value,
        place: from.place + 1,
    })
}

/// `set`: an element, an attribute's name and its value between quotes.
pub fn set(alloc: Global, line: &Piece<'_>) -> Result<Order, Refusal>
    ensures reading { GivesReading result (finish (with_who set_line line.now)) }
    ensures copied { IsForCopy (is_some (who_of (first_of line.now).0.text)) result }
    ensures given { IfOk result IsGiven }
{
    let (who, line) = named(alloc, line)?;
    let (word, rest) = line.first();
    let attr = words::attribute(alloc, word.text)?;
    let value = quoted(&rest).ok_or(Refusal::NotACommand)?;
    Ok(Order::Set {
        who,
        attr,
        value: words::own(alloc, value.text)?,
        attr_column: column(word.place),
        column: column(value.place),
    })
}

/// `unset`: an element and an attribute's name.
pub fn unset(alloc: Global, line: &Piece<'_>) -> Result<Order, Refusal>
    ensures reading { GivesReading result (finish (with_who unset_line line.now)) }
    ensures copied { IsForCopy (is_some (who_of (first_of line.now).0.text)) result }
    ensures given { IfOk result IsGiven }
{
    let (who, line) = named(alloc, line)?;
    let (word, rest) = line.first();
    let attr = words::attribute(alloc, word.text)?;
    ended(
        &rest,
        Order::Unset {
            who,
            attr,
            attr_column: column(word.place),
        },
    )
}

/// `insert`: an element, a place and a node line to the end of the line.
pub fn insert(alloc: Global, line: &Piece<'_>) -> Result<Order, Refusal>
    ensures reading { GivesReading result (finish (with_who insert_line line.now)) }
    ensures copied { IsForCopy (is_some (who_of (first_of line.now).0.text)) result }
    ensures given { IfOk result IsGiven }
{
    let (who, line) = named(alloc, line)?;
    let (word, rest) = line.first();
    let place = short_number(word.text).ok_or(Refusal::NotACommand)?;
    let node = rest.skipped();
    if node.text.is_empty() {
        return Err(Refusal::NotACommand);
    }
    Ok(Order::Insert {
        who,
        place,
        node: words::own(alloc, node.text)?,
        column: column(node.place),
    })
}

/// `key`: one byte, which is an access key.
pub fn key(line: &Piece<'_>) -> Result<Order, Refusal>
    ensures reading { result ≡ finish (key_line line.now) }
    ensures free { IsForCopy false result }
    ensures given { IfOk result IsGiven }
{
    let (word, rest) = line.first();
    match word.text {
        [key] if is_key(*key) => ended(&rest, Order::Key { key: *key }),
        _ => Err(Refusal::NotACommand),
    }
}

/// `stack`: an element and an attribute's name.
pub fn stack(alloc: Global, line: &Piece<'_>) -> Result<Order, Refusal>
    ensures reading { GivesReading result (finish (with_who stack_line line.now)) }
    ensures copied { IsForCopy (is_some (who_of (first_of line.now).0.text)) result }
    ensures given { IfOk result IsGiven }
{
    let (who, line) = named(alloc, line)?;
    let (word, rest) = line.first();
    let attr = words::attribute(alloc, word.text)?;
    ended(&rest, Order::Stack { who, attr })
}

/// `remove`: an element.
pub fn remove(alloc: Global, line: &Piece<'_>) -> Result<Order, Refusal>
    ensures reading { GivesReading result
        (finish (with_who (λ who rest. at_end rest (given_reading (order_value.Remove who)))
        line.now)) }
    ensures copied { IsForCopy (is_some (who_of (first_of line.now).0.text)) result }
    ensures given { IfOk result IsGiven }
{
    let (who, rest) = named(alloc, line)?;
    ended(&rest, Order::Remove { who })
}

/// `history`: an element.
pub fn history(alloc: Global, line: &Piece<'_>) -> Result<Order, Refusal>
    ensures reading { GivesReading result
        (finish (with_who (λ who rest. at_end rest (given_reading (order_value.History who)))
        line.now)) }
    ensures copied { IsForCopy (is_some (who_of (first_of line.now).0.text)) result }
    ensures given { IfOk result IsGiven }
{
    let (who, rest) = named(alloc, line)?;
    ended(&rest, Order::History { who })
}
