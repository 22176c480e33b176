//! The order that was read last.

ghost use Rattle.std.specs.Prelude.{◌≡◌, Ok, Err, IfOk, IfErr, IfNone, IfSome, OnOk, false, is_some};
ghost use Rattle.smil_model.specs.declared.order.Order.TheVariants as order_value;
ghost use Rattle.smil_attrs.specs.Filled.{filled};
ghost use Rattle.smil_model.specs.shown.Answers.{IsGiven, IsText};
ghost use Rattle.smil_grammar.specs.Scripts.{event_line, finish, first_of, line_of, order_line, who_of, with_clock, with_who};
ghost use Rattle.smil_grammar.specs.declared.read.Read.{Read as ReadValue};
ghost use Rattle.smil_grammar.specs.declared.read.Read.TheVariants.{To};
ghost use Rattle.smil_grammar.specs.Gives.{GivesReading};
ghost use Rattle.smil_script.specs.Copies.{IsForCopy, line_copies, order_copies};
ghost use Rattle.smil_script.specs.Named.{is_order};

use super::lines::{is_blank, is_preference};
use super::orders::order;
use super::piece::Piece;
use super::verbs;
use super::words::is_presentation_name;
use smil_lexis::texts::is;
use smil_model::{Bytes, Order, Refusal, Who};
use std::alloc::Global;
use std::marker::Model;

/// The order that was read last. The names of an event keep their memory for those of the next one.
#[derive(Drop)]
pub struct LastOrder {
    event: Order,
    other: Order,
    is_event: bool,
}

impl Model for LastOrder {
    ghost use Rattle.std.specs.Prelude.{if◌then◌else◌};
    ghost use Rattle.smil_model.specs.declared.order.Order.{Order as OrderValue};

    ghost Value = { OrderValue };

    ghost view = { λ l. if l.is_event then l.event else l.other };
}

impl LastOrder {
    /// The order `show`, before any was read. It takes no memory.
    pub fn new(alloc: Global) -> LastOrder
        ensures { result ≡ order_value.Show }
    {
        LastOrder {
            event: Order::Event {
                who: Who::Serial(0),
                name: Bytes::new(alloc),
            },
            other: Order::Show,
            is_event: false,
        }
    }

    /// The order. It takes no memory.
    pub fn order(&self) -> &Order
        ensures { result.now ≡ self.now }
    {
        if self.is_event {
            &self.event
        } else {
            &self.other
        }
    }

    /// Reads the order that a script line without its line feed gives, behind the name of the
    /// presentation that it is for, which stands in the line; None only where the line is blank, its
    /// first word is no presentation's name, or it prefers a value. Else it is refused as
    /// `read_line` refuses it, and takes the memory of the order alone. A line has fewer than
    /// 2,147,483,648 bytes.
    pub fn read<'a>(&mut self, alloc: Global, line: &'a [u8]) -> Result<Option<&'a [u8]>, Refusal>
        requires { IsText line.now }
        ensures reading { IfOk result (λ name. IfSome name
            (λ name. line_of line.now ≡ Ok (To name.now self.new))) }
        ensures none { IfOk result (λ name. IfNone name (is_order line.now ≡ false)) }
        ensures refused { IfErr result (λ refusal. GivesReading {A = ReadValue} (Err refusal)
            (line_of line.now)) }
        ensures copied { IsForCopy (line_copies line.now) result }
        ensures given { IfOk result (λ name. IfSome name (λ name. IsGiven self.new)) }
    {
        let whole = Piece {
            text: line,
            place: 0,
        };
        let (word, rest) = whole.first();
        if is_blank(line) || !is_presentation_name(word.text) {
            return Ok(None);
        }
        let (verb, rest) = rest.first();
        if is_preference(word.text, verb.text) {
            return Ok(None);
        }
        self.put(alloc, verb.text, &rest)?;
        Ok(Some(word.text))
    }

    // Reads the order of a verb and what stands behind it.
    fn put(&mut self, alloc: Global, verb: &[u8], line: &Piece<'_>) -> Result<(), Refusal>
        ensures reading { GivesReading (filled result self.new)
            (finish (order_line verb.now line.now)) }
        ensures copied { IsForCopy (order_copies verb.now line.now) result }
        ensures given { OnOk result (IsGiven self.new) }
    {
        self.is_event = is(verb, b"event");
        if self.is_event {
            put_event(alloc, line, &mut self.event)
        } else if is(verb, b"advance") {
            put_advance(line, &mut self.other)
        } else {
            put_other(alloc, verb, line, &mut self.other)
        }
    }
}

// Reads an event in place of an order.
fn put_event(alloc: Global, line: &Piece<'_>, event: &mut Order) -> Result<(), Refusal>
    ensures reading { GivesReading (filled result event.new)
        (finish (with_who event_line line.now)) }
    ensures copied { IsForCopy (is_some (who_of (first_of line.now).0.text)) result }
    ensures given { OnOk result (IsGiven event.new) }
{
    if let Order::Event { who, name } = event {
        return verbs::put_event(alloc, line, who, name);
    }
    put_first_event(alloc, line, event)
}

// Reads an event in place of another order: a function of its own, so that an event in place of an
// event needs no room for it.
#[inline(never)]
fn put_first_event(alloc: Global, line: &Piece<'_>, event: &mut Order) -> Result<(), Refusal>
    ensures reading { GivesReading (filled result event.new)
        (finish (with_who event_line line.now)) }
    ensures copied { IsForCopy (is_some (who_of (first_of line.now).0.text)) result }
    ensures given { OnOk result (IsGiven event.new) }
{
    *event = verbs::event(alloc, line)?;
    Ok(())
}

// Reads an advance in place of an order.
fn put_advance(line: &Piece<'_>, other: &mut Order) -> Result<(), Refusal>
    ensures reading { GivesReading (filled result other.new)
        (finish (with_clock order_value.Advance line.now)) }
    ensures free { IsForCopy false result }
    ensures given { OnOk result (IsGiven other.new) }
{
    if let Order::Advance { by } = other {
        *by = verbs::clock(line)?;
        return Ok(());
    }
    put_first_advance(line, other)
}

// Reads an advance in place of another order: a function of its own, as above.
#[inline(never)]
fn put_first_advance(line: &Piece<'_>, other: &mut Order) -> Result<(), Refusal>
    ensures reading { GivesReading (filled result other.new)
        (finish (with_clock order_value.Advance line.now)) }
    ensures free { IsForCopy false result }
    ensures given { OnOk result (IsGiven other.new) }
{
    *other = verbs::advance(line)?;
    Ok(())
}

// Reads an order of any verb in place of another: a function of its own, as above.
#[inline(never)]
fn put_other(alloc: Global, verb: &[u8], line: &Piece<'_>, other: &mut Order) -> Result<(), Refusal>
    ensures reading { GivesReading (filled result other.new)
        (finish (order_line verb.now line.now)) }
    ensures copied { IsForCopy (order_copies verb.now line.now) result }
    ensures given { OnOk result (IsGiven other.new) }
{
    *other = order(alloc, verb, line)?;
    Ok(())
}
