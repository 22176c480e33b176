//! What each export does with the session of its handle.

ghost use Rattle.std.specs.Prelude.{◌≡◌, ◌<◌, ◌++◌, [], drop, length, map, false, Option, IfSome};
ghost use Rattle.smil_top.specs.Cut.{cut_of};
ghost use Rattle.smil_top.specs.Held.{IsHeld, answer_of};
ghost use Rattle.smil_top.specs.Transcript.{untold};
ghost use Rattle.smil_model.specs.declared.order.Order.{Order as AnyOrder};
ghost use Rattle.smil_model.specs.shown.Answers.{IsGiven};
ghost use Rattle.smil_report.specs.Tellings.{is_telling};
ghost use Rattle.tenphsar.specs.Calls.{Copies, TakesIn, TellsMoment, TellsNext, code_of};
ghost use Rattle.tenphsar.specs.Orders.{Calls, IsAnswered, IsFit, MakesOrder, code_given, refused_code};
ghost use Rattle.tenphsar.specs.Records.{record_of};

use super::orders::NoOrder;
use super::records::{self, ChangeRecord};
use smil_interval::Steps;
use smil_model::Order;
use smil_top::{CallRefusal, Held};
use std::alloc::Global;
use std::sync::ledger::{Blank, Ledger};

// What a call answers: all went well, and the line, if there was one, has no answer; its order was
// accepted, or refused; memory ran out; or there were as many lines as there may be.
pub const DONE: i32 = 0;

const ACCEPTED: i32 = 1;

const REFUSED: i32 = 2;

pub const NO_MEMORY: i32 = -1;

const TOO_MANY_LINES: i32 = -2;

// Why an order that is given by a call isn't taken in: no line could say it, or a load is open. A
// refused order answers the number of its refusal.
pub const BAD_ARGUMENT: i32 = -3;

const OPEN_LOAD: i32 = -4;

pub const OUT_OF_MEMORY: i32 = 24;

// The moment where there is none.
const NO_MOMENT: i64 = -1;

/// A session with no presentation; None where memory runs out.
pub fn opened(alloc: Global) -> Option<Box<Held>>
    ensures { IfSome result (λ session. IsHeld session.value (cut_of []) untold) }
{
    let Ok(held) = Held::new(alloc) else {
        return None;
    };
    match Box::new(alloc, held) {
        Ok(session) => Some(session),
        Err(_) => None,
    }
}

/// Takes in a line, and gives the code of its answer.
pub fn take_line<L: Ledger>(held: &mut Held, line: &[u8], blank: Blank) -> i32
    requires name { blank.name ≡ L.name }
    requires parts { blank.parts ≡ L.parts }
    requires backed { 0 < blank.parts }
    ensures { TakesIn result line.now held.old held.new }
{
    let mut steps = Steps::<L>::new(blank);
    match held.line(line, &mut steps) {
        Ok(()) => code(held),
        Err(_) => TOO_MANY_LINES,
    }
}

// The code of the last answer.
fn code(held: &Held) -> i32
    ensures { result ≡ code_of (answer_of held.now) }
{
    let (told, last) = held.answer();
    if told.is_empty() {
        code_of_text(last)
    } else {
        code_of_text(told)
    }
}

// The code of a text, by its first byte.
fn code_of_text(text: &[u8]) -> i32
    ensures { result ≡ code_of text.now }
{
    match text.first() {
        None => DONE,
        Some(b'!') => REFUSED,
        Some(_) => ACCEPTED,
    }
}

/// How many bytes the last answer has.
pub fn size(held: &Held) -> usize
    ensures { result ≡ length (answer_of held.now) }
{
    let (told, last) = held.answer();
    told.len() + last.len()
}

/// Copies the last answer from a byte on, as much as there is room for, and gives how much it was.
pub fn copy(held: &Held, from: usize, out: &mut [u8]) -> usize
    ensures { Copies result (drop from (answer_of held.now)) out.old out.new }
{
    let (told, last) = held.answer();
    copy_pieces(told, last, from, out)
}

// The same of a text in two pieces.
fn copy_pieces(first: &[u8], last: &[u8], from: usize, out: &mut [u8]) -> usize
    ensures { Copies result (drop from (first.now ++ last.now)) out.old out.new }
{
    let copied = put(&first[from.min(first.len())..], out);
    let behind = from.saturating_sub(first.len()).min(last.len());
    copied + put(&last[behind..], &mut out[copied..])
}

// Copies as much of a text as there is room for.
fn put(text: &[u8], out: &mut [u8]) -> usize
    ensures { Copies result text.now out.old out.new }
{
    let len = text.len().min(out.len());
    out[..len].copy_from_slice(&text[..len]);
    len
}

/// The moment of the presentation of this name; -1 where there is none.
pub fn moment(held: &Held, name: &[u8]) -> i64
    ensures { TellsMoment result name.now held.now }
{
    held.moment(name).unwrap_or(NO_MOMENT)
}

/// The moment at which something comes next in the presentation of this name; -1 where nothing does
/// or there is none.
pub fn next_due(held: &Held, name: &[u8]) -> i64
    ensures { TellsNext result name.now held.now }
{
    held.next_due(name).unwrap_or(NO_MOMENT)
}

// Gives an order to the presentation of this name, and gives its code.
fn give<L: Ledger>(held: &mut Held, name: &[u8], order: &Order, blank: Blank) -> i32
    requires given { IsGiven order.now }
    requires changes { is_telling order.now ≡ false }
    requires name { blank.name ≡ L.name }
    requires parts { blank.parts ≡ L.parts }
    requires backed { 0 < blank.parts }
    ensures { IsAnswered result name.now order.now held.old held.new }
{
    let mut steps = Steps::<L>::new(blank);
    let answered = held.change(name, order, &mut steps);
    code_of_order(&answered)
}

// The code of an order that was given.
fn code_of_order(answered: &Result<i64, CallRefusal>) -> i32
    ensures { result ≡ code_given answered.now }
{
    match answered {
        Ok(_) => DONE,
        Err(refusal) => code_of_refusal(*refusal),
    }
}

/// The code of a call that was refused.
pub fn code_of_refusal(refusal: CallRefusal) -> i32
    ensures { result ≡ refused_code refusal }
{
    match refusal {
        CallRefusal::Refused(refusal) => i32::from(refusal.number()),
        CallRefusal::TooManyCalls => TOO_MANY_LINES,
        CallRefusal::OpenLoad => OPEN_LOAD,
    }
}

/// Gives the order that was made of the arguments of a call, if there is one, to the presentation
/// of this name, and gives the call's code.
pub fn change<L: Ledger>(
    held: &mut Held,
    name: &[u8],
    order: Result<Order, NoOrder>,
    blank: Blank,
) -> i32
    requires name { blank.name ≡ L.name }
    requires parts { blank.parts ≡ L.parts }
    requires backed { 0 < blank.parts }
    requires fit { IsFit order }
    ensures { (wanted : Option AnyOrder) → MakesOrder order wanted
        → Calls result name.now wanted held.old held.new }
{
    match order {
        Ok(order) => give::<L>(held, name, &order, blank),
        Err(NoOrder::BadArgument) => BAD_ARGUMENT,
        Err(NoOrder::Memory) => OUT_OF_MEMORY,
    }
}

/// Copies the records of the last call from one on, as many as there is room for, and gives how
/// many they are.
pub fn copy_changes(held: &Held, from: usize, out: &mut [ChangeRecord]) -> usize
    ensures { Copies result (drop from (map record_of held.now.changes)) out.old out.new }
{
    let changes = held.changes();
    records::copy(&changes[from.min(changes.len())..], out)
}

/// How many records the last call left.
pub fn count_changes(held: &Held) -> usize
    ensures { result ≡ length held.now.changes }
{
    held.changes().len()
}
