//! Orders by their verb.

ghost use Rattle.std.specs.Prelude.{◌≡◌, IfOk, bytes_eq, codes, false};
ghost use Rattle.smil_grammar.specs.Scripts.{order_line, finish};
ghost use Rattle.smil_grammar.specs.Gives.{GivesReading};
ghost use Rattle.smil_script.specs.Copies.{IsForCopy, order_copies};
ghost use Rattle.smil_model.specs.shown.Answers.{IsGiven};

use super::piece::Piece;
use super::verbs;
use smil_lexis::texts::is;
use smil_model::{Order, Refusal};
use std::alloc::Global;

/// The order of a verb and what stands behind it.
pub fn order(alloc: Global, verb: &[u8], line: &Piece<'_>) -> Result<Order, Refusal>
    ensures reading { GivesReading result (finish (order_line verb.now line.now)) }
    ensures copied { IsForCopy (order_copies verb.now line.now) result }
    ensures given { IfOk result IsGiven }
{
    if is(verb, b"advance") {
        verbs::advance(line)
    } else if is(verb, b"seek") {
        verbs::seek(line)
    } else if is(verb, b"event") {
        verbs::event(alloc, line)
    } else {
        rarer(alloc, verb, line)
    }
}

// The same of a verb that stands in few lines: a function of its own, so that a line with another
// needs no room for what these give.
#[inline(never)]
fn rarer(alloc: Global, verb: &[u8], line: &Piece<'_>) -> Result<Order, Refusal>
    requires advance { bytes_eq verb.now (codes "advance") ≡ false }
    requires seek { bytes_eq verb.now (codes "seek") ≡ false }
    requires event { bytes_eq verb.now (codes "event") ≡ false }
    ensures reading { GivesReading result (finish (order_line verb.now line.now)) }
    ensures copied { IsForCopy (order_copies verb.now line.now) result }
    ensures given { IfOk result IsGiven }
{
    if is(verb, b"media") {
        verbs::media(alloc, line)
    } else if is(verb, b"set") {
        verbs::set(alloc, line)
    } else if is(verb, b"unset") {
        verbs::unset(alloc, line)
    } else if is(verb, b"insert") {
        verbs::insert(alloc, line)
    } else if is(verb, b"remove") {
        verbs::remove(alloc, line)
    } else if is(verb, b"show") {
        verbs::ended(line, Order::Show)
    } else if is(verb, b"history") {
        verbs::history(alloc, line)
    } else if is(verb, b"text") {
        verbs::ended(line, Order::Text)
    } else if is(verb, b"key") {
        verbs::key(line)
    } else if is(verb, b"save") {
        verbs::ended(line, Order::Save)
    } else if is(verb, b"values") {
        verbs::ended(line, Order::Values)
    } else if is(verb, b"stack") {
        verbs::stack(alloc, line)
    } else if is(verb, b"diary") {
        verbs::ended(line, Order::Diary)
    } else {
        Err(Refusal::NotACommand)
    }
}
