//! Lines by their first word.

ghost use Rattle.std.specs.Prelude.{◌≡◌, ◌||◌, IsTrue, IfOk, IfErr, IfNone, IfSome, Ok, Err, false, bytes_eq, is_ok, is_some};
ghost use Rattle.std.specs.List.{list_all, list_any};
ghost use Rattle.smil_model.specs.shown.Answers.{IsGiven, IsText};
ghost use Rattle.smil_grammar.specs.Texts.{is_white as is_white_byte};
ghost use Rattle.smil_grammar.specs.Scripts.{line_of, is_blank as is_blank_line, to as to_name, finish, order_line, command as command_line, first_of, close_line, start_line, load_behind as load_behind_name, load_line, is_preference as is_preference_line, preference_words, prefer_line, behind_name as behind_first_name, or_refused, opens_load as opens_load_line};
ghost use Rattle.smil_grammar.specs.declared.read.Read.{Read as ReadValue};
ghost use Rattle.smil_grammar.specs.declared.read.Read.TheVariants.{Blank, To};
ghost use Rattle.smil_grammar.specs.Gives.{GivesReading};
ghost use Rattle.smil_script.specs.Copies.{IsForCopy, behind_name_copies, line_copies, names_element, order_copies};
ghost use Rattle.smil_script.specs.Gives.{HoldsGiven};
ghost use Rattle.smil_script.specs.Loads.{ends_load as ends_load_line};
ghost use Rattle.smil_script.specs.Named.{is_order};

use super::orders::order;
use super::piece::Piece;
use super::words::{is_presentation_name, own};
use smil_grammar::Read;
use smil_lexis::runs;
use smil_lexis::texts::is;
use smil_model::{Order, Refusal};
use smil_wall::read_instant;
use std::alloc::Global;

/// Whether a line has no answer: it is white space alone, or its first byte is `#`. It takes no
/// memory.
pub fn is_blank(line: &[u8]) -> bool
    ensures { result ≡ is_blank_line line.now }
{
    is_all_white(line) || matches!(line, [b'#', ..])
}

// Whether a line is white space alone.
fn is_all_white(line: &[u8]) -> bool
    ensures { result ≡ list_all is_white_byte line.now }
{
    line.iter().all(|byte| runs::is_white(*byte))
}

// `close`: a name.
fn close(alloc: Global, line: &Piece<'_>) -> Result<Read, Refusal>
    ensures reading { GivesReading result (or_refused (close_line line.now)) }
    ensures copied { IsForCopy (is_some (close_line line.now)) result }
    ensures given { IfOk result HoldsGiven }
{
    let (word, rest) = line.first();
    if !is_presentation_name(word.text) || !rest.is_ended() {
        return Err(Refusal::NotACommand);
    }
    let name = own(alloc, word.text)?;
    Ok(Read::Close { name })
}

// The instant of moment 0 of a load, behind `at`.
fn start(alloc: Global, name: &[u8], line: &Piece<'_>) -> Result<Read, Refusal>
    ensures reading { GivesReading result (or_refused (start_line name.now line.now)) }
    ensures copied { IsForCopy (is_some (start_line name.now line.now)) result }
    ensures given { IfOk result HoldsGiven }
{
    let (word, rest) = line.first();
    let Ok(start) = read_instant(word.text) else {
        return Err(Refusal::NotACommand);
    };
    if !rest.is_ended() {
        return Err(Refusal::NotACommand);
    }
    let name = own(alloc, name)?;
    Ok(Read::LoadAt { name, start })
}

// What stands behind the name of a load: nothing, or `at` and an instant.
fn load_behind(alloc: Global, name: &[u8], line: &Piece<'_>) -> Result<Read, Refusal>
    ensures reading { GivesReading result (or_refused (load_behind_name name.now line.now)) }
    ensures copied { IsForCopy (is_some (load_behind_name name.now line.now)) result }
    ensures given { IfOk result HoldsGiven }
{
    if line.is_ended() {
        let name = own(alloc, name)?;
        return Ok(Read::Load { name });
    }
    let (word, rest) = line.first();
    if !is(word.text, b"at") {
        return Err(Refusal::NotACommand);
    }
    start(alloc, name, &rest)
}

// `load`: a name, and the instant of moment 0 where one is given.
fn load(alloc: Global, line: &Piece<'_>) -> Result<Read, Refusal>
    ensures reading { GivesReading result (or_refused (load_line line.now)) }
    ensures copied { IsForCopy (is_some (load_line line.now)) result }
    ensures given { IfOk result HoldsGiven }
{
    let (word, rest) = line.first();
    if !is_presentation_name(word.text) {
        return Err(Refusal::NotACommand);
    }
    load_behind(alloc, word.text, &rest)
}

/// Whether a line prefers a value.
pub fn is_preference(first: &[u8], second: &[u8]) -> bool
    ensures { result ≡ is_preference_line first.now second.now }
{
    is(first, b"prefer") && is_preferred(second)
}

// Whether a value may be preferred for a word: a function of its own, since few lines prefer one.
#[inline(never)]
fn is_preferred(word: &[u8]) -> bool
    ensures { result ≡ list_any (bytes_eq word.now) preference_words }
{
    is(word, b"bitrate")
        || is(word, b"captions")
        || is(word, b"audiodesc")
        || is(word, b"language")
        || is(word, b"screen")
        || is(word, b"depth")
}

// The value that is preferred for a word: one word, which may have no reading.
fn prefer(alloc: Global, word: &[u8], line: &Piece<'_>) -> Result<Read, Refusal>
    ensures reading { GivesReading result (or_refused (prefer_line word.now line.now)) }
    ensures copied { IsForCopy (is_some (prefer_line word.now line.now)) result }
    ensures given { IfOk result HoldsGiven }
{
    let (value, rest) = line.first();
    if value.text.is_empty() || !rest.is_ended() {
        return Err(Refusal::NotACommand);
    }
    let word = own(alloc, word)?;
    let value = own(alloc, value.text)?;
    Ok(Read::Prefer { word, value })
}

// The order to a presentation of this name.
fn to(alloc: Global, name: &[u8], verb: &[u8], line: &Piece<'_>) -> Result<Read, Refusal>
    ensures reading { GivesReading result
        (to_name name.now (finish (order_line verb.now line.now))) }
    ensures copied { IsForCopy (order_copies verb.now line.now) result }
    ensures given { IfOk result HoldsGiven }
{
    let order = order(alloc, verb, line)?;
    let name = own(alloc, name)?;
    Ok(Read::To { name, order })
}

// A line behind its first word, which is a presentation's name unless the line prefers a value.
#[tactic(auto, using(crate::proofs::CopiedLines::named_ok))]
fn behind_name(alloc: Global, name: &[u8], line: &Piece<'_>) -> Result<Read, Refusal>
    ensures reading { GivesReading result (behind_first_name name.now (first_of line.now)) }
    ensures copied { IsForCopy (is_ok (behind_first_name name.now (first_of line.now))
        || names_element (first_of line.now).0.text (first_of line.now).1) result }
    ensures given { IfOk result HoldsGiven }
{
    let (verb, rest) = line.first();
    if is_preference(name, verb.text) {
        return prefer(alloc, verb.text, &rest);
    }
    to(alloc, name, verb.text, &rest)
}

// A line that isn't blank, by its first word.
#[tactic(auto, using(crate::proofs::CopiedLines::said_ok))]
fn command(alloc: Global, line: &Piece<'_>) -> Result<Read, Refusal>
    ensures reading { GivesReading result (command_line (first_of line.now)) }
    ensures copied { IsForCopy (is_ok (command_line (first_of line.now))
        || behind_name_copies (first_of line.now).0.text (first_of (first_of line.now).1)) result }
    ensures given { IfOk result HoldsGiven }
{
    let (word, rest) = line.first();
    if is(word.text, b"load") {
        load(alloc, &rest)
    } else if is(word.text, b"close") {
        close(alloc, &rest)
    } else if is_presentation_name(word.text) {
        behind_name(alloc, word.text, &rest)
    } else {
        Err(Refusal::NotACommand)
    }
}

/// What a script line without its line feed says. A line of white space alone, and one whose first
/// byte is `#`, are `Blank` and take no memory. Every other line without a reading is refused as
/// `NotACommand`, and one that has a reading but for its clock value as `BadValue` with the clock
/// value's column, counted in bytes from 1. `Memory` comes only where something is copied: in a
/// line that has a reading, and in an order that names an element. An order that is read is one
/// that a presentation may be given. A line has fewer than 2,147,483,648 bytes.
pub fn read_line(alloc: Global, line: &[u8]) -> Result<Read, Refusal>
    requires { IsText line.now }
    ensures reading { GivesReading result (line_of line.now) }
    ensures copied { IsForCopy (line_copies line.now) result }
    ensures blank { IsTrue (is_blank_line line.now) → result ≡ Ok Blank }
    ensures given { IfOk result HoldsGiven }
{
    if is_blank(line) {
        return Ok(Read::Blank);
    }
    let whole = Piece {
        text: line,
        place: 0,
    };
    command(alloc, &whole)
}

/// Whether a line opens a load: its first word is `load`, however it goes on. It takes no memory.
pub fn opens_load(line: &[u8]) -> bool
    ensures { result ≡ opens_load_line line.now }
{
    let (_, text) = line.split_at(runs::spaces(line));
    let (word, _) = text.split_at(runs::word(text));
    is(word, b"load")
}

/// Whether a line of fewer than 2,147,483,648 bytes ends a load: its one word is `%%`. It takes no
/// memory.
pub fn ends_load(line: &[u8]) -> bool
    requires { IsText line.now }
    ensures { result ≡ ends_load_line line.now }
{
    let line = Piece {
        text: line,
        place: 0,
    };
    let (word, rest) = line.first();
    is(word.text, b"%%") && rest.is_ended()
}
