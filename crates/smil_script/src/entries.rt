//! The lines behind the outline of a diary.

ghost use Rattle.std.specs.Prelude.{◌≡◌, ◌<◌, ◌≤◌, ◌^◌, length, option_map, IfSome, IfOk, true};
ghost use Rattle.std.specs.Option.{ok_or};
ghost use Rattle.smil_grammar.specs.Gives.{GivesReading};
ghost use Rattle.smil_grammar.specs.Numbers.{number_of};
ghost use Rattle.smil_grammar.specs.Scripts.{key_in};
ghost use Rattle.smil_grammar.specs.Texts.{cut_at};
ghost use Rattle.smil_model.specs.document.Words.{space};
ghost use Rattle.smil_model.specs.declared.diary.Happening.TheVariants as happening_value;
ghost use Rattle.smil_model.specs.declared.order.Refusal.TheVariants.{NotACommand};
ghost use Rattle.smil_model.specs.diary.Logs.{is_serial, may_happen};
ghost use Rattle.smil_model.specs.document.Values.{is_clock};
ghost use Rattle.smil_script.specs.Entries.{IsRecorded, diary_line_of, entry_of, happening_of, measured as measured_in, moment_of, named as named_in, plain_of, serial_of, step_of, timed as timed_of, value_of, valued_of, with_heard};
ghost use Rattle.smil_script.specs.declared.entries.DiaryLine.TheVariants.{Now};

use super::words::event_name;
use smil_lexis::texts::{behind, cut, is, is_key};
use smil_model::{Entry, HORIZON, Happening, LogEntry, Refusal, Step};
use smil_time_list::offsets::count;
use std::alloc::Global;

/// The greatest number of digits of a value in the line of an entry.
pub const VALUE_DIGITS: usize = 18;

/// A line behind the outline of a diary: what happened, what came from outside, or the present
/// moment, in milliseconds of document time.
#[derive(Drop)]
pub enum DiaryLine {
    /// What happened to an element.
    Happened { entry: Entry },
    /// What came from outside.
    Heard { entry: LogEntry },
    /// The present moment.
    Now { moment: i64 },
}

/// What a line behind the outline of a diary says, which is its moment and its entry as the order
/// `diary` writes them, or `now` and a moment; the line is without its line feed. Numbers have at
/// most `VALUE_DIGITS` digits and no zero in front; moments and lengths are from 0 to 10^12
/// milliseconds. `NotACommand` exactly where the line has no reading; `Memory` may come where it has
/// one. What was heard is what a log may have.
pub fn read_diary_line(alloc: Global, line: &[u8]) -> Result<DiaryLine, Refusal>
    ensures reading { GivesReading result (diary_line_of line.now) }
    ensures recorded { IfOk result IsRecorded }
{
    let (first, rest) = cut(line, b' ').ok_or(Refusal::NotACommand)?;
    if is(first, b"now") {
        present(rest)
    } else {
        timed(alloc, first, rest)
    }
}

// The present moment.
fn present(text: &[u8]) -> Result<DiaryLine, Refusal>
    ensures reading { result ≡ ok_or (option_map Now (moment_of text.now)) NotACommand }
    ensures recorded { IfOk result IsRecorded }
{
    match moment(text) {
        Some(moment) => Ok(DiaryLine::Now { moment }),
        None => Err(Refusal::NotACommand),
    }
}

// An entry behind the text of its moment.
fn timed(alloc: Global, first: &[u8], rest: &[u8]) -> Result<DiaryLine, Refusal>
    ensures reading { GivesReading result
        (timed_of (moment_of first.now) (cut_at space rest.now)) }
    ensures recorded { IfOk result IsRecorded }
{
    let moment = moment(first).ok_or(Refusal::NotACommand)?;
    let (word, rest) = cut(rest, b' ').ok_or(Refusal::NotACommand)?;
    entry(alloc, moment, word, rest)
}

// An entry behind its moment.
fn entry(alloc: Global, moment: i64, word: &[u8], rest: &[u8]) -> Result<DiaryLine, Refusal>
    requires { is_clock moment ≡ true }
    ensures reading { GivesReading result (entry_of moment word.now rest.now) }
    ensures recorded { IfOk result IsRecorded }
{
    match step(word, rest) {
        Some(step) => Ok(DiaryLine::Happened {
            entry: Entry { moment, step },
        }),
        None => heard(alloc, moment, word, rest),
    }
}

// What came from outside, behind its moment.
fn heard(alloc: Global, moment: i64, word: &[u8], rest: &[u8]) -> Result<DiaryLine, Refusal>
    requires { is_clock moment ≡ true }
    ensures reading { GivesReading result
        (with_heard moment (ok_or (happening_of word.now rest.now) NotACommand)) }
    ensures recorded { IfOk result IsRecorded }
{
    let what = happening(alloc, word, rest)?;
    Ok(DiaryLine::Heard {
        entry: LogEntry { moment, what },
    })
}

// What happened to an element, by its word.
fn step(word: &[u8], rest: &[u8]) -> Option<Step>
    ensures { result ≡ step_of word.now rest.now }
{
    if is(word, b"began") {
        let (who, begin) = valued(rest)?;
        Some(Step::Began { who, begin })
    } else if is(word, b"repeated") {
        let (who, start) = valued(rest)?;
        Some(Step::Repeated { who, start })
    } else if is(word, b"ended") {
        let (who, end) = valued(rest)?;
        Some(Step::Ended { who, end })
    } else if is(word, b"cut") {
        let who = serial(rest)?;
        Some(Step::Cut { who })
    } else if is(word, b"paused") {
        let who = serial(rest)?;
        Some(Step::Paused { who })
    } else if is(word, b"resumed") {
        let who = serial(rest)?;
        Some(Step::Resumed { who })
    } else if is(word, b"deferred") {
        let (who, begin) = valued(rest)?;
        Some(Step::Deferred { who, begin })
    } else if is(word, b"passed") {
        let (who, begin) = valued(rest)?;
        Some(Step::Passed { who, begin })
    } else {
        None
    }
}

// What came from outside, by its word.
fn happening(alloc: Global, word: &[u8], rest: &[u8]) -> Result<Happening, Refusal>
    ensures reading { GivesReading result (ok_or (happening_of word.now rest.now) NotACommand) }
    ensures may { IfOk result (λ what. may_happen what ≡ true) }
{
    if is(word, b"event") {
        named(alloc, rest)
    } else if is(word, b"media") {
        measured(rest).ok_or(Refusal::NotACommand)
    } else if is(word, b"key") {
        pressed(rest).ok_or(Refusal::NotACommand)
    } else {
        Err(Refusal::NotACommand)
    }
}

// An element and the event on it.
fn named(alloc: Global, rest: &[u8]) -> Result<Happening, Refusal>
    ensures reading { GivesReading result (ok_or (named_in rest.now) NotACommand) }
    ensures may { IfOk result (λ what. may_happen what ≡ true) }
{
    let (who, name) = cut(rest, b' ').ok_or(Refusal::NotACommand)?;
    let who = serial(who).ok_or(Refusal::NotACommand)?;
    let name = event_name(alloc, name)?;
    Ok(Happening::Event { who, name })
}

// An element and the length of its media.
fn measured(rest: &[u8]) -> Option<Happening>
    ensures reading { result ≡ measured_in rest.now }
    ensures may { IfSome result (λ what. may_happen what ≡ true) }
{
    let (who, length) = cut(rest, b' ')?;
    let who = serial(who)?;
    let length = moment(length)?;
    Some(Happening::Media { who, length })
}

// An access key that was pressed.
fn pressed(rest: &[u8]) -> Option<Happening>
    ensures reading { result ≡ option_map happening_value.Key (key_in rest.now) }
    ensures may { IfSome result (λ what. may_happen what ≡ true) }
{
    match rest {
        [key] if is_key(*key) => Some(Happening::Key { key: *key }),
        _ => None,
    }
}

// An element with its value on its clock.
fn valued(rest: &[u8]) -> Option<(u32, i64)>
    ensures { result ≡ valued_of rest.now }
{
    let (who, text) = cut(rest, b' ')?;
    let who = serial(who)?;
    let value = value(text)?;
    Some((who, value))
}

// An element by its serial, behind `#`.
fn serial(text: &[u8]) -> Option<u32>
    ensures reading { result ≡ serial_of text.now }
    ensures serial { IfSome result (λ who. is_serial who ≡ true) }
{
    let digits = behind(text, b'#')?;
    count(digits)
}

// A moment or a length, from 0 to the horizon.
fn moment(text: &[u8]) -> Option<i64>
    ensures reading { result ≡ moment_of text.now }
    ensures clock { IfSome result (λ moment. is_clock moment ≡ true) }
{
    let moment = plain(text)? as i64;
    if moment <= HORIZON {
        Some(moment)
    } else {
        None
    }
}

// A number with `-` before it where it is negative.
fn value(text: &[u8]) -> Option<i64>
    ensures { result ≡ value_of text.now }
{
    match behind(text, b'-') {
        Some(digits) => match plain(digits)? {
            0 => None,
            number => Some(-(number as i64)),
        },
        None => Some(plain(text)? as i64),
    }
}

// The number that at most `VALUE_DIGITS` digits write, without a leading zero.
fn plain(digits: &[u8]) -> Option<u64>
    ensures number { result ≡ plain_of digits.now }
    ensures bound { IfSome result (λ n. n < 10 ^ VALUE_DIGITS) }
{
    if matches!(digits, [b'0', _, ..]) || VALUE_DIGITS < digits.len() {
        return None;
    }
    long(digits)
}

// The number that one digit or more write, at most `VALUE_DIGITS`.
fn long(digits: &[u8]) -> Option<u64>
    requires { length digits.now ≤ VALUE_DIGITS }
    ensures number { result ≡ number_of digits.now }
    ensures bound { IfSome result (λ n. n < 10 ^ VALUE_DIGITS) }
{
    if digits.is_empty() {
        return None;
    }
    let mut number: u64 = 0;
    for digit in digits {
        if !digit.is_ascii_digit() {
            return None;
        }
        number = number * 10 + u64::from(*digit - b'0');
    }
    Some(number)
}
