//! The words of a line.

ghost use Rattle.std.specs.Prelude.{◌≡◌, ◌++◌, List, map, OnOk, OnErr};
ghost use Rattle.smil_model.specs.shown.Lines.{line_of, quoted, reference_text, serial_text, shown_text, how_text};
ghost use Rattle.smil_report.specs.Words.{who_of, word_text};
ghost use Rattle.smil_model.specs.document.Words.{Begins};

use itoa::{Buffer, Integer};
use smil_model::{Bytes, How, Shown};
use std::alloc::AllocError;

/// The name of a node: its id, or its serial where it has none.
#[derive(Clone, Copy)]
pub enum Name<'a> {
    Id(&'a [u8]),
    Serial(u32),
}

/// A word of a line.
#[derive(Clone, Copy)]
pub enum Word<'a> {
    Text(&'a [u8]),
    Name(Name<'a>),
    /// A node by its serial.
    Serial(u32),
    /// A text between quotes.
    Quoted(&'a [u8]),
    Time(Shown),
    Moment(i64),
    Number(u32),
}

/// How an interval ended.
pub fn how_word(how: How) -> &'static [u8]
    ensures { result.now ≡ how_text how }
{
    match how {
        How::Ended => b"ended",
        How::Cut => b"cut",
        How::Playing => b"playing",
    }
}

// Appends a number.
fn put_number<I: Integer>(out: &mut Bytes, number: I) -> Result<(), AllocError>
    ensures ok { OnOk result (out.new ≡ out.old ++ I.text number) }
    ensures err { OnErr result (out.new ≡ out.old) }
{
    let mut buffer = Buffer::new();
    out.append(buffer.format(number).as_bytes())
}

// Appends the id or the serial of an element.
fn put_name(out: &mut Bytes, name: Name<'_>) -> Result<(), AllocError>
    ensures ok { OnOk result (out.new ≡ out.old ++ reference_text (who_of name.entry)) }
    ensures err { OnErr result (Begins out.old out.new) }
{
    match name {
        Name::Id(id) => out.append(id),
        Name::Serial(serial) => put_serial(out, serial),
    }
}

// Appends a serial.
fn put_serial(out: &mut Bytes, serial: u32) -> Result<(), AllocError>
    ensures ok { OnOk result (out.new ≡ out.old ++ serial_text serial) }
    ensures err { OnErr result (Begins out.old out.new) }
{
    out.push(b'#')?;
    put_number(out, serial)
}

// Appends a text between quotes.
#[tactic(auto, using(smil_model::proofs::GrowingTexts::begins_on))]
fn put_quoted(out: &mut Bytes, text: &[u8]) -> Result<(), AllocError>
    ensures ok { OnOk result (out.new ≡ out.old ++ quoted text.now) }
    ensures err { OnErr result (Begins out.old out.new) }
{
    out.push(b'"')?;
    out.append(text)?;
    out.push(b'"')
}

// Appends a time of a view.
fn put_time(out: &mut Bytes, time: Shown) -> Result<(), AllocError>
    ensures ok { OnOk result (out.new ≡ out.old ++ shown_text time) }
    ensures err { OnErr result (out.new ≡ out.old) }
{
    match time {
        Shown::Nothing => out.append(b"-"),
        Shown::At(value) => put_number(out, value),
        Shown::Indefinite => out.append(b"indefinite"),
        Shown::Unresolved => out.append(b"unresolved"),
        Shown::Standing => out.append(b"?"),
    }
}

// Appends a word.
fn put_word(out: &mut Bytes, word: &Word) -> Result<(), AllocError>
    ensures ok { OnOk result (out.new ≡ out.old ++ word_text word.now) }
    ensures err { OnErr result (Begins out.old out.new) }
{
    match *word {
        Word::Text(text) => out.append(text),
        Word::Name(name) => put_name(out, name),
        Word::Serial(serial) => put_serial(out, serial),
        Word::Quoted(text) => put_quoted(out, text),
        Word::Time(time) => put_time(out, time),
        Word::Moment(moment) => put_number(out, moment),
        Word::Number(number) => put_number(out, number),
    }
}

// Appends the words, with a space between them, and a line feed.
#[tactic(auto, using(smil_model::proofs::GrowingTexts::begins_on))]
fn put_words(out: &mut Bytes, words: &[Word]) -> Result<(), AllocError>
    ensures ok { OnOk result (out.new ≡ out.old ++ line_of (map word_text words.now)) }
    ensures err { OnErr result (Begins out.old out.new) }
{
    match words {
        [] => out.append(b"\n"),
        [last] => {
            put_word(out, last)?;
            out.append(b"\n")
        }
        [word, rest @ ..] => {
            put_word(out, word)?;
            out.append(b" ")?;
            put_words(out, rest)
        }
    }
}

/// Appends a line of these words, separated by single spaces. Where memory is refused, `out` is as
/// before.
pub fn put_line(out: &mut Bytes, words: &[Word]) -> Result<(), AllocError>
    ensures ok { OnOk result (out.new ≡ out.old ++ line_of (map word_text words.now)) }
    ensures err { OnErr result (out.new ≡ out.old) }
{
    let before = out.len();
    let put = put_words(out, words);
    if put.is_err() {
        out.cut_back(before);
    }
    put
}
