//! The lines of a diary.

ghost use Rattle.std.specs.Prelude.{◌≡◌, ◌++◌, [], ◌∷◌, codes, map, OnOk, OnErr};
ghost use Rattle.std.specs.Fmt.{signed_decimal};
ghost use Rattle.smil_model.specs.shown.Lines.{entry_line, happening_words, line_of, now_line, outline_end, serial_text};
ghost use Rattle.smil_report.specs.Words.{word_text};

use super::words::{Word, put_line};
use smil_model::{Bytes, Entry, Happening, Log, Step};
use std::alloc::AllocError;

/// Appends the line between an outline and a diary, `%%`. Where memory is refused, `out` is as
/// before.
pub fn put_outline_end(out: &mut Bytes) -> Result<(), AllocError>
    ensures ok { OnOk result (out.new ≡ out.old ++ outline_end) }
    ensures err { OnErr result (out.new ≡ out.old) }
{
    put_line(out, &[Word::Text(b"%%")])
}

/// Appends the line of the present moment behind a diary, `now NOW`, in milliseconds of document
/// time. Where memory is refused, `out` is as before.
pub fn put_now(out: &mut Bytes, now: i64) -> Result<(), AllocError>
    ensures ok { OnOk result (out.new ≡ out.old ++ now_line now) }
    ensures err { OnErr result (out.new ≡ out.old) }
{
    put_line(out, &[Word::Text(b"now"), Word::Moment(now)])
}

/// Appends an entry of a diary as `MOMENT WORD` and what follows the word: the element by its
/// serial and the value on its clock, or what the log says was heard. Where memory is refused,
/// `out` is as before.
pub fn put_entry(out: &mut Bytes, log: &Log, entry: Entry) -> Result<(), AllocError>
    ensures ok { OnOk result (out.new ≡ out.old ++ entry_line log.now entry) }
    ensures err { OnErr result (out.new ≡ out.old) }
{
    let at = entry.moment;
    match entry.step {
        Step::Began { who, begin } => put_line(out, &valued(at, b"began", who, begin)),
        Step::Repeated { who, start } => put_line(out, &valued(at, b"repeated", who, start)),
        Step::Ended { who, end } => put_line(out, &valued(at, b"ended", who, end)),
        Step::Deferred { who, begin } => put_line(out, &valued(at, b"deferred", who, begin)),
        Step::Passed { who, begin } => put_line(out, &valued(at, b"passed", who, begin)),
        Step::Cut { who } => put_line(out, &bare(at, b"cut", who)),
        Step::Paused { who } => put_line(out, &bare(at, b"paused", who)),
        Step::Resumed { who } => put_line(out, &bare(at, b"resumed", who)),
        Step::Logged { place } => match log.get(place as usize) {
            Some(heard) => put_heard(out, at, &heard.what),
            None => put_line(out, &[Word::Moment(at)]),
        },
    }
}

// The words of the line of a step that has no value.
fn bare(at: i64, word: &[u8], who: u32) -> [Word<'_>; 3]
    ensures { map word_text result ≡ signed_decimal at ∷ word.now ∷ serial_text who ∷ [] }
{
    [Word::Moment(at), Word::Text(word), Word::Serial(who)]
}

// The words of the line of a step that has a value.
fn valued(at: i64, word: &[u8], who: u32, value: i64) -> [Word<'_>; 4]
    ensures { map word_text result
        ≡ signed_decimal at ∷ word.now ∷ serial_text who ∷ signed_decimal value ∷ [] }
{
    [
        Word::Moment(at),
        Word::Text(word),
        Word::Serial(who),
        Word::Moment(value),
    ]
}

// Appends the line of what came from outside and was heard at a moment.
fn put_heard(out: &mut Bytes, moment: i64, what: &Happening) -> Result<(), AllocError>
    ensures ok { OnOk result (out.new ≡ out.old
        ++ line_of (signed_decimal moment ∷ happening_words what.now)) }
    ensures err { OnErr result (out.new ≡ out.old) }
{
    match what {
        Happening::Event { who, name } => put_line(
            out,
            &[
                Word::Moment(moment),
                Word::Text(b"event"),
                Word::Serial(*who),
                Word::Text(name.slice()),
            ],
        ),
        Happening::Media { who, length } => {
            put_line(out, &valued(moment, b"media", *who, *length))
        }
        Happening::Key { key } => put_key(out, moment, *key),
    }
}

// Appends the line of a press of an access key.
fn put_key(out: &mut Bytes, moment: i64, key: u8) -> Result<(), AllocError>
    ensures ok { OnOk result (out.new ≡ out.old
        ++ line_of (signed_decimal moment ∷ codes "key" ∷ (key ∷ []) ∷ [])) }
    ensures err { OnErr result (out.new ≡ out.old) }
{
    let text = [key];
    put_line(
        out,
        &[Word::Moment(moment), Word::Text(b"key"), Word::Text(&text)],
    )
}
