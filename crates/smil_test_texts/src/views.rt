//! Calls of smil_fill and smil_report: views, and the lines of a transcript.

ghost use Rattle.std.specs.Prelude.{◌≡◌, ℤ, true};
ghost use Rattle.std.specs.Option.{ForSome};
ghost use Rattle.smil_model.specs.declared.interval.Interval.{Interval as GivenInterval};
ghost use Rattle.smil_fill.specs.Numbers.{HasNumbersWithin, IsTimeCarried};
ghost use Rattle.smil_model.specs.Times.{IsCarried};

use smil_fill::{ViewFacts, view};
use smil_model::{Bytes, CARRIED, Fill, Interval, NAME_BYTES, Refusal, Shown, State, Time, View};
use smil_report::{
    How, LAST_LINE_BYTES, Name, REFUSAL_BYTES, put_change, put_closed, put_gone, put_history,
    put_ok, put_refusal,
};
use smil_test_cases::{Fault, Words, natural, number};

/// `view FACTS`: the line of the view at moment 0. FACTS are the fields of `ViewFacts` in order,
/// separated by spaces.
pub fn viewed(words: &mut Words<'_>, out: &mut Bytes) -> Result<(), Fault> {
    let facts = facts(words)?;
    if !are_within(&facts) {
        return Err(Fault::Refused);
    }
    let view = view(&facts);
    put_change(out, 0, Name::Serial(view.serial), &view)?;
    Ok(())
}

// The facts of a view, field by field.
fn facts(words: &mut Words<'_>) -> Result<ViewFacts, Fault> {
    Ok(ViewFacts {
        serial: words.natural()?,
        active: words.flag()?,
        paused: words.flag()?,
        deferred: words.maybe_number()?,
        interval: words.maybe_interval()?,
        begun: words.maybe_number()?,
        last: pair(words.word()?)?,
        cut: words.flag()?,
        fill: fill(words.word()?)?,
        displaced: words.flag()?,
        parent_shows: words.flag()?,
        parent_frozen: words.flag()?,
        standing: words.flag()?,
        shift: words.number()?,
        iteration: words.natural()?,
        finished: words.natural()?,
    })
}

// Two numbers as `BEGIN,END`, or `-` for none.
fn pair(word: &str) -> Result<Option<(i64, i64)>, Fault> {
    if word == "-" {
        return Ok(None);
    }
    let mut parts = Words::of_word(word);
    let begin = parts.number()?;
    let end = parts.number()?;
    Ok(Some((begin, end)))
}

// A fill, by its word.
fn fill(word: &str) -> Result<Fill, Fault> {
    match word {
        "remove" => Ok(Fill::Remove),
        "freeze" => Ok(Fill::Freeze),
        "hold" => Ok(Fill::Hold),
        _ => Err(Fault::Refused),
    }
}

// Whether a number is from -10^13 to 10^13.
fn is_within(number: i64) -> bool
    ensures { result ≡ true → IsCarried number }
{
    -CARRIED <= number && number <= CARRIED
}

// Whether a time is such a number, or no number.
fn is_time_within(time: Time) -> bool
    ensures { result ≡ true → IsTimeCarried time }
{
    match time {
        Time::At(value) => is_within(value),
        Time::Indefinite | Time::Unresolved => true,
    }
}

// Whether begin and end of an interval are so, where there is one.
fn is_interval_within(interval: Option<Interval>) -> bool
    ensures { result ≡ true → ForSome interval
        (λ (i : GivenInterval). IsCarried i.begin × IsTimeCarried i.«end») }
{
    match interval {
        Some(interval) => is_within(interval.begin) && is_time_within(interval.end),
        None => true,
    }
}

// Whether a number is so, where there is one.
fn is_maybe_within(number: Option<i64>) -> bool
    ensures { result ≡ true → ForSome number IsCarried }
{
    match number {
        Some(number) => is_within(number),
        None => true,
    }
}

// Whether two numbers are so, where they are there.
fn is_pair_within(pair: Option<(i64, i64)>) -> bool
    ensures { result ≡ true → ForSome pair (λ (p : ℤ × ℤ). IsCarried p.0 × IsCarried p.1) }
{
    match pair {
        Some((begin, end)) => is_within(begin) && is_within(end),
        None => true,
    }
}

// Whether each number among the facts of a view is so.
fn are_within(facts: &ViewFacts) -> bool
    ensures { result ≡ true → HasNumbersWithin facts.now }
{
    if !is_maybe_within(facts.deferred) {
        return false;
    }
    if !is_interval_within(facts.interval) {
        return false;
    }
    if !is_maybe_within(facts.begun) {
        return false;
    }
    is_pair_within(facts.last) && is_within(facts.shift)
}

// A node as `#SERIAL` or by its id.
fn name(word: &str) -> Result<Name<'_>, Fault> {
    match word.strip_prefix('#') {
        Some(rest) => Ok(Name::Serial(natural(rest)?)),
        None => Ok(Name::Id(word.as_bytes())),
    }
}

// A time as it is shown.
fn shown(word: &str) -> Result<Shown, Fault> {
    match word {
        "-" => Ok(Shown::Nothing),
        "?" => Ok(Shown::Standing),
        "indefinite" => Ok(Shown::Indefinite),
        "unresolved" => Ok(Shown::Unresolved),
        _ => Ok(Shown::At(number(word)?)),
    }
}

// A state, by its word.
fn state(word: &str) -> Result<State, Fault> {
    match word {
        "idle" => Ok(State::Idle),
        "waiting" => Ok(State::Waiting),
        "active" => Ok(State::Active),
        "paused" => Ok(State::Paused),
        "deferred" => Ok(State::Deferred),
        "frozen" => Ok(State::Frozen),
        "done" => Ok(State::Done),
        _ => Err(Fault::Refused),
    }
}

/// `change MOMENT REF STATE BEGIN END ITERATION FINISHED`.
pub fn change(words: &mut Words<'_>, out: &mut Bytes) -> Result<(), Fault> {
    let moment = words.number()?;
    let name = name(words.word()?)?;
    let view = View {
        serial: 1,
        state: state(words.word()?)?,
        begin: shown(words.word()?)?,
        end: shown(words.word()?)?,
        iteration: words.natural()?,
        finished: words.natural()?,
    };
    Ok(put_change(out, moment, name, &view)?)
}

/// `gone MOMENT REF`.
pub fn gone(words: &mut Words<'_>, out: &mut Bytes) -> Result<(), Fault> {
    let moment = words.number()?;
    let name = name(words.word()?)?;
    Ok(put_gone(out, moment, name)?)
}

/// `history REF BEGIN END HOW`.
pub fn history(words: &mut Words<'_>, out: &mut Bytes) -> Result<(), Fault> {
    let name = name(words.word()?)?;
    let begin = shown(words.word()?)?;
    let end = shown(words.word()?)?;
    let how = match words.word()? {
        "ended" => How::Ended,
        "cut" => How::Cut,
        "playing" => How::Playing,
        _ => return Err(Fault::Refused),
    };
    Ok(put_history(out, name, begin, end, how)?)
}

/// `ok LINE NAME NOW`.
pub fn ok(words: &mut Words<'_>, out: &mut Bytes) -> Result<(), Fault> {
    let line = words.natural()?;
    let name = words.word()?;
    let now = words.number()?;
    if name.len() > NAME_BYTES {
        return Err(Fault::Refused);
    }
    let mut buffer = [0; LAST_LINE_BYTES];
    let len = put_ok(&mut buffer, line, name.as_bytes(), now);
    out.append(&buffer[..len])?;
    Ok(())
}

/// `closed LINE NAME`.
pub fn closed(words: &mut Words<'_>, out: &mut Bytes) -> Result<(), Fault> {
    let line = words.natural()?;
    let name = words.word()?;
    if name.len() > NAME_BYTES {
        return Err(Fault::Refused);
    }
    let mut buffer = [0; LAST_LINE_BYTES];
    let len = put_closed(&mut buffer, line, name.as_bytes());
    out.append(&buffer[..len])?;
    Ok(())
}

/// `refusal LINE NUMBER COLUMN`: the line of a refusal by its number, with a column where it has
/// one.
pub fn refused(words: &mut Words<'_>, out: &mut Bytes) -> Result<(), Fault> {
    let line = words.natural()?;
    let refusal = refusal(words.natural()?, words.natural()?)?;
    let mut buffer = [0; REFUSAL_BYTES];
    let len = put_refusal(&mut buffer, line, &refusal);
    out.append(&buffer[..len])?;
    Ok(())
}

// A refusal, by its number.
fn refusal(number: u32, column: u32) -> Result<Refusal, Fault> {
    let refusal = match number {
        1 => Refusal::LongLine,
        2 => Refusal::NotACommand,
        3 => Refusal::UnfinishedLoad,
        4 => Refusal::BadOutline,
        5 => Refusal::DepthJump,
        6 => Refusal::TooDeep,
        7 => Refusal::BadPlace,
        8 => Refusal::UnknownAttribute { column },
        9 => Refusal::Unsupported { column },
        10 => Refusal::BadValue { column },
        11 => Refusal::TooManyItems { column },
        12 => Refusal::DuplicateId,
        13 => Refusal::TooManyElements,
        14 => Refusal::TooManyReferences,
        15 => Refusal::NoPresentation,
        16 => Refusal::NameTaken,
        17 => Refusal::TooManyPresentations,
        18 => Refusal::NoElement,
        19 => Refusal::Root,
        20 => Refusal::NotContinuous,
        21 => Refusal::LogFull,
        22 => Refusal::BeyondHorizon,
        23 => Refusal::DiaryFull,
        24 => Refusal::Memory,
        25 => Refusal::NotYet,
        26 => Refusal::BadSerial,
        27 => Refusal::NoAnchor,
        _ => return Err(Fault::Refused),
    };
    Ok(refusal)
}
