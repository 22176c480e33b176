//! Calls of smil_interval.

ghost use Rattle.std.specs.Prelude.{◌≡◌, ◌<◌};
ghost use Rattle.smil_interval.specs.Rising.{IsRising, IsRisingTimes};

use super::rising::{rises, times_rise};
use smil_duration::Bounds;
use smil_interval::{EndList, IntervalFacts, Steps, evaluate, first_interval, next_interval};
use smil_model::{Bytes, Count, Facts, Interval, Play, Restart, Time};
use smil_test_cases::{Fault, Words, number, put_interval, time};
use std::alloc::Global;
use std::marker::Brand;
use std::sync::ledger::{Blank, Ledger};

/// `interval FACTS BEGINS ENDS`: the interval; what the search for a next one finds, but of an
/// active element that has finished one; and what the search for a first one finds, where none has
/// finished and the element isn't active. FACTS are, separated by spaces: alive, deferred, the play
/// or `-`, the parent's start, the last interval or `-`, the begin that passed or `-`, the end
/// list, the restart, min, max, the simple duration, the repeat count and the repeat duration or
/// `-`.
pub fn interval(alloc: Global, words: &mut Words<'_>, out: &mut Bytes) -> Result<(), Fault> {
    let facts = facts(words)?;
    let begins = Words::of_word(words.word()?).values(alloc, "-", number::<i64>)?;
    let ends = Words::of_word(words.word()?).values(alloc, "-", time)?;
    if !rises(begins.as_slice()) || !times_rise(ends.as_slice()) {
        return Err(Fault::Refused);
    }
    let bounds = Bounds::of_facts(&facts);
    let facts = with_bounds(&facts, &bounds);
    tell(out, &facts, begins.as_slice(), ends.as_slice())
}

// The answers of the calls.
fn tell(
    out: &mut Bytes,
    facts: &IntervalFacts<'_>,
    begins: &[i64],
    ends: &[Time],
) -> Result<(), Fault>
    requires begins_rise { IsRising begins.now }
    requires ends_rise { IsRisingTimes ends.now }
{
    put_interval(out, evaluated::<Brand>(Blank::new(1), facts, begins, ends))?;
    if facts.last.is_none() || facts.play.is_none() {
        put_interval(out, next_interval(begins, ends, facts))?;
    }
    if facts.last.is_none() && facts.play.is_none() {
        put_interval(out, first_interval(begins, ends, facts))?;
    }
    Ok(())
}

// One evaluation, which is counted.
fn evaluated<L: Ledger>(
    blank: Blank,
    facts: &IntervalFacts<'_>,
    begins: &[i64],
    ends: &[Time],
) -> Option<Interval>
    requires name { blank.name ≡ L.name }
    requires parts { blank.parts ≡ L.parts }
    requires backed { 0 < blank.parts }
    requires begins_rise { IsRising begins.now }
    requires ends_rise { IsRisingTimes ends.now }
{
    let mut steps = Steps::<L>::new(blank);
    evaluate(begins, ends, facts, &mut steps)
}

// The facts of a search, with what limits a play.
fn with_bounds<'a>(facts: &Facts, bounds: &'a Bounds) -> IntervalFacts<'a> {
    IntervalFacts {
        alive: facts.alive,
        deferred: facts.deferred,
        play: facts.play,
        parent_start: facts.parent_start,
        last: facts.last,
        passed: facts.passed,
        end_list: facts.end_list,
        restart: facts.restart,
        bounds,
        simple: facts.simple,
    }
}

// The facts of a search, field by field.
fn facts(words: &mut Words<'_>) -> Result<Facts, Fault> {
    Ok(Facts {
        alive: words.flag()?,
        deferred: words.flag()?,
        play: play(words.word()?)?,
        parent_start: words.number()?,
        last: words.maybe_interval()?,
        passed: words.maybe_number()?,
        end_list: end_list(words.word()?)?,
        restart: restart(words.word()?)?,
        min: words.number()?,
        max: words.time()?,
        simple: words.time()?,
        count: count(words.word()?)?,
        repeat_dur: words.maybe_time()?,
    })
}

// A play as `BEGIN,FIRST,START,ITERATION,SHIFT`, or `-` for none.
fn play(word: &str) -> Result<Option<Play>, Fault> {
    if word == "-" {
        return Ok(None);
    }
    let mut parts = Words::of_word(word);
    Ok(Some(Play {
        begin: parts.number()?,
        first: parts.number()?,
        start: parts.number()?,
        iteration: parts.natural()?,
        shift: parts.maybe_number()?,
    }))
}

// An end list, by its word.
fn end_list(word: &str) -> Result<EndList, Fault> {
    match word {
        "absent" => Ok(EndList::Absent),
        "hearing" => Ok(EndList::Hearing),
        "plain" => Ok(EndList::Plain),
        _ => Err(Fault::Refused),
    }
}

// A restart, by its word.
fn restart(word: &str) -> Result<Restart, Fault> {
    match word {
        "always" => Ok(Restart::Always),
        "whenNotActive" => Ok(Restart::WhenNotActive),
        "never" => Ok(Restart::Never),
        _ => Err(Fault::Refused),
    }
}

// A repeat count in thousandths, `indefinite`, or `-` for none.
fn count(word: &str) -> Result<Option<Count>, Fault> {
    match word {
        "-" => Ok(None),
        "indefinite" => Ok(Some(Count::Indefinite)),
        _ => Ok(Some(Count::Thousandths(number(word)?))),
    }
}
