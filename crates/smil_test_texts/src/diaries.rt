//! Calls of smil_diary.

use smil_diary::{Book, BookFault};
use smil_model::{Bytes, Duplicate, Entry, Step, StepKind};
use smil_test_cases::{Fault, Words, natural, put_flag, put_maybe, put_number, put_word};
use std::alloc::{AllocError, Global};

// The kinds of steps, by the numbers that cases give them.
const KINDS: [StepKind; 8] = [
    StepKind::Began,
    StepKind::Repeated,
    StepKind::Ended,
    StepKind::Cut,
    StepKind::Paused,
    StepKind::Resumed,
    StepKind::Deferred,
    StepKind::Passed,
];

/// `book STEP..`: a letter and a serial push an entry, as `b2` a begin of 2; `<N` leaves the first
/// N entries, `*N` pushes N begins on a thousand elements in turn, `=` goes on with a copy, and
/// `?WHO,PARENT` tells the readings of an element under a time parent, or `-` for none.
pub fn book(alloc: Global, words: &mut Words<'_>, out: &mut Bytes) -> Result<(), Fault> {
    let mut book = Book::new(alloc);
    for word in words.rest().split(' ') {
        take(&mut book, word, out)?;
    }
    put_number(out, book.len())?;
    Ok(())
}

// One step.
fn take(book: &mut Book, word: &str, out: &mut Bytes) -> Result<(), Fault> {
    if let Some(rest) = word.strip_prefix('?') {
        readings(book, rest, out)
    } else if let Some(rest) = word.strip_prefix('<') {
        cut_back(book, natural(rest)?)
    } else if let Some(rest) = word.strip_prefix('*') {
        fill(book, natural(rest)?, out)
    } else if word == "=" {
        *book = book.copy()?;
        Ok(())
    } else {
        let (kind, who) = word.split_at_checked(1).ok_or(Fault::Refused)?;
        push(book, step(kind, natural(who)?)?, out)
    }
}

// A step of an element, by the letter of its kind.
fn step(kind: &str, who: u32) -> Result<Step, Fault> {
    match kind {
        "b" => Ok(Step::Began { who, begin: 0 }),
        "r" => Ok(Step::Repeated { who, start: 0 }),
        "e" => Ok(Step::Ended { who, end: 0 }),
        "c" => Ok(Step::Cut { who }),
        "p" => Ok(Step::Paused { who }),
        "u" => Ok(Step::Resumed { who }),
        "f" => Ok(Step::Deferred { who, begin: 0 }),
        "s" => Ok(Step::Passed { who, begin: 0 }),
        "l" => Ok(Step::Logged { place: who }),
        _ => Err(Fault::Refused),
    }
}

// Pushes an entry, and tells where the diary is full.
fn push(book: &mut Book, step: Step, out: &mut Bytes) -> Result<(), Fault> {
    match book.push(Entry { moment: 0, step }) {
        Ok(()) => Ok(()),
        Err(BookFault::DiaryFull) => Ok(put_word(out, "full")?),
        Err(BookFault::Memory) => Err(Fault::Memory),
    }
}

// Leaves the first entries.
fn cut_back(book: &mut Book, len: u32) -> Result<(), Fault> {
    let len = len as usize;
    if len > book.len() {
        return Err(Fault::Refused);
    }
    book.cut_back(len);
    Ok(())
}

// Pushes so many begins, of the elements 0 to 999 in turn.
fn fill(book: &mut Book, count: u32, out: &mut Bytes) -> Result<(), Fault> {
    for place in 0..count {
        let who = place % 1000;
        push(book, Step::Began { who, begin: 0 }, out)?;
    }
    Ok(())
}

// The readings of an element: birth, active, paused, deferred, iteration, finished, and the last
// place of each kind.
fn readings(book: &Book, word: &str, out: &mut Bytes) -> Result<(), Fault> {
    let mut parts = Words::of_word(word);
    let who = parts.natural()?;
    let parent = parts.maybe_natural()?;
    put_number(out, book.birth(parent))?;
    put_flag(out, book.active(who))?;
    put_flag(out, book.paused(who))?;
    put_flag(out, book.deferred(who, parent))?;
    put_number(out, book.iteration(who, parent))?;
    put_number(out, book.finished(who, parent))?;
    lasts(book, who, out)?;
    Ok(())
}

// The last place of each kind of an element.
fn lasts(book: &Book, who: u32, out: &mut Bytes) -> Result<(), AllocError> {
    for kind in KINDS {
        put_maybe(out, book.last(who, kind))?;
    }
    Ok(())
}
