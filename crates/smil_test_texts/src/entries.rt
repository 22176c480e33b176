//! Lines of a diary, read by smil_script.

use smil_model::{Bytes, Happening, Step};
use smil_script::{DiaryLine, read_diary_line};
use smil_test_cases::{Fault, Words, put_bytes, put_fault, put_number, put_valued};
use std::alloc::{AllocError, Global};

/// `entry LINE`: what a line behind the outline of a diary says.
pub fn entry(alloc: Global, words: &mut Words<'_>, out: &mut Bytes) -> Result<(), Fault> {
    match read_diary_line(alloc, words.rest().as_bytes()) {
        Ok(line) => Ok(put_line(out, &line)?),
        Err(refusal) => Ok(put_fault(out, refusal.word(), refusal.column())?),
    }
}

// What a line says, its moment in front.
fn put_line(out: &mut Bytes, line: &DiaryLine) -> Result<(), AllocError> {
    match line {
        DiaryLine::Happened { entry } => {
            put_number(out, entry.moment)?;
            put_step(out, entry.step)
        }
        DiaryLine::Heard { entry } => {
            put_number(out, entry.moment)?;
            put_happening(out, &entry.what)
        }
        DiaryLine::Now { moment } => put_valued(out, "now", *moment),
    }
}

// What happened to an element.
fn put_step(out: &mut Bytes, step: Step) -> Result<(), AllocError> {
    match step {
        Step::Began { who, begin } => put_with(out, "began", who, begin),
        Step::Repeated { who, start } => put_with(out, "repeated", who, start),
        Step::Ended { who, end } => put_with(out, "ended", who, end),
        Step::Cut { who } => put_valued(out, "cut", who),
        Step::Paused { who } => put_valued(out, "paused", who),
        Step::Resumed { who } => put_valued(out, "resumed", who),
        Step::Deferred { who, begin } => put_with(out, "deferred", who, begin),
        Step::Passed { who, begin } => put_with(out, "passed", who, begin),
        Step::Logged { place } => put_valued(out, "logged", place),
    }
}

// A word, an element and its value.
fn put_with(out: &mut Bytes, word: &str, who: u32, value: i64) -> Result<(), AllocError> {
    put_valued(out, word, who)?;
    put_number(out, value)
}

// What came from outside.
fn put_happening(out: &mut Bytes, what: &Happening) -> Result<(), AllocError> {
    match what {
        Happening::Event { who, name } => {
            put_valued(out, "event", *who)?;
            put_bytes(out, name)
        }
        Happening::Media { who, length } => put_with(out, "media", *who, *length),
        Happening::Key { key } => put_valued(out, "key", *key),
    }
}
