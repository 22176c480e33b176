//! The log of what came from outside, and the diary of what happened.

use super::duplicate::Duplicate;
use super::growing_list::{Bytes, GrowingList};
use std::alloc::AllocError;
use std::mem::size_of;

/// What came from outside: an event on the element with the serial `who`, the length of its media
/// in milliseconds, or a press of an access key, one byte.
#[derive(Drop)]
pub enum Happening {
    Event { who: u32, name: Bytes },
    Media { who: u32, length: i64 },
    Key { key: u8 },
}

impl Duplicate for Happening {
    fn copy(&self) -> Result<Self, AllocError> {
        match self {
            Happening::Event { who, name } => Ok(Happening::Event {
                who: *who,
                name: name.copy()?,
            }),
            Happening::Media { who, length } => Ok(Happening::Media {
                who: *who,
                length: *length,
            }),
            Happening::Key { key } => Ok(Happening::Key { key: *key }),
        }
    }
}

/// What came from outside, with its moment, in milliseconds of document time.
#[derive(Drop)]
pub struct LogEntry {
    pub moment: i64,
    pub what: Happening,
}

impl Duplicate for LogEntry {
    fn copy(&self) -> Result<Self, AllocError> {
        Ok(LogEntry {
            moment: self.moment,
            what: self.what.copy()?,
        })
    }
}

/// What came from outside, in order.
pub type Log = GrowingList<LogEntry>;

/// What happened to the element with the serial `who`, or which log entry was heard. A begin, an
/// end and a deferred or passed begin are on the time parent's clock, the start of an iteration on
/// the element's own, in milliseconds.
#[derive(Clone, Copy)]
pub enum Step {
    /// It began with this begin.
    Began { who: u32, begin: i64 },
    /// A further iteration began at this start.
    Repeated { who: u32, start: i64 },
    /// Its interval ended with this end.
    Ended { who: u32, end: i64 },
    /// Its interval was cut off by an ancestor's end or repeat.
    Cut { who: u32 },
    /// An excl paused it.
    Paused { who: u32 },
    /// An excl resumed it.
    Resumed { who: u32 },
    /// An excl put off its begin.
    Deferred { who: u32, begin: i64 },
    /// An excl passed over its begin.
    Passed { who: u32, begin: i64 },
    /// The log entry at this place, from 0, was heard.
    Logged { place: u32 },
}

/// A step with its moment, in milliseconds of document time.
#[derive(Clone, Copy)]
pub struct Entry {
    pub moment: i64,
    pub step: Step,
}

// 1,000,000 entries take at most 48 MB.
const _: () = prove!(size_of::<Entry>() <= 48);

/// What happened, in order.
pub type Diary = GrowingList<Entry>;

/// The kinds of steps that happen to an element.
#[derive(Clone, Copy)]
pub enum StepKind {
    Began,
    Repeated,
    Ended,
    Cut,
    Paused,
    Resumed,
    Deferred,
    Passed,
}
