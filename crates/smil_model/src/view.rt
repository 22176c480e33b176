//! What is shown of an element.

use super::document::Fill;
use super::duplicate::Duplicate;
use super::growing_list::Bytes;
use super::interval::Interval;
use std::alloc::AllocError;

/// The state of an element.
#[derive(Clone, Copy)]
pub enum State {
    Idle,
    Waiting,
    Active,
    Paused,
    Deferred,
    Frozen,
    Done,
}

/// A time as it is shown: no time, a number of milliseconds of document time, a word, or that its
/// clock stands.
#[derive(Clone, Copy)]
pub enum Shown {
    Nothing,
    At(i64),
    Indefinite,
    Unresolved,
    Standing,
}

/// What is shown of an element at a moment, in milliseconds of document time: its state, its
/// interval, the iteration from 0, and how many intervals have finished since birth.
#[derive(Clone, Copy)]
pub struct View {
    pub serial: u32,
    pub state: State,
    pub begin: Shown,
    pub end: Shown,
    pub iteration: u32,
    pub finished: u32,
}

/// What the view of an element follows from. `deferred`, `begun` and `last` are in document time,
/// and `interval` is on the time parent's clock.
#[derive(Clone, Copy)]
pub struct ViewFacts {
    pub serial: u32,
    pub active: bool,
    pub paused: bool,
    /// The begin that an excl has deferred.
    pub deferred: Option<i64>,
    /// The current interval.
    pub interval: Option<Interval>,
    /// The begin of the present play of an active element.
    pub begun: Option<i64>,
    /// Begin and end of the last interval that finished since birth.
    pub last: Option<(i64, i64)>,
    /// Whether that interval was cut.
    pub cut: bool,
    /// The fill that holds: never `Auto` or `ByDefault`.
    pub fill: Fill,
    /// Whether another child began or resumed after the last end, in a seq or an excl, or the next
    /// child of a seq began since birth.
    pub displaced: bool,
    /// Whether the time parent is active or frozen, or there is none.
    pub parent_shows: bool,
    pub parent_frozen: bool,
    /// Whether the time parent's clock stands.
    pub standing: bool,
    /// Document time less the time parent's clock, at the present moment.
    pub shift: i64,
    pub iteration: u32,
    pub finished: u32,
}

/// What a `set` that plays, or is frozen, sets: an attribute of the node with the serial `target`,
/// since a begin in milliseconds of document time. `position` is the place of the `set` among the
/// nodes, in document order from 0.
#[derive(Drop)]
pub struct Layer {
    pub target: u32,
    pub attr: Bytes,
    pub begin: i64,
    pub position: u32,
}

impl Duplicate for Layer {
    fn copy(&self) -> Result<Self, AllocError> {
        Ok(Layer {
            target: self.target,
            attr: self.attr.copy()?,
            begin: self.begin,
            position: self.position,
        })
    }
}

/// How an interval ended, or that it has not.
#[derive(Clone, Copy)]
pub enum How {
    Ended,
    Cut,
    Playing,
}
