//! Intervals of elements, and the facts of an element and of its children that decide them.

use super::document::{Count, Restart};
use super::times::Time;

/// An interval of an element, in milliseconds on its time parent's clock. SMIL 3.0, "Evaluation of
/// begin and end time lists".
#[derive(Clone, Copy, PartialEq, Eq)]
pub struct Interval {
    pub begin: i64,
    pub end: Time,
}

/// The present play of an active element.
#[derive(Clone, Copy)]
pub struct Play {
    /// The begin of the interval, on the time parent's clock.
    pub begin: i64,
    /// The play start, on the element's own clock.
    pub first: i64,
    /// The start of the present iteration, on the element's own clock.
    pub start: i64,
    /// The number of the present iteration, from 0.
    pub iteration: u32,
    /// How far the time parent's clock is ahead of the element's own; None while the element is
    /// paused.
    pub shift: Option<i64>,
}

/// What an element's end list can do without a usable end instance.
#[derive(Clone, Copy, PartialEq, Eq)]
pub enum EndList {
    /// There is no `end` attribute.
    Absent,
    /// The list has an event, repeat or access key item, which may still give an end.
    Hearing,
    /// The list has neither.
    Plain,
}

/// What the interval of an element follows from, besides its instance times, in milliseconds. The
/// attributes' values are those that hold: what an absent or inherited attribute means stands in
/// their places. SMIL 3.0, "Computing the active duration" and "Evaluation of begin and end time
/// lists".
#[derive(Clone, Copy)]
pub struct Facts {
    /// Whether the time parent is active; true for the root.
    pub alive: bool,
    /// Whether an excl has deferred the element.
    pub deferred: bool,
    /// The present play of an active element.
    pub play: Option<Play>,
    /// The play start of the time parent's present iteration, on its clock.
    pub parent_start: i64,
    /// The last interval that finished since birth.
    pub last: Option<Interval>,
    /// The greatest begin since birth that an excl let pass.
    pub passed: Option<i64>,
    pub end_list: EndList,
    /// The restart that holds: never `ByDefault`.
    pub restart: Restart,
    pub min: i64,
    pub max: Time,
    /// The simple duration.
    pub simple: Time,
    pub count: Option<Count>,
    pub repeat_dur: Option<Time>,
}

/// What `endsync` asks of a time child, in milliseconds on the clock of the container. SMIL 3.0,
/// "The endsync attribute".
#[derive(Clone, Copy)]
pub struct ChildEnd {
    /// Whether the container's `endsync` names this child.
    pub named: bool,
    /// The end of its first interval since the container's iteration began.
    pub first: Option<Time>,
    /// The end of its latest interval.
    pub latest: Option<Time>,
}
