//! What the interval of an element follows from.

use smil_duration::Bounds;
use smil_model::{EndList, Interval, Play, Restart, Time};
use std::marker::Model;

/// What the interval of an element follows from, besides its instance times, in milliseconds; seen
/// as the model's facts. The attributes' values are those that hold: what an absent or inherited
/// attribute means stands in their places. SMIL 3.0, "Computing the active duration" and
/// "Evaluation of begin and end time lists".
#[derive(Drop)]
pub struct IntervalFacts<'a> {
    /// Whether the time parent is active; true for the root.
    pub alive: bool,
    /// Whether an excl has deferred the element.
    pub deferred: bool,
    /// The present play of an active element.
    pub play: Option<Play>,
    /// The play start of the time parent's present iteration, on its clock.
    pub parent_start: i64,
    /// The last interval that finished since birth.
    pub last: Option<Interval>,
    /// The greatest begin since birth that an excl let pass.
    pub passed: Option<i64>,
    pub end_list: EndList,
    /// The restart that holds: never `ByDefault`.
    pub restart: Restart,
    /// What limits a play.
    pub bounds: &'a Bounds,
    /// The simple duration.
    pub simple: Time,
}

impl<'a> Model for IntervalFacts<'a> {
    ghost use Rattle.smil_model.specs.declared.interval.Facts.{Facts as AnyFacts};

    ghost Value = { AnyFacts };

    ghost view = { λ f. record {
      alive = f.alive;
      deferred = f.deferred;
      play = f.play;
      parent_start = f.parent_start;
      last = f.last;
      passed = f.passed;
      end_list = f.end_list;
      restart = f.restart;
      min = f.bounds.now.min;
      max = f.bounds.now.max;
      simple = f.simple;
      count = f.bounds.now.count;
      repeat_dur = f.bounds.now.repeat_dur;
    } };
}
