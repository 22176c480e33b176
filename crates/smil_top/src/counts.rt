//! What is counted of a session.

ghost use Rattle.std.specs.Prelude.{◌≡◌, ◌↔◌, min, nat_lt, IsTrue};
ghost use Rattle.smil_outside.specs.Faults.{last_count};
ghost use Rattle.smil_top.specs.Running.{AreExact, text_of, uncounted, with_order, without_lines};
ghost use Rattle.smil_top.specs.Serving.{status_by};
ghost use Rattle.smil_top.specs.Summary.{line_count};

use super::answer::Answer;
use super::fault::Fault;
use super::status::Status;
use smil_model::Refusal;

/// As many lines as are no longer counted.
pub(crate) const UNCOUNTED: u64 = u64::MAX;

/// How many orders were answered, how many of them were refused for a fault, how many lines the
/// answers have, where that is asked for, and whether an order was refused since memory ran out.
/// Each count stands still at the greatest number.
#[derive(Clone, Copy, Drop)]
pub(crate) struct Counts {
    pub orders: u64,
    pub refused: u64,
    pub lines: u64,
    pub memory: bool,
}

impl Counts {
    /// Before the first order.
    pub fn new() -> Counts
        ensures { result ≡ uncounted }
    {
        Counts {
            orders: 0,
            refused: 0,
            lines: 0,
            memory: false,
        }
    }

    /// Before the first order of a session whose lines are not counted: their count stands at the
    /// greatest number.
    pub fn without_lines() -> Counts
        ensures { result ≡ without_lines }
    {
        Counts {
            orders: 0,
            refused: 0,
            lines: UNCOUNTED,
            memory: false,
        }
    }

    /// One more order, whose answer has so many lines.
    pub fn count(&mut self, answered: &Result<(), Fault>, lines: u64)
        ensures { self.new ≡ with_order answered.now lines self.old }
    {
        self.orders = self.orders.saturating_add(1);
        self.lines = self.lines.saturating_add(lines);
        if let Err(fault) = answered {
            if fault.refusal == Refusal::Memory {
                self.memory = true;
            } else {
                self.refused = self.refused.saturating_add(1);
            }
        }
    }

    /// One more order, with its answer, whose lines are looked at only where they are counted.
    pub fn count_answer(&mut self, answered: &Result<(), Fault>, answer: &Answer)
        ensures { self.new ≡ with_order answered.now
            (min (line_count (text_of answer.now)) last_count) self.old }
    {
        if self.lines < UNCOUNTED {
            self.count(answered, answer.lines());
        } else {
            self.count(answered, UNCOUNTED);
        }
    }

    /// Whether no count stands at the greatest number.
    pub fn are_exact(&self) -> bool
        ensures { IsTrue result ↔ AreExact self.now }
    {
        self.orders < u64::MAX && self.refused < u64::MAX && self.lines < u64::MAX
    }

    /// The status once the whole input was answered.
    pub fn status(&self) -> Status
        ensures { result ≡ status_by (nat_lt 0 self.now.refused) self.now.memory }
    {
        if self.memory {
            Status::Memory
        } else if self.refused > 0 {
            Status::Refused
        } else {
            Status::Clean
        }
    }
}
