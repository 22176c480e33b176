//! What keeps a presentation and answers orders to it.

ghost use Rattle.std.specs.Prelude.{◌≡◌, ℕ, ℤ, pos, OnOk, OnErr, IfOk, IfErr, ◌++◌, List, ◌≤◌, ◌-◌, Option, false, drop, length, slice_get};
ghost use Rattle.smil_model.specs.shown.Orders.{Formats, Presentation};
ghost use Rattle.smil_model.specs.shown.Answers.{IsGiven, Accepts, Refuses, AtLeast, AtMost, MayEvaluate};
ghost use Rattle.smil_model.specs.declared.order.Order.{Order as GivenOrder};
ghost use Rattle.smil_report.specs.Records.{as_records};
ghost use Rattle.smil_report.specs.Tellings.{Tells, is_telling};
ghost use Rattle.smil_house.specs.Next.{NothingChangesBefore, next_of};
ghost use Rattle.smil_house.specs.Screen.{screen_of, serial_in};

use super::screen::OnScreen;
use smil_interval::Steps;
use smil_model::{Bytes, Order, Refusal, Who};
use smil_report::Changes;
use std::sync::ledger::Ledger;

/// A presentation that answers orders. Its meanings are the formats in which it reads values and
/// writes its outline, its state, and, where it tells them, for an order in its state the least
/// and the greatest number of interval evaluations.
pub trait Player {
    ghost formats: { Self → Formats };

    ghost presentation: { Self → Presentation };

    ghost least_steps: { Self → GivenOrder → Option ℕ };

    ghost most_steps: { Self → GivenOrder → Option ℕ };

    /// The present moment, in milliseconds of document time.
    fn now(&self) -> i64
        ensures { result ≡ pos (presentation self.now).now };

    /// The moment at which something comes next, in milliseconds of document time, if no order
    /// comes before; None where nothing does. An advance to a moment before it changes nothing.
    fn next_due(&self) -> Option<i64>
        ensures next { result ≡ next_of (presentation self.now) }
        ensures quiet { NothingChangesBefore result (presentation self.now) };

    /// The serial of a node, by its id or its serial; None exactly where there is no such node.
    fn find(&self, who: &Who) -> Option<u32>
        ensures { result ≡ serial_in who.now (presentation self.now) };

    /// What is on the screen at the present moment of the element at a place in document order, from
    /// 0; None past the last one.
    fn on_screen(&self, index: usize) -> Option<OnScreen>
        ensures { result ≡ slice_get (screen_of (presentation self.now)) index };

    /// Answers an order: appends its text but for the `ok` line, and moves on to its new state; or
    /// gives the first refusal that holds, or `Memory`. After a refusal the presentation and the
    /// text are as before.
    ///
    /// The order's moments and lengths are from 0 to 10^12 milliseconds, its event and its key are
    /// such as a line may name, its columns are from 1, and its columns and the lengths of its
    /// texts are below 2^31.
    fn answer<L: Ledger>(
        &mut self,
        order: &Order,
        out: &mut Bytes,
        steps: &mut Steps<L>,
    ) -> Result<(), Refusal>
        requires given { IsGiven order.now }
        ensures ok { OnOk result (Accepts (formats self.old) (presentation self.old)
            (presentation self.new) order.now (drop (length out.old) out.new)) }
        ensures appended { OnOk result (out.new ≡ out.old ++ drop (length out.old) out.new) }
        ensures refused { IfErr result
            (Refuses (formats self.old) (presentation self.old) order.now) }
        ensures kept { OnErr result (presentation self.new ≡ presentation self.old) }
        ensures text { OnErr result (out.new ≡ out.old) }
        ensures formats { formats self.new ≡ formats self.old }
        ensures counted { steps.old ≤ steps.new }
        ensures least { OnOk result (AtLeast (least_steps self.old order.now)
            (steps.new - steps.old)) }
        ensures most { OnOk result
            (AtMost (most_steps self.old order.now) (steps.new - steps.old)) }
        ensures free { IfErr result (λ refusal. MayEvaluate (most_steps self.old order.now) refusal
            (steps.new - steps.old)) };

    /// Answers an order that may change something as `answer` does, but appends what it changes as
    /// records in the place of their lines.
    fn record<L: Ledger>(
        &mut self,
        order: &Order,
        out: &mut Changes,
        steps: &mut Steps<L>,
    ) -> Result<(), Refusal>
        requires given { IsGiven order.now }
        requires changes { is_telling order.now ≡ false }
        ensures ok { OnOk result (Tells as_records (formats self.old) (presentation self.old)
            (presentation self.new) order.now (drop (length out.old) out.new)) }
        ensures appended { OnOk result (out.new ≡ out.old ++ drop (length out.old) out.new) }
        ensures refused { IfErr result
            (Refuses (formats self.old) (presentation self.old) order.now) }
        ensures kept { OnErr result (presentation self.new ≡ presentation self.old) }
        ensures records { OnErr result (out.new ≡ out.old) }
        ensures formats { formats self.new ≡ formats self.old }
        ensures counted { steps.old ≤ steps.new }
        ensures least { OnOk result (AtLeast (least_steps self.old order.now)
            (steps.new - steps.old)) }
        ensures most { OnOk result
            (AtMost (most_steps self.old order.now) (steps.new - steps.old)) }
        ensures free { IfErr result (λ refusal. MayEvaluate (most_steps self.old order.now) refusal
            (steps.new - steps.old)) };
}
