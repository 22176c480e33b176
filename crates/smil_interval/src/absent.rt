//! The evaluation of an element that has no interval.

ghost use Rattle.std.specs.Prelude.{◌≡◌, ◌+◌, ◌&&◌, List, None, false, not, ℤ};
ghost use Rattle.smil_model.specs.declared.interval.Facts.{Facts as AnyFacts};
ghost use Rattle.smil_model.specs.declared.times.Time.{Time as AnyTime};
ghost use Rattle.smil_model.specs.interval.Intervals.{interval_of};

use super::steps::Steps;
use smil_model::Interval;
use std::sync::ledger::Ledger;

/// The interval of an element that is neither active, nor alive and not deferred: it has none. One
/// more evaluation is counted.
#[inline(always)]
pub fn evaluate_absent<L: Ledger>(steps: &mut Steps<L>) -> Option<Interval>
    ensures none { result ≡ None }
    ensures interval { (facts : AnyFacts) (begins : List ℤ) (ends : List AnyTime)
        → facts.play ≡ None → (facts.alive && not facts.deferred) ≡ false
        → result ≡ interval_of facts begins ends }
    ensures steps { steps.new ≡ steps.old + 1 }
{
    steps.tick();
    None
}
