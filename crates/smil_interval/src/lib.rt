//! SMIL's interval of one element: the first and next intervals, and that of its present play.
#![tactic(auto)]

ghost use Rattle.std.specs.Prelude.{◌≡◌, ◌↔◌, ◌+◌, ◌<◌, IsTrue};
ghost use Rattle.smil_model.specs.interval.Intervals.{interval_of, coming_interval};
ghost use Rattle.smil_interval.specs.Rising.{IsRising, IsRisingTimes};

mod absent;
pub mod end;
mod facts;
pub mod laws;
mod passing;
pub mod rising;
pub mod search;
mod steps;

pub use absent::evaluate_absent;
use end::interval_at;
pub use facts::IntervalFacts;
pub use search::{first_interval, next_interval};
pub use smil_model::EndList;
use smil_model::{Interval, Time};
use std::sync::ledger::Ledger;
pub use steps::Steps;

/// The interval of an element, in milliseconds on its time parent's clock, and one more evaluation
/// counted. It is that of the present play where the element is active, and the first or next one
/// where the element is alive and neither active nor deferred; any other element has none. `begins`
/// and `ends` are its instance times, the expected ones among them. SMIL 3.0, "Element life-cycle".
#[inline(always)]
pub fn evaluate<L: Ledger>(
    begins: &[i64],
    ends: &[Time],
    facts: &IntervalFacts<'_>,
    steps: &mut Steps<L>,
) -> Option<Interval>
    requires begins_rise { IsRising begins.now }
    requires ends_rise { IsRisingTimes ends.now }
    ensures interval { result ≡ interval_of facts.now begins.now ends.now }
    ensures steps { steps.new ≡ steps.old + 1 }
{
    steps.tick();
    current(begins, ends, facts)
}

// The interval of an element.
#[inline(always)]
fn current(begins: &[i64], ends: &[Time], facts: &IntervalFacts<'_>) -> Option<Interval>
    requires begins_rise { IsRising begins.now }
    requires ends_rise { IsRisingTimes ends.now }
    ensures { result ≡ interval_of facts.now begins.now ends.now }
{
    match facts.play {
        Some(play) => interval_at(facts, begins, ends, play.begin),
        None => {
            if facts.alive && !facts.deferred {
                coming(begins, ends, facts)
            } else {
                None
            }
        }
    }
}

// The first interval where none has finished since birth, and else the next one.
#[inline(always)]
fn coming(begins: &[i64], ends: &[Time], facts: &IntervalFacts<'_>) -> Option<Interval>
    requires begins_rise { IsRising begins.now }
    requires ends_rise { IsRisingTimes ends.now }
    ensures { result ≡ coming_interval facts.now begins.now ends.now facts.now.last }
{
    match facts.last {
        None => first_interval(begins, ends, facts),
        Some(_) => next_interval(begins, ends, facts),
    }
}

/// Whether two intervals, of which either may be absent, are the same. It takes no memory.
pub fn is_same_interval(one: Option<Interval>, other: Option<Interval>) -> bool
    ensures { IsTrue result ↔ (one ≡ other) }
{
    one == other
}
