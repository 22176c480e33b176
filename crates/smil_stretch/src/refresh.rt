//! How clocks turn where a pause begins or ends.

ghost use Rattle.std.specs.Prelude.{◌≡◌, ◌||◌, List, not};
ghost use Rattle.smil_diary.specs.Places.{is_from};
ghost use Rattle.smil_stretch.specs.declared.clock.NodeClock.{NodeClock as AnyClock};
ghost use Rattle.smil_model.specs.Times.{IsMoment};
ghost use Rattle.smil_stretch.specs.NodeClocks.{AllFit, IsTurned, at_place, stands_by};

use super::clock::{NodeClock, stands_by};

/// Turns the clocks of the node at the place `first` and of those below it, which stand directly
/// behind it, after the pause of that node began or ended at this moment.
pub(crate) fn refresh(clocks: &mut [NodeClock], first: usize, moment: i64)
    requires fit { AllFit clocks.old }
    requires moment { IsMoment moment }
    ensures { (after : List AnyClock) → IsTurned first moment clocks.old after
        → clocks.new ≡ after }
{
    for place in first..clocks.len() {
        let node = clocks[place];
        if first < place && is_outside(first, node.parent_place()) {
            return;
        }
        let stands = is_held(clocks, node);
        clocks[place].clock = node.clock.turned(stands, moment);
    }
}

// Whether a time parent stands before the place `first`, or is absent.
fn is_outside(first: usize, parent: Option<usize>) -> bool
    ensures { result ≡ not (is_from first parent) }
{
    match parent {
        Some(parent) => parent < first,
        None => true,
    }
}

// Whether a node is paused or the clock of its time parent stands.
fn is_held(clocks: &[NodeClock], node: NodeClock) -> bool
    ensures { result ≡ (node.paused || stands_by (at_place clocks.now node.parent)) }
{
    node.paused || stands_at(clocks, node.parent_place())
}

// Whether the clock of a time parent stands; where there is none, it is document time, which runs.
fn stands_at(clocks: &[NodeClock], parent: Option<usize>) -> bool
    ensures { result ≡ stands_by (at_place clocks.now parent) }
{
    match parent {
        Some(parent) => stands_by(clocks.get(parent).copied()),
        None => false,
    }
}
