//! The time that an entry gives to an item for the begins or the ends of an element.

ghost use Rattle.std.specs.Prelude.{◌≡◌, ◌+ℤ◌};
ghost use Rattle.smil_model.specs.diary.Diary.{History};
ghost use Rattle.smil_model.specs.interval.Instances;
ghost use Rattle.smil_model.specs.diary.Clocks.{between};
ghost use Rattle.smil_model.specs.Times.{IsMoment, within_horizon};
ghost use Rattle.smil_instances.specs.Contribution.{AreClocksAt};

use super::carried::carried;
use super::syncbase::Syncbase;
use smil_model::{Edge, Entry, Step, Time, moved};
use smil_stretch::Clocks;

/// The time that an entry gives to an item of `who` for the begins, or for the ends and cuts, that
/// it waits for, in milliseconds on the clock of the time parent of `who`; None exactly where it is
/// none of them. It takes no memory.
pub fn edge_time(clocks: &Clocks, entry: Entry, who: u32, sync: Syncbase) -> Option<Time>
    requires { IsMoment entry.moment }
    ensures { (h : History) → AreClocksAt h clocks.now entry.moment
        → result ≡ Instances.edge_time h who sync.of sync.offset entry.moment sync.edge entry.step }
{
    let Syncbase { of, edge, offset } = sync;
    match edge {
        Edge::Begin => match entry.step {
            Step::Began { who: on, begin } if on == of => {
                Some(time_of(clocks, entry.moment, who, sync, begin))
            }
            _ => None,
        },
        Edge::End => match entry.step {
            Step::Ended { who: on, end } if on == of => {
                Some(time_of(clocks, entry.moment, who, sync, end))
            }
            Step::Cut { who: on } if on == of => {
                Some(moved(clocks.outer(who, entry.moment), offset))
            }
            _ => None,
        },
    }
}

// The time that such an item gets from a begin or an end at a value, in milliseconds on the clock of
// the time parent of the element that it waits for.
fn time_of(clocks: &Clocks, moment: i64, who: u32, sync: Syncbase, value: i64) -> Time
    requires { IsMoment moment }
    ensures { (h : History) → AreClocksAt h clocks.now moment
        → result ≡ within_horizon (between h sync.of who value moment +ℤ sync.offset) }
{
    let own = clocks.outer(who, moment);
    let other = clocks.outer(sync.of, moment);
    carried(value, other, own, sync.offset)
}
