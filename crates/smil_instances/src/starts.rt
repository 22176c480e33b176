//! The time that a birth gives to an offset.

ghost use Rattle.std.specs.Prelude.{◌≡◌, Option, Some};
ghost use Rattle.smil_model.specs.declared.document.Node.{Node as AnyNode};
ghost use Rattle.smil_model.specs.document.Document.{serial_of};
ghost use Rattle.smil_model.specs.diary.Diary.{History};
ghost use Rattle.smil_instances.specs.Contribution;
ghost use Rattle.smil_model.specs.Times.{IsMoment};
ghost use Rattle.smil_instances.specs.Contribution.{AreClocksAt};

use super::carried::carried;
use smil_instance_rows::InstanceTime;
use smil_model::{Entry, Step, moved};
use smil_stretch::Clocks;

/// What an entry gives to an item with this offset from the start of the iteration of its element's
/// time parent, if it has one, in milliseconds on the time parent's clock; None exactly where it is
/// no begin or repeat of the time parent. It takes no memory.
pub fn start_time(
    clocks: &Clocks,
    entry: Entry,
    parent: Option<u32>,
    offset: i64,
) -> Option<InstanceTime>
    requires { IsMoment entry.moment }
    ensures { (h : History) (p : Option AnyNode) → AreClocksAt h clocks.now entry.moment
        → serial_of p ≡ parent → result ≡ Contribution.start_time h entry offset p }
{
    match parent {
        Some(parent) => start_time_under(clocks, entry, parent, offset),
        None => None,
    }
}

// What an entry gives to such an item, whose time parent is `parent`.
fn start_time_under(clocks: &Clocks, entry: Entry, parent: u32, offset: i64) -> Option<InstanceTime>
    requires { IsMoment entry.moment }
    ensures { (h : History) (p : AnyNode) → AreClocksAt h clocks.now entry.moment
        → p.serial ≡ parent → result ≡ Contribution.start_time h entry offset (Some p) }
{
    let time = match entry.step {
        Step::Began { who, begin } if who == parent => {
            let own = clocks.run(parent, entry.moment);
            let outer = clocks.outer(parent, entry.moment);
            carried(begin, outer, own, offset)
        }
        Step::Repeated { who, start } if who == parent => moved(start, offset),
        _ => return None,
    };
    Some(InstanceTime { place: 0, time })
}
