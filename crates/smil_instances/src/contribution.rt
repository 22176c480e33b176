//! The time that an entry gives to an item.

ghost use Rattle.std.specs.Prelude.{◌≡◌, ◌&&◌, true, Some};
ghost use Rattle.smil_model.specs.declared.diary.Entry.{Entry as AnyEntry};
ghost use Rattle.smil_model.specs.declared.document.Node.{Node as AnyNode};
ghost use Rattle.smil_model.specs.document.Document.{elements, node_at};
ghost use Rattle.smil_model.specs.diary.Diary.{History};
ghost use Rattle.smil_model.specs.diary.Lawful.{has_element};
ghost use Rattle.smil_model.specs.interval.Instances as instances;
ghost use Rattle.smil_instance_rows.specs.Rows.{at_place as placed};
ghost use Rattle.smil_instances.specs.Sources.{source_of};
ghost use Rattle.smil_instances.specs.Contribution.{given_at};
ghost use Rattle.smil_instances.specs.Entry.{HasArrived, IsArrivalOf};
ghost use Rattle.smil_instances.specs.Occurrence.{occurs_in, target_of};
ghost use Rattle.smil_instances.specs.Contribution;
ghost use Rattle.smil_instances.specs.Contribution.{given_heard};

use super::arrival::Arrival;
use super::edge_times::edge_time;
use super::items::ListItem;
use super::occurrence::occurs;
use super::sensitivity::hears;
use super::source::Source;
use super::starts::start_time;
use super::syncbase::Syncbase;
use smil_instance_rows::InstanceTime;
use smil_model::{Item, Time, moved};

/// What the last entry of the book gives to an item of a begin or end list, by the clocks before
/// that entry: a time in milliseconds on the clock of the time parent of the item's element, kept
/// at the place of the entry, or at place 0 for an offset from the start of the time parent's
/// iteration. None exactly where it gives nothing. It takes no memory.
///
/// `source` is what the times of the item follow from. From a start, a begin or a repeat of the
/// time parent gives a time; from a syncbase, a begin, or an end or cut, of the element that the
/// item refers to; from an eventbase, an occurrence of the event that the item's element hears;
/// from a key, a press of it that this element hears.
pub fn given(arrival: &Arrival<'_>, own: &ListItem<'_>, source: Source) -> Option<InstanceTime>
    requires hand { HasArrived arrival.now }
    requires element { has_element arrival.now.history.tree.now.nodes own.now.who ≡ true }
    requires source { source
        ≡ source_of arrival.now.history.tree.now.nodes own.now.who own.now.item.now }
    ensures { (h : History) (y : AnyEntry) (e : AnyNode) → IsArrivalOf h y arrival.now
        → node_at (elements h.nodes) own.now.who ≡ Some e
        → result ≡ given_at h y e own.now.side own.now.item.now }
{
    let entry = arrival.last_entry();
    let offset = offset_of(own.item);
    match source {
        Source::Start => {
            let parent = arrival.history.tree.time_parent(own.who);
            start_time(arrival.clocks, entry, parent, offset)
        }
        Source::Syncbase { of, edge } => {
            let sync = Syncbase { of, edge, offset };
            let time = edge_time(arrival.clocks, entry, own.who, sync);
            at_place(arrival.place(), time)
        }
        Source::Eventbase { of } => heard(arrival, own, Some(of)),
        Source::Key { .. } => heard(arrival, own, None),
        Source::Nothing => None,
    }
}

// What the last entry of the book gives to an event, repeat or accesskey item, which means the
// element `of`.
fn heard(arrival: &Arrival<'_>, own: &ListItem<'_>, of: Option<u32>) -> Option<InstanceTime>
    requires hand { HasArrived arrival.now }
    requires element { has_element arrival.now.history.tree.now.nodes own.now.who ≡ true }
    requires means { of
        ≡ target_of arrival.now.history.tree.now.nodes own.now.who own.now.item.now }
    ensures { (h : History) (y : AnyEntry) (e : AnyNode) → IsArrivalOf h y arrival.now
        → node_at (elements h.nodes) own.now.who ≡ Some e
        → result ≡ given_heard h y e own.now.side own.now.item.now of }
{
    if !is_heard(arrival, own, of) {
        return None;
    }
    let place = arrival.place();
    let entry = arrival.last_entry();
    let outer = arrival.clocks.outer(own.who, entry.moment);
    let time = moved(outer, offset_of(own.item));
    Some(InstanceTime { place, time })
}

// Whether the last entry of the book is what an event, repeat or accesskey item, which means the
// element `of`, waits for, and the item's element hears it.
fn is_heard(arrival: &Arrival<'_>, own: &ListItem<'_>, of: Option<u32>) -> bool
    requires hand { HasArrived arrival.now }
    requires element { has_element arrival.now.history.tree.now.nodes own.now.who ≡ true }
    requires means { of
        ≡ target_of arrival.now.history.tree.now.nodes own.now.who own.now.item.now }
    ensures { (h : History) (y : AnyEntry) (e : AnyNode) → IsArrivalOf h y arrival.now
        → node_at (elements h.nodes) own.now.who ≡ Some e
        → result ≡ (occurs_in h y of own.now.item.now
        && instances.hears h e own.now.side own.now.item.now) }
{
    occurs(arrival, of, own.item) && hears(arrival, own, of)
}

// A time, if there is one, with the place of the entry that gives it.
fn at_place(place: usize, time: Option<Time>) -> Option<InstanceTime>
    ensures { result ≡ placed place time }
{
    Some(InstanceTime { place, time: time? })
}

// The milliseconds by which an item is moved; 0 for `indefinite`.
fn offset_of(item: &Item) -> i64
    ensures { result ≡ Contribution.offset_of item.now }
{
    match item {
        Item::Offset { offset }
        | Item::Sync { offset, .. }
        | Item::Event { offset, .. }
        | Item::Repeat { offset, .. }
        | Item::Key { offset, .. } => *offset,
        Item::Indefinite => 0,
    }
}
