//! Instance times, with those that follow from the intervals of other elements.

ghost use Rattle.std.specs.Prelude.{◌≡◌, [], ℕ, ℤ, Some, None, true, ◌||◌, if◌then◌else◌, flat_map, option_to_list, IfSome, OnOk};
ghost use Rattle.smil_model.specs.declared.document.Node.{Node as AnyNode};
ghost use Rattle.smil_model.specs.document.Document.{elements, node_at};
ghost use Rattle.smil_model.specs.diary.Clocks.{between, outer_stands};
ghost use Rattle.smil_model.specs.diary.Diary.{is_active};
ghost use Rattle.smil_model.specs.interval.Instances.{begin_times, end_times, expected_times, interval_edge};
ghost use Rattle.smil_model.specs.Rising.{IsRising};
ghost use Rattle.smil_past.specs.Syncs.{expected_by, is_empty, syncs_of};
ghost use Rattle.smil_model.specs.Times.{IsNear};
ghost use Rattle.smil_element.specs.Pouring.{with_times};
ghost use Rattle.smil_past.specs.Past.{history_of};
ghost use Rattle.smil_element.specs.Subject.{IsFound};

use super::intervals::Intervals;
use super::subject::Subject;
use smil_instance_rows::{Instant, put_in};
use smil_model::{Edge, Time, moved};
use smil_past::{Past, Syncbase};
use std::alloc::AllocError;

/// What an evaluation reads: an element at a moment, with what is found of it, and the intervals of
/// the elements.
#[derive(Drop)]
pub struct EvaluationInput<'a, 'b, J: Intervals> {
    pub subject: &'a Subject<'a>,
    pub intervals: &'b J,
}

/// The time that an item of an element gives by the interval of the element that it waits for; None
/// where that has no interval, where its begin is meant and has happened, where its end is meant
/// and is no number, and where one of the two clocks stands. It takes no memory.
#[inline(always)]
pub fn expected<J: Intervals>(reading: &EvaluationInput<J>, sync: Syncbase) -> Option<Time>
    requires { IsFound reading.now.subject.now }
    ensures { option_to_list result
        ≡ expected_times (history_of reading.now.subject.now.present.past.now)
        (J.given reading.now.intervals.now) reading.now.subject.now.present.moment
        reading.now.subject.now.present.who sync.of sync.offset sync.edge }
{
    let subject = reading.subject;
    let value = edge_value(subject.present.past, reading.intervals, sync)?;
    let shown = shown_here(subject, sync.of, value)?;
    Some(moved(shown, sync.offset))
}

// A value on the clock of the time parent of `from`, on that of the time parent of the element;
// None where one of these two clocks stands.
#[inline(always)]
fn shown_here(subject: &Subject<'_>, from: u32, value: i64) -> Option<i64>
    requires found { IsFound subject.now }
    requires near { IsNear value }
    ensures { result ≡ (if outer_stands (history_of subject.now.present.past.now)
        subject.now.present.who || outer_stands (history_of subject.now.present.past.now) from
        then None
        else Some (between (history_of subject.now.present.past.now) from
        subject.now.present.who value subject.now.present.moment)) }
{
    let own = subject.clocks;
    let other = subject
        .present
        .past
        .clocks()
        .readings(from, subject.present.moment);
    if own.outer_stands || other.outer_stands {
        return None;
    }
    Some(own.outer + (value - other.outer))
}

// The begin of an interval before it has happened, or its end where that is a number.
#[inline(always)]
fn edge_value<J: Intervals>(past: &Past, intervals: &J, sync: Syncbase) -> Option<i64>
    ensures value { result ≡ interval_edge sync.edge (is_active past.now.diary sync.of)
        (J.given intervals.now sync.of) }
    ensures near { IfSome result IsNear }
{
    let interval = intervals.interval(sync.of)?;
    match sync.edge {
        Edge::Begin => {
            if past.active(sync.of) {
                None
            } else {
                Some(interval.begin)
            }
        }
        Edge::End => match interval.end {
            Time::At(end) => Some(end),
            _ => None,
        },
    }
}

// Whether a list of at most one item that waits for another element gives no time by the interval
// of that; false of a longer one.
#[inline(always)]
pub(crate) fn gives_none<J: Intervals>(past: &Past, intervals: &J, syncs: &[Syncbase]) -> bool
    ensures { result ≡ true → (now : ℤ) (who : ℕ)
        → flat_map (expected_by (history_of past.now) (J.given intervals.now) now who) syncs.now
        ≡ [] }
{
    let Some((sync, rest)) = syncs.split_first() else {
        return true;
    };
    if !rest.is_empty() {
        return false;
    }
    edge_value(past, intervals, *sync).is_none()
}

/// The begin instance times of an element, in rising order: those that the diary gives, with the
/// expected ones in their places. Refused where memory runs out.
#[inline(always)]
pub fn pour_begins<J: Intervals>(
    reading: &EvaluationInput<J>,
    times: &mut Vec<i64>,
) -> Result<(), AllocError>
    requires { IsFound reading.now.subject.now }
    ensures { (e : AnyNode)
        → node_at (elements reading.now.subject.now.present.past.now.document.nodes)
        reading.now.subject.now.present.who ≡ Some e → OnOk result (times.new.items
        ≡ begin_times (history_of reading.now.subject.now.present.past.now)
        (J.given reading.now.intervals.now) reading.now.subject.now.present.moment e) }
{
    let subject = reading.subject;
    let past = subject.present.past;
    refill(times, past.instances().begins_at(subject.index))?;
    pour(reading, subject.row.side(Edge::Begin), times)
}

/// The end instance times of an element, in rising order: those that the diary gives, with the
/// expected ones in their places. Refused where memory runs out.
#[inline(always)]
pub fn pour_ends<J: Intervals>(
    reading: &EvaluationInput<J>,
    times: &mut Vec<Time>,
) -> Result<(), AllocError>
    requires { IsFound reading.now.subject.now }
    ensures { (e : AnyNode)
        → node_at (elements reading.now.subject.now.present.past.now.document.nodes)
        reading.now.subject.now.present.who ≡ Some e → OnOk result (times.new.items
        ≡ end_times (history_of reading.now.subject.now.present.past.now)
        (J.given reading.now.intervals.now) reading.now.subject.now.present.moment e) }
{
    let subject = reading.subject;
    let past = subject.present.past;
    refill(times, past.instances().ends_at(subject.index))?;
    pour(reading, subject.row.side(Edge::End), times)
}

/// Whether no item of a list of an element gives a time by the interval of another element, so that
/// the diary alone gives its instance times. It takes no memory.
pub fn is_settled(subject: &Subject<'_>, side: Edge) -> bool
    requires { IsFound subject.now }
    ensures { (e : AnyNode)
        → node_at (elements subject.now.present.past.now.document.nodes) subject.now.present.who
        ≡ Some e → result
        ≡ is_empty (syncs_of subject.now.present.past.now.document.nodes side e) }
{
    subject.row.side(side).is_empty()
}

// Puts values in place of those of a list; unless memory runs out.
#[inline(always)]
fn refill<T: Instant>(times: &mut Vec<T>, values: &[T]) -> Result<(), AllocError>
    ensures { OnOk result (times.new.items ≡ values.now) }
{
    times.clear();
    if values.is_empty() {
        return Ok(());
    }
    times.extend_from_slice(values)
}

// Puts the expected times of an element by what its items wait for in their places among rising
// ones.
#[inline(always)]
fn pour<T: Instant, J: Intervals>(
    reading: &EvaluationInput<J>,
    syncs: &[Syncbase],
    times: &mut Vec<T>,
) -> Result<(), AllocError>
    requires found { IsFound reading.now.subject.now }
    requires rising { IsRising T.at_most times.old.items }
    ensures { OnOk result (times.new.items
        ≡ with_times T.at_most T.choose (flat_map
        (expected_by (history_of reading.now.subject.now.present.past.now)
        (J.given reading.now.intervals.now) reading.now.subject.now.present.moment
        reading.now.subject.now.present.who) syncs.now) times.old.items) }
{
    for sync in syncs {
        put_some(times, expected(reading, *sync))?;
    }
    Ok(())
}

// Puts the value that a time gives, if there is one, in its place among rising ones.
#[inline(always)]
fn put_some<T: Instant>(times: &mut Vec<T>, time: Option<Time>) -> Result<(), AllocError>
    requires { IsRising T.at_most times.old.items }
    ensures { OnOk result (times.new.items
        ≡ with_times T.at_most T.choose (option_to_list time) times.old.items) }
{
    let Some(time) = time else {
        return Ok(());
    };
    match T::of_time(time) {
        Some(value) if times.is_empty() => {
            times.push(value)?;
            Ok(())
        }
        Some(value) => put_in(times, value),
        None => Ok(()),
    }
}
