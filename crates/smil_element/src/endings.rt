//! When elements end for their containers, and when a container's time children end.

ghost use Rattle.std.specs.Prelude.{◌≡◌, ◌↔◌, IsTrue, ℕ, ℤ, Some, true, map, option_map, slice_get, IfOk, OnOk, if◌then◌else◌};
ghost use Rattle.smil_model.specs.declared.document.Endsync.{Endsync as AnyEndsync};
ghost use Rattle.smil_model.specs.declared.document.Node.{Node as AnyNode};
ghost use Rattle.smil_model.specs.declared.interval.Interval.{Interval as AnyInterval};
ghost use Rattle.smil_model.specs.declared.times.Time.TheVariants as time;
ghost use Rattle.smil_model.specs.document.Document.{elements, node_at, serial_of, time_children, time_parent};
ghost use Rattle.smil_model.specs.document.Defaults.{endsync_of};
ghost use Rattle.smil_model.specs.diary.Lawful.{has_element};
ghost use Rattle.smil_model.specs.interval.Current.{child_end, is_named_child};
ghost use Rattle.smil_model.specs.interval.Durations.{container_duration};
ghost use Rattle.smil_past.specs.declared.plays.facts.PastInterval.{PastInterval as AnyPast};
ghost use Rattle.smil_model.specs.diary.Diary.{History};
ghost use Rattle.smil_past.specs.Past.{history_of};
ghost use Rattle.smil_past.specs.Played.{played as kept_of};
ghost use Rattle.smil_instance_rows.specs.Places.{last_alone};
ghost use Rattle.smil_element.specs.Endings.{ending_by};

use super::facts::{attrs_of, kind_of, played_of};
use super::intervals::{Container, Intervals};
use smil_endsync::{by_endsync, implicit};
use smil_model::{Attrs, ChildEnd, Endsync, Interval, Kind, Time};
use smil_past::{Past, PastInterval, PlayFacts};
use std::alloc::AllocError;

/// The first and the latest end of an element since its container's iteration began, in
/// milliseconds on the container's clock, as the container takes them.
#[derive(Clone, Copy)]
pub struct Ending {
    pub first: Option<Time>,
    pub latest: Option<Time>,
}

/// Whether two endings are the same. It takes no memory.
pub fn is_same_ending(one: Ending, other: Ending) -> bool
    ensures { IsTrue result ↔ (one ≡ other) }
{
    is_same_time(one.first, other.first) && is_same_time(one.latest, other.latest)
}

// Whether two times, of which either may be absent, are the same.
fn is_same_time(one: Option<Time>, other: Option<Time>) -> bool
    ensures { IsTrue result ↔ (one ≡ other) }
{
    one == other
}

/// The first and the latest end of an element that has this interval. It takes no memory.
pub fn ending_of(past: &Past, who: u32, interval: Option<Interval>) -> Ending
    requires { has_element past.now.document.nodes who ≡ true }
    ensures { result ≡ ending_by (history_of past.now) interval who }
{
    ending_from(played_of(past, who), interval)
}

/// The first and the latest end of the element with this index among the elements in document
/// order, from 0, that has this interval. It takes no look-up, and no memory.
pub fn ending_at(past: &Past, who: u32, index: usize, interval: Option<Interval>) -> Ending
    requires element { has_element past.now.document.nodes who ≡ true }
    requires index { slice_get (elements past.now.document.nodes) index
        ≡ node_at (elements past.now.document.nodes) who }
    ensures { result ≡ ending_by (history_of past.now) interval who }
{
    ending_from(past.plays().at(index), interval)
}

// The first and the latest end of an element that has this interval, by what is kept of its plays.
#[inline(always)]
fn ending_from(played: &PlayFacts, interval: Option<Interval>) -> Ending
    ensures { (h : History) (who : ℕ) → played.now ≡ kept_of h who
        → result ≡ ending_by h interval who }
{
    let coming = coming_end(interval);
    let deferred = played.shown_deferred.is_some();
    Ending {
        first: finish_of(played.first_finished).or(coming),
        latest: coming.or(latest_of(deferred, finish_of(played.last_finished))),
    }
}

/// The implicit duration of an active container, in milliseconds on its own clock, by a walk over
/// its time children. It takes a step for each time child, in a seq for the last one alone, and
/// memory for a list of their ends; refused where that runs out.
pub fn walked_duration<J: Intervals>(
    container: &Container<'_>,
    intervals: &J,
    children: &mut Vec<ChildEnd>,
) -> Result<Time, AllocError>
    requires { has_element container.now.past.now.document.nodes container.now.who ≡ true }
    ensures { (e : AnyNode)
        → node_at (elements container.now.past.now.document.nodes) container.now.who ≡ Some e
        → IfOk result (λ implicit. implicit
        ≡ container_duration e.kind (endsync_of e.attrs) container.now.start
        (map (child_end (history_of container.now.past.now) (J.given intervals.now) e)
        (time_children container.now.past.now.document.nodes container.now.who))) }
{
    let past = container.past;
    let who = container.who;
    let start = container.start;
    deciding_ends(past, intervals, who, children)?;
    let kind = kind_of(past, who);
    let ends = children.as_slice();
    Ok(by_endsync(attrs_of(past, who), |endsync| {
        implicit(kind, endsync, start, ends)
    }))
}

// The ends of those time children of a container by which its implicit duration is told: in a seq
// that of the last one alone.
fn deciding_ends<J: Intervals>(
    past: &Past,
    intervals: &J,
    who: u32,
    children: &mut Vec<ChildEnd>,
) -> Result<(), AllocError>
    requires { has_element past.now.document.nodes who ≡ true }
    ensures { (e : AnyNode) (endsync : AnyEndsync) (start : ℤ)
        → node_at (elements past.now.document.nodes) who ≡ Some e
        → OnOk result (container_duration e.kind endsync start children.new.items
        ≡ container_duration e.kind endsync start
        (map (child_end (history_of past.now) (J.given intervals.now) e)
        (time_children past.now.document.nodes who))) }
{
    match kind_of(past, who) {
        Kind::Seq => last_end(past, intervals, who, children),
        _ => children_ends(past, intervals, who, children),
    }
}

// The end of the last time child of a container, if it has one.
fn last_end<J: Intervals>(
    past: &Past,
    intervals: &J,
    who: u32,
    children: &mut Vec<ChildEnd>,
) -> Result<(), AllocError>
    requires { has_element past.now.document.nodes who ≡ true }
    ensures { (e : AnyNode) → node_at (elements past.now.document.nodes) who ≡ Some e
        → OnOk result (children.new.items
        ≡ map (child_end (history_of past.now) (J.given intervals.now) e)
        (last_alone (time_children past.now.document.nodes who))) }
{
    past.possible();
    children.clear();
    if let Some(child) = past.tree().time_children(who).last() {
        children.push(end_of_child(past, intervals, who, *child))?;
    }
    Ok(())
}

// The ends of the time children of a container, in document order.
fn children_ends<J: Intervals>(
    past: &Past,
    intervals: &J,
    who: u32,
    children: &mut Vec<ChildEnd>,
) -> Result<(), AllocError>
    requires { has_element past.now.document.nodes who ≡ true }
    ensures { (e : AnyNode) → node_at (elements past.now.document.nodes) who ≡ Some e
        → OnOk result (children.new.items
        ≡ map (child_end (history_of past.now) (J.given intervals.now) e)
        (time_children past.now.document.nodes who)) }
{
    past.possible();
    children.clear();
    for child in past.tree().time_children(who) {
        children.push(end_of_child(past, intervals, who, *child))?;
    }
    Ok(())
}

// The first and the latest end of a time child of a container. It takes no memory.
fn end_of_child<J: Intervals>(past: &Past, intervals: &J, who: u32, child: u32) -> ChildEnd
    requires container { has_element past.now.document.nodes who ≡ true }
    requires child { has_element past.now.document.nodes child ≡ true }
    ensures { (e c : AnyNode) → node_at (elements past.now.document.nodes) who ≡ Some e
        → node_at (elements past.now.document.nodes) child ≡ Some c
        → serial_of (time_parent past.now.document.nodes child) ≡ Some who → result
        ≡ child_end (history_of past.now) (J.given intervals.now) e c }
{
    let ending = ending_of(past, child, intervals.interval(child));
    ChildEnd {
        named: is_named(attrs_of(past, who), attrs_of(past, child)),
        first: ending.first,
        latest: ending.latest,
    }
}

// The end of an interval.
fn coming_end(interval: Option<Interval>) -> Option<Time>
    ensures { result ≡ option_map (λ (i : AnyInterval). i.«end») interval }
{
    match interval {
        Some(interval) => Some(interval.end),
        None => None,
    }
}

// The finish of a past interval.
fn finish_of(past: Option<PastInterval>) -> Option<Time>
    ensures { result ≡ option_map (λ (f : AnyPast). time.At f.finish) past }
{
    match past {
        Some(past) => Some(Time::At(past.finish)),
        None => None,
    }
}

// The latest end that has happened, and unresolved while the element is deferred.
fn latest_of(deferred: bool, last: Option<Time>) -> Option<Time>
    ensures { result ≡ (if deferred then Some time.Unresolved else last) }
{
    if deferred {
        Some(Time::Unresolved)
    } else {
        last
    }
}

/// Whether the endsync of a container names a child. It takes no memory.
pub fn is_named(container: &Attrs, child: &Attrs) -> bool
    ensures { (c : AnyNode) → c.attrs ≡ child.now
        → result ≡ is_named_child container.now.endsync c }
{
    match (&container.endsync, &child.id) {
        (Some(Endsync::Child(named)), Some(id)) => id.slice() == named.slice(),
        _ => false,
    }
}
