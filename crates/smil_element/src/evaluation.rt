//! One evaluation of one element.

ghost use Rattle.std.specs.Prelude.{◌≡◌, ◌≤◌, ◌+◌, ℕ, Some, true, false, Option, is_some, IfOk, OnOk};
ghost use Rattle.smil_model.specs.declared.document.Node.{Node as AnyNode};
ghost use Rattle.smil_model.specs.declared.interval.Interval.{Interval as AnyInterval};
ghost use Rattle.smil_model.specs.document.Document.{elements, node_at, is_container_kind};
ghost use Rattle.smil_model.specs.document.Dependencies.{has_implicit_duration};
ghost use Rattle.smil_model.specs.interval.Instances.{begin_times, end_times};
ghost use Rattle.smil_model.specs.interval.Current;
ghost use Rattle.smil_model.specs.interval.Current.{container_implicit, simple_of};
ghost use Rattle.smil_past.specs.Past.{history_of};
ghost use Rattle.smil_element.specs.Element.{IsEvaluated};
ghost use Rattle.smil_element.specs.Subject.{IsFound};

use super::expected::{EvaluationInput, is_settled, pour_begins, pour_ends};
use super::facts::facts_of;
use super::intervals::{Container, Containers, Intervals};
use super::present::Present;
use super::subject::Subject;
use smil_duration::implicit_by_kind;
use smil_interval::{Steps, evaluate};
use smil_model::{ChildEnd, Edge, EndList, Interval, Kind, Time};
use std::alloc::{AllocError, Global};
use std::sync::ledger::Ledger;

/// The interval of an element and its simple duration.
#[derive(Clone, Copy)]
pub struct Evaluation {
    pub interval: Option<Interval>,
    pub simple: Time,
}

/// Room for the lists that an evaluation reads, kept between evaluations.
#[derive(Drop)]
pub struct Room {
    begins: Vec<i64>,
    ends: Vec<Time>,
    children: Vec<ChildEnd>,
}

impl Room {
    /// No room yet, which takes no memory.
    pub fn new(alloc: Global) -> Room {
        Room {
            begins: Vec::new(alloc),
            ends: Vec::new(alloc),
            children: Vec::new(alloc),
        }
    }
}

/// The interval of an element at a moment, given those of the others, and its simple duration; one
/// evaluation is counted. What is kept of the ends of its time children is right where its duration
/// is implicit. Refused where memory runs out for the lists that it reads, and then at most one is
/// counted.
pub fn evaluation_of<J: Containers, L: Ledger>(
    subject: &Subject<'_>,
    intervals: &J,
    room: &mut Room,
    steps: &mut Steps<L>,
) -> Result<Evaluation, AllocError>
    requires found { IsFound subject.now }
    requires known { (e : AnyNode)
        → node_at (elements subject.now.present.past.now.document.nodes) subject.now.present.who
        ≡ Some e → has_implicit_duration e ≡ true
        → J.knows_ends intervals.now (history_of subject.now.present.past.now)
        subject.now.present.who }
    ensures made { (e : AnyNode)
        → node_at (elements subject.now.present.past.now.document.nodes) subject.now.present.who
        ≡ Some e → IfOk result (IsEvaluated (history_of subject.now.present.past.now)
        (J.given intervals.now) subject.now.present.moment e) }
    ensures steps { OnOk result (steps.new ≡ steps.old + 1) }
    ensures most { steps.new ≤ steps.old + 1 }
    ensures counted { steps.old ≤ steps.new }
{
    let simple = simple_duration(subject, intervals, &mut room.children)?;
    let reading = EvaluationInput { subject, intervals };
    let begins = begins_of(&reading, &mut room.begins)?;
    let ends = ends_of(&reading, &mut room.ends)?;
    Ok(Evaluation {
        interval: evaluate(begins, ends, &facts_of(subject, simple), steps),
        simple,
    })
}

// The begin instance times of an element: those that the diary gives, where it alone gives them, or
// else those that the list is filled with. Refused where memory runs out.
fn begins_of<'a, J: Intervals>(
    reading: &EvaluationInput<'a, '_, J>,
    times: &'a mut Vec<i64>,
) -> Result<&'a [i64], AllocError>
    requires { IsFound reading.now.subject.now }
    ensures { (e : AnyNode)
        → node_at (elements reading.now.subject.now.present.past.now.document.nodes)
        reading.now.subject.now.present.who ≡ Some e
        → IfOk result (λ begins. begins.now
        ≡ begin_times (history_of reading.now.subject.now.present.past.now)
        (J.given reading.now.intervals.now) reading.now.subject.now.present.moment e) }
{
    if is_settled(reading.subject, Edge::Begin) {
        let subject = reading.subject;
        return Ok(subject.present.past.instances().begins_at(subject.index));
    }
    pour_begins(reading, times)?;
    Ok(times)
}

// Whether an element has an end list.
#[inline(always)]
fn has_end_list(subject: &Subject<'_>) -> bool
    requires { IsFound subject.now }
    ensures { (e : AnyNode)
        → node_at (elements subject.now.present.past.now.document.nodes) subject.now.present.who
        ≡ Some e → result ≡ is_some e.attrs.«end» }
{
    match subject.row.makeup().end_list {
        EndList::Absent => false,
        _ => true,
    }
}

// The end instance times of an element: none without an end list; those that the diary gives, where
// it alone gives them; or else those that the list is filled with. Refused where memory runs out.
fn ends_of<'a, J: Intervals>(
    reading: &EvaluationInput<'a, '_, J>,
    times: &'a mut Vec<Time>,
) -> Result<&'a [Time], AllocError>
    requires { IsFound reading.now.subject.now }
    ensures { (e : AnyNode)
        → node_at (elements reading.now.subject.now.present.past.now.document.nodes)
        reading.now.subject.now.present.who ≡ Some e
        → IfOk result (λ ends. ends.now
        ≡ end_times (history_of reading.now.subject.now.present.past.now)
        (J.given reading.now.intervals.now) reading.now.subject.now.present.moment e) }
{
    let subject = reading.subject;
    if !has_end_list(subject) {
        return Ok(&[]);
    }
    if is_settled(subject, Edge::End) {
        return Ok(subject.present.past.instances().ends_at(subject.index));
    }
    pour_ends(reading, times)?;
    Ok(times)
}

// The simple duration of an element, given the intervals of its time children.
fn simple_duration<J: Containers>(
    subject: &Subject<'_>,
    intervals: &J,
    children: &mut Vec<ChildEnd>,
) -> Result<Time, AllocError>
    requires found { IsFound subject.now }
    requires known { (e : AnyNode)
        → node_at (elements subject.now.present.past.now.document.nodes) subject.now.present.who
        ≡ Some e → has_implicit_duration e ≡ true
        → J.knows_ends intervals.now (history_of subject.now.present.past.now)
        subject.now.present.who }
    ensures { (e : AnyNode)
        → node_at (elements subject.now.present.past.now.document.nodes) subject.now.present.who
        ≡ Some e → IfOk result (λ simple. simple
        ≡ simple_of (history_of subject.now.present.past.now) (J.given intervals.now) e) }
{
    match subject.row.makeup().simple {
        Some(simple) => Ok(simple),
        None => implicit_duration(subject, intervals, children),
    }
}

// The implicit duration of an element: by its kind, or what the time children of a container tell,
// or the length of continuous media that the diary tells.
fn implicit_duration<J: Containers>(
    subject: &Subject<'_>,
    intervals: &J,
    children: &mut Vec<ChildEnd>,
) -> Result<Time, AllocError>
    requires found { IsFound subject.now }
    requires known { J.knows_ends intervals.now (history_of subject.now.present.past.now)
        subject.now.present.who }
    ensures { (e : AnyNode)
        → node_at (elements subject.now.present.past.now.document.nodes) subject.now.present.who
        ≡ Some e → IfOk result (λ implicit. implicit
        ≡ Current.implicit_duration (history_of subject.now.present.past.now)
        (J.given intervals.now) e) }
{
    let kind = subject.row.makeup().kind;
    if is_container(kind) {
        container_duration(subject, intervals, children)
    } else {
        Ok(media_duration(subject, kind))
    }
}

// Whether an element of this kind is a container.
fn is_container(kind: Kind) -> bool
    ensures { result ≡ is_container_kind kind }
{
    matches!(kind, Kind::Par | Kind::Seq | Kind::Excl)
}

// The implicit duration of an element of this kind that is no container. It takes no memory.
fn media_duration(subject: &Subject<'_>, kind: Kind) -> Time
    requires { IsFound subject.now }
    ensures { (e : AnyNode)
        → node_at (elements subject.now.present.past.now.document.nodes) subject.now.present.who
        ≡ Some e → (intervals : ℕ → Option AnyInterval) → is_container_kind kind ≡ false
        → result
        ≡ Current.implicit_of (history_of subject.now.present.past.now) intervals e kind }
{
    match implicit_by_kind(kind) {
        Some(length) => length,
        None => subject.played.length,
    }
}

// The implicit duration of a container, unresolved while it is not active.
fn container_duration<J: Containers>(
    subject: &Subject<'_>,
    intervals: &J,
    children: &mut Vec<ChildEnd>,
) -> Result<Time, AllocError>
    requires found { IsFound subject.now }
    requires known { J.knows_ends intervals.now (history_of subject.now.present.past.now)
        subject.now.present.who }
    ensures { (e : AnyNode)
        → node_at (elements subject.now.present.past.now.document.nodes) subject.now.present.who
        ≡ Some e → IfOk result (λ implicit. implicit
        ≡ container_implicit (history_of subject.now.present.past.now) (J.given intervals.now)
        e) }
{
    let Present { past, who, .. } = subject.present;
    past.possible();
    let played = subject.played;
    if played.begun.is_none() {
        return Ok(Time::Unresolved);
    }
    let start = played.start;
    intervals.implicit(&Container { past, who, start }, children)
}
