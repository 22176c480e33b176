//! What an evaluation of an element gives.

ghost use Rattle.std.specs.Prelude.{◌≡◌, ◌≤◌, ◌+◌, Some, None, true, false, not, ◌&&◌, slice_get, IfOk, IfSome, OnOk};
ghost use Rattle.smil_model.specs.declared.document.Node.{Node as AnyNode};
ghost use Rattle.smil_model.specs.document.Document.{elements, node_at, time_parent};
ghost use Rattle.smil_model.specs.document.Dependencies.{has_implicit_duration};
ghost use Rattle.smil_model.specs.diary.Diary.{is_active, is_alive as lives, is_deferred, lives_under};
ghost use Rattle.smil_model.specs.diary.Lawful.{has_element};
ghost use Rattle.smil_model.specs.interval.Current.{interval_given};
ghost use Rattle.smil_laws.specs.Near.{IsIntervalNear};
ghost use Rattle.smil_past.specs.Past.{IsPresent, history_of};
ghost use Rattle.smil_element.specs.Element.{IsOutcome};

use super::comings::{DueChanges, comings_of};
use super::evaluation::{Room, evaluation_of};
use super::intervals::{Containers, Intervals};
use super::present::Present;
use super::spent::is_spent;
use super::subject::{parent_play, subject_under};
use smil_interval::{Steps, evaluate_absent};
use smil_model::Interval;
use std::alloc::AllocError;
use std::sync::ledger::Ledger;

/// The interval of an element, and what comes of it.
#[derive(Clone, Copy)]
pub struct Outcome {
    pub interval: Option<Interval>,
    pub comings: DueChanges,
}

/// The interval of an element at a moment, given those of the others, and what comes of it; one
/// evaluation is counted. `place` is its place among the elements in document order, from 0. What
/// is kept of the ends of its time children is right where its duration is implicit. Refused where
/// memory runs out for the lists that it reads, and then at most one is counted. Of an element that
/// is neither active nor may begin nothing is read but its plays and its time parent's; of one that
/// has had its last interval only its begins besides, where at most one item of its begin list
/// waits for another element.
#[inline(always)]
pub fn outcome_of<J: Containers, L: Ledger>(
    present: &Present<'_>,
    place: u32,
    intervals: &J,
    room: &mut Room,
    steps: &mut Steps<L>,
) -> Result<Outcome, AllocError>
    requires element { has_element present.now.past.now.document.nodes present.now.who ≡ true }
    requires place { slice_get (elements present.now.past.now.document.nodes) place
        ≡ node_at (elements present.now.past.now.document.nodes) present.now.who }
    requires moment { IsPresent present.now.past.now present.now.moment }
    requires known { (e : AnyNode)
        → node_at (elements present.now.past.now.document.nodes) present.now.who ≡ Some e
        → has_implicit_duration e ≡ true
        → J.knows_ends intervals.now (history_of present.now.past.now) present.now.who }
    ensures made { (e : AnyNode)
        → node_at (elements present.now.past.now.document.nodes) present.now.who ≡ Some e
        → IfOk result (IsOutcome (history_of present.now.past.now) (J.given intervals.now)
        present.now.moment place e) }
    ensures near { IfOk result (λ made. IfSome made.interval IsIntervalNear) }
    ensures steps { OnOk result (steps.new ≡ steps.old + 1) }
    ensures most { steps.new ≤ steps.old + 1 }
    ensures counted { steps.old ≤ steps.new }
{
    present.past.possible();
    let index = place as usize;
    let above = parent_play(present.past, present.who, index);
    if has_none(present, index, above.alive, intervals) {
        return Ok(Outcome {
            interval: evaluate_absent(steps),
            comings: DueChanges::nothing(place, present.who),
        });
    }
    let subject = subject_under(present, index, above);
    let made = evaluation_of(&subject, intervals, room, steps)?;
    Ok(Outcome {
        interval: made.interval,
        comings: comings_of(&subject, place, &made),
    })
}

// Whether an element has no interval, as is told before its begins are listed: it is neither active
// nor may begin, or it has had its last interval.
#[inline(always)]
fn has_none<J: Intervals>(present: &Present<'_>, index: usize, alive: bool, intervals: &J) -> bool
    requires element { has_element present.now.past.now.document.nodes present.now.who ≡ true }
    requires index { slice_get (elements present.now.past.now.document.nodes) index
        ≡ node_at (elements present.now.past.now.document.nodes) present.now.who }
    requires alive { alive ≡ lives_under
        (time_parent present.now.past.now.document.nodes present.now.who)
        present.now.past.now.diary }
    ensures idle { result ≡ true
        → is_active (history_of present.now.past.now).diary present.now.who ≡ false }
    ensures none { result ≡ true → (e : AnyNode)
        → node_at (elements present.now.past.now.document.nodes) present.now.who ≡ Some e
        → interval_given (history_of present.now.past.now) (J.given intervals.now)
        present.now.moment e ≡ None }
{
    if is_out(present, index, alive) {
        return true;
    }
    is_spent(present, index, intervals)
}

// Whether an element is neither active nor may begin: its time parent isn't active, or an excl has
// deferred it. `alive` is whether its time parent is active, or there is none.
#[inline(always)]
fn is_out(present: &Present<'_>, index: usize, alive: bool) -> bool
    requires element { has_element present.now.past.now.document.nodes present.now.who ≡ true }
    requires index { slice_get (elements present.now.past.now.document.nodes) index
        ≡ node_at (elements present.now.past.now.document.nodes) present.now.who }
    requires alive { alive ≡ lives_under
        (time_parent present.now.past.now.document.nodes present.now.who)
        present.now.past.now.diary }
    ensures idle { result ≡ true
        → is_active (history_of present.now.past.now).diary present.now.who ≡ false }
    ensures out { result ≡ true → (lives (history_of present.now.past.now) present.now.who
        && not (is_deferred (history_of present.now.past.now) present.now.who)) ≡ false }
{
    let past = present.past;
    past.possible();
    let played = past.plays().at(index);
    if played.begun.is_some() {
        return false;
    }
    if played.shown_deferred.is_some() {
        return true;
    }
    !alive
}
