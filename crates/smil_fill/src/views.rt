//! The view of an element.

ghost use Rattle.std.specs.Prelude.{◌≡◌, None, Some, is_some, false, true};
ghost use Rattle.smil_model.specs.declared.interval.Interval.{Interval as AnyInterval};
ghost use Rattle.smil_model.specs.declared.times.Time.TheVariants as time;
ghost use Rattle.smil_model.specs.declared.view.Shown.TheVariants as shown;
ghost use Rattle.smil_model.specs.declared.view.State.TheVariants as state;
ghost use Rattle.smil_model.specs.declared.view.ViewFacts.{ViewFacts as AnyFacts};
ghost use Rattle.smil_model.specs.shown.Views.{shown_time, shown_or, view_by};
ghost use Rattle.smil_fill.specs.Current;
ghost use Rattle.smil_fill.specs.Current.{AreCurrent, HasTimesWithin, last_begin, last_end};
ghost use Rattle.smil_fill.specs.Numbers.{IsTimeCarried, HasNumbersWithin};

use super::states::{is_frozen, playing_state};
use smil_model::{Interval, Shown, State, Time, View, ViewFacts};

/// What the view of any element follows from, among its facts: its current interval and how times
/// are carried from the time parent's clock, on which that is, to document time.
#[derive(Clone, Copy)]
pub struct CurrentFacts {
    pub serial: u32,
    pub interval: Option<Interval>,
    /// Whether the time parent's clock stands.
    pub standing: bool,
    /// Document time less the time parent's clock, at the present moment.
    pub shift: i64,
    pub iteration: u32,
    pub finished: u32,
}

/// The view of an element by its facts, whose times are from -10^13 to 10^13 milliseconds. The
/// times of the view are in milliseconds of document time.
///
/// The state is the first that applies: paused, active, deferred, frozen, waiting, done, idle.
/// Frozen needs a finished interval, and either a fill that keeps it, or that this interval was cut
/// and the time parent is frozen. SMIL 3.0, "The fill attribute".
pub fn view(facts: &ViewFacts) -> View
    requires { HasNumbersWithin facts.now }
    ensures { result ≡ view_by facts.now }
{
    let current = current_facts(facts);
    if facts.active {
        return active_view(&current, facts.paused, facts.begun);
    }
    match facts.deferred {
        Some(begin) => view_in(&current, State::Deferred, Shown::At(begin), Shown::Nothing),
        None => match facts.last {
            Some((begin, end)) => played_view(facts, &current, Shown::At(begin), Shown::At(end)),
            None => unplayed_view(&current),
        },
    }
}

/// The view of an active element: whether it is paused, and the begin of its present play in
/// document time. The times among its facts are from -10^13 to 10^13 milliseconds.
#[inline(always)]
pub fn active_view(current: &CurrentFacts, paused: bool, begun: Option<i64>) -> View
    requires { HasTimesWithin current.now }
    ensures { (f : AnyFacts) → AreCurrent current.now f → f.active ≡ true → f.paused ≡ paused
        → f.begun ≡ begun → result ≡ view_by f }
{
    view_in(
        current,
        playing_state(paused),
        settled(begun),
        present_end(current),
    )
}

/// The view of an element that is neither active nor deferred, and of which no interval has
/// finished since birth. The times among its facts are from -10^13 to 10^13 milliseconds.
#[inline(always)]
pub fn unplayed_view(current: &CurrentFacts) -> View
    requires { HasTimesWithin current.now }
    ensures { (f : AnyFacts) → AreCurrent current.now f → f.active ≡ false
        → is_some f.deferred ≡ false → f.last ≡ None → result ≡ view_by f }
{
    match current.interval {
        Some(interval) => waiting_view(current, interval),
        None => view_in(current, State::Idle, Shown::Nothing, Shown::Nothing),
    }
}

// The view of an element that is neither active nor deferred, by its last finished interval, which
// is shown from `begin` to `end`.
fn played_view(facts: &ViewFacts, current: &CurrentFacts, begin: Shown, end: Shown) -> View
    requires current { AreCurrent current.now facts.now }
    requires times { HasTimesWithin current.now }
    requires active { facts.now.active ≡ false }
    requires deferred { facts.now.deferred ≡ None }
    requires last { is_some facts.now.last ≡ true }
    requires begin { begin ≡ last_begin facts.now }
    requires end { «end» ≡ last_end facts.now }
    ensures { result ≡ view_by facts.now }
{
    if is_frozen(facts) {
        return view_in(current, State::Frozen, begin, end);
    }
    match current.interval {
        Some(interval) => waiting_view(current, interval),
        None => view_in(current, State::Done, begin, end),
    }
}

// The view of an element that waits for its interval.
#[inline(always)]
fn waiting_view(current: &CurrentFacts, interval: Interval) -> View
    requires times { HasTimesWithin current.now }
    requires interval { current.now.interval ≡ Some interval }
    ensures { (f : AnyFacts) → AreCurrent current.now f → result ≡ Current.view_in current.now
        state.Waiting (shown_time f (time.At interval.begin)) (shown_time f interval.end) }
{
    view_in(
        current,
        State::Waiting,
        present(current, Time::At(interval.begin)),
        present(current, interval.end),
    )
}

// A view in a state with these times.
#[inline(always)]
fn view_in(current: &CurrentFacts, state: State, begin: Shown, end: Shown) -> View
    ensures { result ≡ Current.view_in current.now state begin «end» }
{
    View {
        serial: current.serial,
        state,
        begin,
        end,
        iteration: current.iteration,
        finished: current.finished,
    }
}

// What the view of any element follows from.
fn current_facts(facts: &ViewFacts) -> CurrentFacts
    requires { HasNumbersWithin facts.now }
    ensures current { AreCurrent result facts.now }
    ensures times { HasTimesWithin result }
{
    CurrentFacts {
        serial: facts.serial,
        interval: facts.interval,
        standing: facts.standing,
        shift: facts.shift,
        iteration: facts.iteration,
        finished: facts.finished,
    }
}

// A value in document time.
#[inline(always)]
fn settled(value: Option<i64>) -> Shown
    ensures { result ≡ shown_or shown.At value }
{
    match value {
        Some(value) => Shown::At(value),
        None => Shown::Nothing,
    }
}

// The end of the current interval, as it is shown at the present moment.
#[inline(always)]
fn present_end(current: &CurrentFacts) -> Shown
    requires { HasTimesWithin current.now }
    ensures { (f : AnyFacts) → AreCurrent current.now f → result
        ≡ shown_or (λ (i : AnyInterval). shown_time f i.«end») f.interval }
{
    match current.interval {
        Some(interval) => present(current, interval.end),
        None => Shown::Nothing,
    }
}

// A time on the time parent's clock, as it is shown at the present moment.
#[inline(always)]
fn present(current: &CurrentFacts, time: Time) -> Shown
    requires times { HasTimesWithin current.now }
    requires time { IsTimeCarried time }
    ensures { (f : AnyFacts) → AreCurrent current.now f → result ≡ shown_time f time }
{
    match time {
        Time::At(value) => {
            if current.standing {
                Shown::Standing
            } else {
                Shown::At(value + current.shift)
            }
        }
        Time::Indefinite => Shown::Indefinite,
        Time::Unresolved => Shown::Unresolved,
    }
}
