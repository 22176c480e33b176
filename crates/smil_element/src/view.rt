//! The view of one element.

ghost use Rattle.std.specs.Prelude.{◌≡◌, ◌||◌, ◌-ℤ◌, ℕ, Bool, None, Some, true, false, Option, is_some, option_map, IfSome};
ghost use Rattle.smil_model.specs.declared.document.Node.{Node as AnyNode};
ghost use Rattle.smil_model.specs.declared.interval.Interval.{Interval as AnyInterval};
ghost use Rattle.smil_model.specs.document.Document.{elements, node_at, time_parent};
ghost use Rattle.smil_model.specs.diary.Clocks.{outer};
ghost use Rattle.smil_model.specs.diary.Diary.{lives_under};
ghost use Rattle.smil_model.specs.diary.Lawful.{has_element};
ghost use Rattle.smil_model.specs.shown.Views as model;
ghost use Rattle.smil_fill.specs.Current.{AreCurrent, HasTimesWithin};
ghost use Rattle.smil_fill.specs.Numbers.{HasNumbersWithin};
ghost use Rattle.smil_model.specs.Times.{IsCarried};
ghost use Rattle.smil_laws.specs.Near.{IsIntervalNear};
ghost use Rattle.smil_past.specs.Past.{IsPresent, history_of};
ghost use Rattle.smil_element.specs.Shown.{IsViewOf, is_cut, minds, shown_last};
ghost use Rattle.smil_element.specs.Subject.{IsFound};

use super::displaced::is_displaced;
use super::frozen::is_frozen_above;
use super::present::Present;
use super::subject::{Subject, subject_at, subject_of};
use smil_fill::{CurrentFacts, active_view, unplayed_view, view};
use smil_model::{Fill, Interval, View, ViewFacts};
use smil_past::PlayFacts;

/// The view of an element at a moment, by its current interval, whose numbers are from -10^12 to
/// 10^12. It takes no memory, and a step for each element above it up to an active one; for each of
/// these that freezes in a seq or an excl, a look-up for each of its siblings.
pub fn view_of(present: &Present<'_>, interval: Option<Interval>) -> View
    requires element { has_element present.now.past.now.document.nodes present.now.who ≡ true }
    requires moment { IsPresent present.now.past.now present.now.moment }
    requires near { IfSome interval IsIntervalNear }
    ensures { (e : AnyNode) (intervals : ℕ → Option AnyInterval)
        → node_at (elements present.now.past.now.document.nodes) present.now.who ≡ Some e
        → intervals present.now.who ≡ interval → result
        ≡ model.view_of (history_of present.now.past.now) present.now.moment intervals e }
{
    let found = subject_of(present);
    let played = found.played;
    if played.begun.is_some() {
        playing_view(&subject_at(present, found.index), interval)
    } else if is_unplayed(played) {
        resting_view(&subject_at(present, found.index), interval)
    } else {
        view_by(&subject_at(present, found.index), interval)
    }
}

// Whether a view shows nothing of what an element that is not active has played: no interval
// finished, and no begin is deferred.
#[inline(always)]
fn is_unplayed(played: &PlayFacts) -> bool
    ensures last { result ≡ true → played.now.last_finished ≡ None }
    ensures deferred { result ≡ true → is_some played.now.shown_deferred ≡ false }
{
    played.last_finished.is_none() && played.shown_deferred.is_none()
}

// The view of an active element, in which nothing of its time parent shows.
#[inline(always)]
fn playing_view(subject: &Subject<'_>, interval: Option<Interval>) -> View
    requires found { IsFound subject.now }
    requires near { IfSome interval IsIntervalNear }
    requires active { is_some subject.now.played.now.begun ≡ true }
    ensures { IsViewOf subject.now interval result }
{
    subject.present.past.possible();
    let played = subject.played;
    active_view(
        &current_facts(subject, interval),
        played.paused,
        played.shown_begun,
    )
}

// The view of an element that is not active, and of which nothing shows that it has played.
#[inline(always)]
fn resting_view(subject: &Subject<'_>, interval: Option<Interval>) -> View
    requires found { IsFound subject.now }
    requires near { IfSome interval IsIntervalNear }
    requires active { is_some subject.now.played.now.begun ≡ false }
    requires last { subject.now.played.now.last_finished ≡ None }
    requires deferred { is_some subject.now.played.now.shown_deferred ≡ false }
    ensures { IsViewOf subject.now interval result }
{
    subject.present.past.possible();
    unplayed_view(&current_facts(subject, interval))
}

// What the view of any element follows from, among its facts.
#[inline(always)]
fn current_facts(subject: &Subject<'_>, interval: Option<Interval>) -> CurrentFacts
    requires found { IsFound subject.now }
    requires near { IfSome interval IsIntervalNear }
    ensures current { (e : AnyNode) (shows above : Bool)
        → node_at (elements subject.now.present.past.now.document.nodes) subject.now.present.who
        ≡ Some e → AreCurrent result (model.view_facts (history_of subject.now.present.past.now)
        subject.now.present.moment interval shows above e) }
    ensures times { HasTimesWithin result }
{
    let played = subject.played;
    CurrentFacts {
        serial: subject.present.who,
        interval,
        standing: subject.clocks.outer_stands,
        shift: document_shift(subject),
        iteration: played.iteration,
        finished: played.finished,
    }
}

// The view of an element by its current interval.
fn view_by(subject: &Subject<'_>, interval: Option<Interval>) -> View
    requires found { IsFound subject.now }
    requires near { IfSome interval IsIntervalNear }
    ensures { (e : AnyNode) (intervals : ℕ → Option AnyInterval)
        → node_at (elements subject.now.present.past.now.document.nodes) subject.now.present.who
        ≡ Some e → intervals subject.now.present.who ≡ interval → result
        ≡ model.view_of (history_of subject.now.present.past.now) subject.now.present.moment
        intervals e }
{
    subject.present.past.possible();
    view(&view_facts(subject, interval, is_frozen_above(subject)))
}

// What the view of an element follows from, by whether its time parent is frozen.
fn view_facts(subject: &Subject<'_>, interval: Option<Interval>, above: bool) -> ViewFacts
    requires found { IsFound subject.now }
    requires near { IfSome interval IsIntervalNear }
    ensures same { (e : AnyNode)
        → node_at (elements subject.now.present.past.now.document.nodes) subject.now.present.who
        ≡ Some e → model.view_by result ≡ model.view_by
        (model.view_facts (history_of subject.now.present.past.now) subject.now.present.moment
        interval
        (lives_under (time_parent subject.now.present.past.now.document.nodes
        subject.now.present.who) subject.now.present.past.now.diary || above) above e) }
    ensures near { HasNumbersWithin result }
{
    let past = subject.present.past;
    let who = subject.present.who;
    past.possible();
    let played = subject.played;
    let last = last_shown(played);
    let fill = subject.row.makeup().fill;
    ViewFacts {
        serial: who,
        active: played.begun.is_some(),
        paused: played.paused,
        deferred: played.shown_deferred,
        interval,
        begun: played.shown_begun,
        last,
        cut: was_cut(played),
        fill,
        displaced: minds(fill, last) && is_displaced(past, who),
        parent_shows: subject.alive || above,
        parent_frozen: above,
        standing: subject.clocks.outer_stands,
        shift: document_shift(subject),
        iteration: played.iteration,
        finished: played.finished,
    }
}

// The last finished interval in document time.
fn last_shown(played: &PlayFacts) -> Option<(i64, i64)>
    ensures { result ≡ option_map shown_last played.now.last_finished }
{
    played
        .last_finished
        .map(|last| (last.shown_begin, last.shown_finish))
}

// Whether the last finished interval was cut.
fn was_cut(played: &PlayFacts) -> bool
    ensures { result ≡ is_cut played.now.last_finished }
{
    match played.last_finished {
        Some(last) => last.was_cut,
        None => false,
    }
}

// Whether it shows in the view of an element that something displaces it.
fn minds(fill: Fill, last: Option<(i64, i64)>) -> bool
    ensures { result ≡ minds fill last }
{
    match fill {
        Fill::Freeze => last.is_some(),
        _ => false,
    }
}

// How far document time is ahead of the clock of an element's time parent.
fn document_shift(subject: &Subject<'_>) -> i64
    requires { IsFound subject.now }
    ensures value { result ≡ subject.now.present.moment
        -ℤ outer (history_of subject.now.present.past.now) subject.now.present.who
        subject.now.present.moment }
    ensures within { IsCarried result }
{
    subject.present.moment - subject.clocks.outer
}
