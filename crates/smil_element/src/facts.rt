//! The facts of one element.

ghost use Rattle.std.specs.Prelude.{◌≡◌, ℕ, Some, None, true, Option, IfSome, option_map};
ghost use Rattle.smil_model.specs.declared.document.Node.{Node as AnyNode};
ghost use Rattle.smil_model.specs.declared.interval.Interval.{Interval as AnyInterval};
ghost use Rattle.smil_model.specs.document.Document.{elements, node_at, time_parent};
ghost use Rattle.smil_model.specs.diary.Clocks as clocks;
ghost use Rattle.smil_model.specs.diary.Diary as diary;
ghost use Rattle.smil_model.specs.diary.Lawful.{has_element};
ghost use Rattle.smil_model.specs.interval.Current as model;
ghost use Rattle.smil_model.specs.document.Document.{serial_of};
ghost use Rattle.smil_past.specs.Past.{history_of};
ghost use Rattle.smil_past.specs.Played.{played as kept_of};
ghost use Rattle.smil_element.specs.Element.{interval_in, shift_of};
ghost use Rattle.smil_element.specs.Subject.{IsFound};

use super::subject::Subject;
use smil_interval::IntervalFacts;
use smil_model::{Attrs, Interval, Kind, Play, Time};
use smil_past::{Past, PastInterval, PlayFacts};

/// The facts of an element at a moment, by its simple duration. It takes no memory.
pub(crate) fn facts_of<'a>(subject: &Subject<'a>, simple: Time) -> IntervalFacts<'a>
    requires { IsFound subject.now }
    ensures { (e : AnyNode) (intervals : ℕ → Option AnyInterval)
        → node_at (elements subject.now.present.past.now.document.nodes) subject.now.present.who
        ≡ Some e
        → simple ≡ model.simple_of (history_of subject.now.present.past.now) intervals e → result
        ≡ model.facts_of (history_of subject.now.present.past.now) intervals
        subject.now.present.moment e }
{
    let played = subject.played;
    let makeup = subject.row.makeup();
    IntervalFacts {
        alive: subject.alive,
        deferred: played.shown_deferred.is_some(),
        play: present_play(subject),
        parent_start: subject.parent_start,
        last: last_interval(played),
        passed: played.passed,
        end_list: makeup.end_list,
        restart: makeup.restart,
        bounds: &makeup.bounds,
        simple,
    }
}

// What is kept of the plays of an element.
pub(crate) fn played_of(past: &Past, who: u32) -> &PlayFacts
    requires { has_element past.now.document.nodes who ≡ true }
    ensures { result.now ≡ kept_of (history_of past.now) who }
{
    past.plays().of(who).unwrap()
}

// The attributes of an element.
pub(crate) fn attrs_of(past: &Past, who: u32) -> &Attrs
    requires { has_element past.now.document.nodes who ≡ true }
    ensures { (e : AnyNode) → node_at (elements past.now.document.nodes) who ≡ Some e
        → result.now ≡ e.attrs }
{
    past.possible();
    past.tree().attrs(who)
}

// The kind of an element.
pub(crate) fn kind_of(past: &Past, who: u32) -> Kind
    requires { has_element past.now.document.nodes who ≡ true }
    ensures { (e : AnyNode) → node_at (elements past.now.document.nodes) who ≡ Some e
        → result ≡ e.kind }
{
    past.possible();
    past.tree().kind(who)
}

// The time parent of an element, which is an element; None for the root.
pub(crate) fn parent_of(past: &Past, who: u32) -> Option<u32>
    requires { has_element past.now.document.nodes who ≡ true }
    ensures parent { result ≡ serial_of (time_parent past.now.document.nodes who) }
    ensures element { IfSome result (λ p. has_element past.now.document.nodes p ≡ true) }
{
    past.possible();
    past.tree().time_parent(who)
}

// Whether what has this time parent is alive.
pub(crate) fn is_alive(past: &Past, parent: Option<u32>) -> bool
    ensures { (node : Option AnyNode) → serial_of node ≡ parent
        → result ≡ diary.lives_under node past.now.diary }
{
    match parent {
        Some(parent) => past.active(parent),
        None => true,
    }
}

// The present play of an active element.
fn present_play(subject: &Subject<'_>) -> Option<Play>
    requires { IsFound subject.now }
    ensures { (e : AnyNode)
        → node_at (elements subject.now.present.past.now.document.nodes) subject.now.present.who
        ≡ Some e → result ≡ model.present_play (history_of subject.now.present.past.now)
        subject.now.present.moment e }
{
    subject.present.past.possible();
    let played = subject.played;
    let begin = played.begun?;
    Some(Play {
        begin,
        first: played.first,
        start: played.start,
        iteration: played.iteration,
        shift: shift(subject),
    })
}

// How far the time parent's clock is ahead of the element's own; None while the element is paused.
fn shift(subject: &Subject<'_>) -> Option<i64>
    requires { IsFound subject.now }
    ensures { result ≡ shift_of (history_of subject.now.present.past.now)
        subject.now.present.who subject.now.present.moment }
{
    if subject.played.paused {
        return None;
    }
    Some(subject.clocks.outer - subject.clocks.own)
}

// The last finished interval, as the search for the next one sees it.
fn last_interval(played: &PlayFacts) -> Option<Interval>
    ensures { result ≡ option_map interval_in played.now.last_finished }
{
    played.last_finished.map(|last| interval_of(last))
}

// A finished interval, as the search sees it.
fn interval_of(last: PastInterval) -> Interval
    ensures { result ≡ interval_in last }
{
    Interval {
        begin: last.begin,
        end: Time::At(last.finish),
    }
}
