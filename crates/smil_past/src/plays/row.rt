//! What an entry makes of what is kept of its own element, and of a time child.

ghost use Rattle.std.specs.Prelude.{◌≡◌, ℕ, ℤ, Some, not, slice_get};
ghost use Rattle.smil_model.specs.diary.Diary.{History};
ghost use Rattle.smil_model.specs.diary.Clocks.{start_of, to_document as document_time};
ghost use Rattle.smil_model.specs.diary.Plays.{greater_begin};
ghost use Rattle.smil_model.specs.Times.{IsMoment, IsNear};
ghost use Rattle.smil_laws.specs.Near.{HasNear};
ghost use Rattle.smil_model.specs.reach.Reach.{subject_of};
ghost use Rattle.smil_instances.specs.Contribution.{AreClocksAt};
ghost use Rattle.smil_past.specs.Followed.{began_row, child_after, deferred_row, finished_interval, finished_row, may_wait, own_after, told_by, next_iteration, with_finished};

use super::facts::{PastInterval, PlayFacts};
use smil_model::{Entry, Happening, Log, LogEntry, Step, Time};
use smil_stretch::Clocks;

/// An entry on the element with the serial `who`, with the clocks before it and the log.
#[derive(Clone, Copy)]
pub struct OwnEntry<'a> {
    pub who: u32,
    pub entry: Entry,
    pub clocks: &'a Clocks,
    pub log: &'a Log,
}

/// Takes an entry into the row of the element that it is on. It takes no memory.
pub fn own_row(own: &OwnEntry<'_>, row: &mut PlayFacts)
    requires moment { IsMoment own.now.entry.moment }
    requires near { HasNear own.now.entry.step }
    requires on { subject_of own.now.log.now own.now.entry.step ≡ Some own.now.who }
    ensures { (h : History) → AreClocksAt h own.now.clocks.now own.now.entry.moment
        → h.log ≡ own.now.log.now → row.new ≡ own_after h own.now.entry own.now.who row.old }
{
    match own.entry.step {
        Step::Began { begin, .. } => began(own, begin, row),
        Step::Repeated { start, .. } => {
            row.start = start;
            row.iteration = next_iteration(row);
        }
        Step::Ended { end, .. } => finished(own, end, false, row),
        Step::Cut { .. } => {
            let finish = own.clocks.outer(own.who, own.entry.moment);
            finished(own, finish, true, row);
        }
        Step::Paused { .. } => row.paused = true,
        Step::Resumed { .. } => row.paused = false,
        Step::Deferred { begin, .. } => put_off(own, begin, row),
        Step::Passed { begin, .. } => {
            row.shown_deferred = None;
            row.passed = greater(row.passed, begin);
        }
        Step::Logged { place } => row.length = told(own.log, place, own.who, row.length),
    }
}

/// Whether an element may stand in the queue of its time parent before a step on it, by its row
/// then; false only where it doesn't. It takes no memory.
pub fn may_wait(row: &PlayFacts, step: Step) -> bool
    ensures { result ≡ may_wait row.now step }
{
    match step {
        Step::Began { .. } | Step::Deferred { .. } => {
            row.shown_deferred.is_some() || row.passed.is_some()
        }
        Step::Ended { .. } | Step::Cut { .. } => row.paused,
        Step::Repeated { .. } | Step::Paused { .. } | Step::Resumed { .. } => true,
        Step::Passed { .. } | Step::Logged { .. } => true,
    }
}

/// Takes into a row a birth, or else an end, of the time parent. It takes no memory.
pub fn turn_child(row: &mut PlayFacts, birth: bool)
    ensures { row.new ≡ child_after birth (not birth) row.old }
{
    row.shown_deferred = None;
    if birth {
        row.first_finished = None;
        row.last_finished = None;
        row.passed = None;
        row.iteration = 0;
        row.finished = 0;
        row.began_since_birth = false;
    }
}

// What a begin makes of a row.
fn began(own: &OwnEntry<'_>, begin: i64, row: &mut PlayFacts)
    requires moment { IsMoment own.now.entry.moment }
    requires near { IsNear begin }
    ensures { (h : History) → AreClocksAt h own.now.clocks.now own.now.entry.moment
        → row.new ≡ began_row h own.now.who own.now.entry.moment begin row.old }
{
    let OwnEntry {
        who,
        entry,
        clocks,
        ..
    } = *own;
    let (start, shown) = carried_begin(clocks, who, begin, entry.moment);
    row.begun = Some(begin);
    row.shown_begun = Some(shown);
    row.first = start;
    row.start = start;
    row.shown_deferred = None;
    row.paused = false;
    row.iteration = 0;
    row.began_since_birth = true;
}

// The play start of a begin, on the element's own clock, and the begin in document time.
fn carried_begin(clocks: &Clocks, who: u32, begin: i64, moment: i64) -> (i64, i64)
    requires moment { IsMoment moment }
    requires near { IsNear begin }
    ensures start { (h : History) → AreClocksAt h clocks.now moment
        → result.0 ≡ start_of h who moment begin }
    ensures shown { (h : History) → AreClocksAt h clocks.now moment
        → result.1 ≡ document_time h who begin moment }
{
    let readings = clocks.readings(who, moment);
    let since = begin - readings.outer;
    (readings.own + since, moment + since)
}

// What a finish with a value makes of a row.
#[inline(always)]
fn finished(own: &OwnEntry<'_>, finish: i64, was_cut: bool, row: &mut PlayFacts)
    requires moment { IsMoment own.now.entry.moment }
    requires near { IsNear finish }
    ensures { (h : History) → AreClocksAt h own.now.clocks.now own.now.entry.moment → row.new
        ≡ finished_row h own.now.who own.now.entry.moment finish was_cut row.old }
{
    let OwnEntry {
        who,
        entry,
        clocks,
        ..
    } = *own;
    let shown_finish = clocks.to_document(who, finish, entry.moment);
    keep_finished(row, finish, shown_finish, was_cut);
    row.begun = None;
    row.shown_begun = None;
    row.shown_deferred = None;
    row.paused = false;
}

// Keeps the interval of the play of a row, which finishes, where there is a play.
#[inline(always)]
fn keep_finished(row: &mut PlayFacts, finish: i64, shown_finish: i64, was_cut: bool)
    ensures { (h : History) (s : ℕ) (m : ℤ) → shown_finish ≡ document_time h s finish m → row.new
        ≡ with_finished (finished_interval h s m finish was_cut row.old.begun row.old.shown_begun)
        row.old }
{
    let (Some(begin), Some(shown_begin)) = (row.begun, row.shown_begun) else {
        return;
    };
    let interval = PastInterval {
        begin,
        finish,
        shown_begin,
        shown_finish,
        was_cut,
    };
    if row.first_finished.is_none() {
        row.first_finished = Some(interval);
    }
    row.last_finished = Some(interval);
    row.finished = row.finished.saturating_add(1);
}

// What a begin that is deferred makes of a row.
fn put_off(own: &OwnEntry<'_>, begin: i64, row: &mut PlayFacts)
    requires moment { IsMoment own.now.entry.moment }
    requires near { IsNear begin }
    ensures { (h : History) → AreClocksAt h own.now.clocks.now own.now.entry.moment
        → row.new ≡ deferred_row h own.now.who own.now.entry.moment begin row.old }
{
    let OwnEntry {
        who,
        entry,
        clocks,
        ..
    } = *own;
    row.shown_deferred = Some(clocks.to_document(who, begin, entry.moment));
}

// The number of the iteration that a repeat starts.
fn next_iteration(row: &PlayFacts) -> u32
    ensures { result ≡ next_iteration row.now.began_since_birth row.now.iteration }
{
    if row.began_since_birth {
        row.iteration.saturating_add(1)
    } else {
        row.iteration
    }
}

// The greater of two begins; the second where there is no first.
fn greater(before: Option<i64>, begin: i64) -> Option<i64>
    ensures { result ≡ greater_begin before begin }
{
    match before {
        Some(passed) if begin <= passed => Some(passed),
        _ => Some(begin),
    }
}

// The length that a log entry tells of the media of an element, and else the one before.
fn told(log: &Log, place: u32, who: u32, before: Time) -> Time
    ensures { result ≡ told_by who (slice_get log.now place) before }
{
    match log.get(place as usize) {
        Some(
            LogEntry {
                what: Happening::Media { who: on, length },
                ..
            },
        ) if *on == who => Time::At(*length),
        _ => before,
    }
}
