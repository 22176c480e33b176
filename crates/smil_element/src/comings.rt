//! What comes of one element.

ghost use Rattle.std.specs.Prelude.{◌≡◌, ◌↔◌, ◌+ℤ◌, ◌-ℤ◌, [], ℕ, IsTrue, None, Some, true, not, ◌&&◌, ◌||◌, is_some, slice_get, IfSome};
ghost use Rattle.smil_model.specs.declared.times.Time.TheVariants.{At};
ghost use Rattle.smil_model.specs.Times.{IsNear, later_time, time_le};
ghost use Rattle.smil_model.specs.diary.Diary.{iteration};
ghost use Rattle.smil_model.specs.diary.Lawful.{has_element};
ghost use Rattle.smil_model.specs.diary.Clocks.{iteration_start, play_start, run, stands, to_document as document_time};
ghost use Rattle.smil_model.specs.declared.document.Node.{Node as AnyNode};
ghost use Rattle.smil_model.specs.document.Document.{elements, node_at};
ghost use Rattle.smil_laws.specs.Near.{IsIntervalNear};
ghost use Rattle.smil_past.specs.Past.{IsPresent, history_of};
ghost use Rattle.smil_element.specs.Element.{and_coming, both, goes_on, moved_by};
ghost use Rattle.smil_model.specs.happening.Keys.{coming_begin, coming_by, coming_end, coming_repeat, coming_repeat_at};
ghost use Rattle.smil_element.specs.Changes.{nothing_due};
ghost use Rattle.smil_element.specs.Packed.{IsZeroMove, IsZeroRepeat, change_in, changes_due, moved_at, repeat_at};
ghost use Rattle.smil_element.specs.Subject.{IsFound};

use super::evaluation::Evaluation;
use super::happening::{Change, DueChange};
use super::present::Present;
use super::subject::{Subject, subject_at};
use smil_duration::Bounds;
use smil_model::{BEGIN_CLASS, EMPTY_END_CLASS, END_CLASS, Interval, Key, Play, Time, later};
use std::marker::Model;

/// The class of a begin or end that doesn't come.
const NO_CLASS: u8 = 0;

/// What comes of an element: its begin or its end, and its repeat; seen as both, with the element's
/// place among the elements in document order, from 0, and its serial.
#[derive(Clone, Copy)]
pub struct DueChanges {
    place: u32,
    serial: u32,
    /// The class of its begin or end; `NO_CLASS` where neither comes, and the two numbers are 0.
    class: u8,
    /// Whether its repeat comes; where it doesn't the last two numbers are 0.
    repeats: bool,
    /// The moment of its begin or end, and that on the clock of the time parent.
    moment: i64,
    value: i64,
    /// The moment of its repeat, and the start of the iteration that follows on its own clock.
    repeat_moment: i64,
    start: i64,
}

impl Model for DueChanges {
    ghost use Rattle.smil_element.specs.Changes.{ChangesDue};

    ghost Value = { ChangesDue };

    ghost use Rattle.smil_element.specs.Packed.{AreCanonical, changes_in, numbers_of, same_numbers};

    ghost view = { changes_in };

    ghost invariant = { AreCanonical };

    ghost inverse = { numbers_of };

    ghost inverse_ok = { same_numbers };
}

impl DueChanges {
    /// Nothing comes of the element at a place. It takes no memory.
    pub fn nothing(place: u32, serial: u32) -> DueChanges
        ensures { result ≡ nothing_due place serial }
    {
        changes_of(place, serial, no_move(), no_repeat())
    }

    /// Its begin or its end, if either comes. It takes no memory.
    pub fn moved(&self) -> Option<DueChange>
        ensures { result ≡ self.now.moved }
    {
        if self.class == NO_CLASS {
            return None;
        }
        Some(DueChange {
            key: Key {
                value: self.moment,
                class: self.class,
                position: self.place,
                serial: self.serial,
                repeat: false,
            },
            change: change_of(self.class, self.value),
        })
    }

    /// Its repeat, if that comes. It takes no memory.
    pub fn repeat(&self) -> Option<DueChange>
        ensures { result ≡ self.now.repeat }
    {
        if !self.repeats {
            return None;
        }
        Some(DueChange {
            key: Key {
                value: self.repeat_moment,
                class: END_CLASS,
                position: self.place,
                serial: self.serial,
                repeat: true,
            },
            change: Change::Repeats { start: self.start },
        })
    }
}

/// Whether the same comes of two elements. It takes no memory.
#[inline(always)]
pub fn is_same_comings(one: &DueChanges, other: &DueChanges) -> bool
    ensures { IsTrue result ↔ (one.now ≡ other.now) }
{
    (one.place == other.place)
        & (one.serial == other.serial)
        & (one.class == other.class)
        & (one.repeats == other.repeats)
        & (one.moment == other.moment)
        & (one.value == other.value)
        & (one.repeat_moment == other.repeat_moment)
        & (one.start == other.start)
}

// A begin, or an end in another class, at a value on the clock of the time parent.
fn change_of(class: u8, value: i64) -> Change
    ensures { result ≡ change_in class value }
{
    if class == BEGIN_CLASS {
        Change::Begins { begin: value }
    } else {
        Change::Ends { end: value }
    }
}

// A begin or an end that comes in a class; none in `NO_CLASS`, and the numbers are then 0.
#[derive(Clone, Copy)]
struct Moved {
    class: u8,
    // The moment, and that on the clock of the time parent.
    moment: i64,
    value: i64,
}

// A repeat, if it comes; where it doesn't the numbers are 0.
#[derive(Clone, Copy)]
struct Repeated {
    comes: bool,
    moment: i64,
    // The start of the iteration that follows, on the element's own clock.
    start: i64,
}

// Neither a begin nor an end comes.
#[inline(always)]
fn no_move() -> Moved
    ensures none { (place serial : ℕ) → moved_at place serial result ≡ None }
    ensures zero { IsZeroMove result.class result.moment result.value }
{
    Moved {
        class: NO_CLASS,
        moment: 0,
        value: 0,
    }
}

// No repeat comes.
#[inline(always)]
fn no_repeat() -> Repeated
    ensures none { (place serial : ℕ) → repeat_at place serial result ≡ None }
    ensures zero { IsZeroRepeat result.comes result.moment result.start }
{
    Repeated {
        comes: false,
        moment: 0,
        start: 0,
    }
}

/// What comes of an element by its interval and its simple duration, at a moment: its begin, or its
/// end and its repeat. `place` is its place among the elements in document order, from 0. The
/// numbers of the interval are from -10^12 to 10^12. It takes no memory.
#[inline(always)]
pub fn comings_of(subject: &Subject<'_>, place: u32, made: &Evaluation) -> DueChanges
    requires found { IsFound subject.now }
    requires near { IfSome made.now.interval IsIntervalNear }
    ensures { (e : AnyNode)
        → node_at (elements subject.now.present.past.now.document.nodes) subject.now.present.who
        ≡ Some e → both result.moved result.repeat
        ≡ coming_by (history_of subject.now.present.past.now) made.now.interval made.now.simple
        subject.now.present.moment place e }
{
    subject.present.past.possible();
    let repeat = if subject.played.begun.is_some() {
        repeat_of(subject, made.simple)
    } else {
        no_repeat()
    };
    let moved = moved_of(subject, made.interval);
    changes_of(place, subject.present.who, moved, repeat)
}

// What comes of the element at a place.
#[inline(always)]
fn changes_of(place: u32, serial: u32, moved: Moved, repeat: Repeated) -> DueChanges
    requires moved { IsZeroMove moved.class moved.moment moved.value }
    requires repeat { IsZeroRepeat repeat.comes repeat.moment repeat.start }
    ensures { result ≡ changes_due place serial moved repeat }
{
    DueChanges {
        place,
        serial,
        class: moved.class,
        repeats: repeat.comes,
        moment: moved.moment,
        value: moved.value,
        repeat_moment: repeat.moment,
        start: repeat.start,
    }
}

// The end of an active element, and the begin of another, while the time parent's clock runs.
#[inline(always)]
fn moved_of(subject: &Subject<'_>, interval: Option<Interval>) -> Moved
    requires found { IsFound subject.now }
    requires near { IfSome interval IsIntervalNear }
    ensures zero { IsZeroMove result.class result.moment result.value }
    ensures moved { (place : ℕ) (e : AnyNode)
        → node_at (elements subject.now.present.past.now.document.nodes) subject.now.present.who
        ≡ Some e → and_coming (moved_at place subject.now.present.who result) []
        ≡ moved_by (history_of subject.now.present.past.now) interval
        subject.now.present.moment place e }
{
    subject.present.past.possible();
    let Some(interval) = interval else {
        return no_move();
    };
    if subject.clocks.outer_stands {
        return no_move();
    }
    if subject.played.begun.is_some() {
        end_of(subject, interval)
    } else {
        begin_of(subject, interval)
    }
}

// The begin of an interval.
#[inline(always)]
fn begin_of(subject: &Subject<'_>, interval: Interval) -> Moved
    requires found { IsFound subject.now }
    requires near { IsIntervalNear interval }
    ensures zero { IsZeroMove result.class result.moment result.value }
    ensures moved { (place : ℕ) (e : AnyNode)
        → node_at (elements subject.now.present.past.now.document.nodes) subject.now.present.who
        ≡ Some e → and_coming (moved_at place subject.now.present.who result) []
        ≡ coming_begin (history_of subject.now.present.past.now) subject.now.present.moment place
        e (Some interval) }
{
    Moved {
        class: BEGIN_CLASS,
        moment: to_document(subject, interval.begin),
        value: interval.begin,
    }
}

// The end of an interval that is a number, in a class of its own where the length is 0.
#[inline(always)]
fn end_of(subject: &Subject<'_>, interval: Interval) -> Moved
    requires found { IsFound subject.now }
    requires near { IsIntervalNear interval }
    ensures zero { IsZeroMove result.class result.moment result.value }
    ensures moved { (place : ℕ) (e : AnyNode)
        → node_at (elements subject.now.present.past.now.document.nodes) subject.now.present.who
        ≡ Some e → and_coming (moved_at place subject.now.present.who result) []
        ≡ coming_end (history_of subject.now.present.past.now) subject.now.present.moment place e
        (Some interval) }
{
    let Time::At(end) = interval.end else {
        return no_move();
    };
    Moved {
        class: if interval.begin < end {
            END_CLASS
        } else {
            EMPTY_END_CLASS
        },
        moment: to_document(subject, end),
        value: end,
    }
}

// A value on the clock of an element's time parent, in document time.
fn to_document(subject: &Subject<'_>, value: i64) -> i64
    requires found { IsFound subject.now }
    requires near { IsNear value }
    ensures { result ≡ document_time (history_of subject.now.present.past.now)
        subject.now.present.who value subject.now.present.moment }
{
    subject.present.moment + (value - subject.clocks.outer)
}

// The repeat of an active element, while its own clock runs.
#[inline(always)]
fn repeat_of(subject: &Subject<'_>, simple: Time) -> Repeated
    requires { IsFound subject.now }
    ensures zero { IsZeroRepeat result.comes result.moment result.start }
    ensures repeat { (place : ℕ) (e : AnyNode)
        → node_at (elements subject.now.present.past.now.document.nodes) subject.now.present.who
        ≡ Some e → and_coming (repeat_at place subject.now.present.who result) []
        ≡ coming_repeat (history_of subject.now.present.past.now) simple
        subject.now.present.moment place e }
{
    if may_repeat(subject) {
        // A copy, so that the subject itself need not stand in memory where nothing repeats.
        let present = subject.present;
        repeat_found(&present, subject.index, simple)
    } else {
        no_repeat()
    }
}

// Whether an element has what repeats it, and its own clock runs.
fn may_repeat(subject: &Subject<'_>) -> bool
    requires { IsFound subject.now }
    ensures { (e : AnyNode)
        → node_at (elements subject.now.present.past.now.document.nodes) subject.now.present.who
        ≡ Some e → result ≡ (is_some e.attrs.repeat_count || is_some e.attrs.repeat_dur)
        && not (stands (history_of subject.now.present.past.now) subject.now.present.who) }
{
    subject.row.makeup().bounds.repeats() && !subject.clocks.own_stands
}

// The repeat of the element with this index that may repeat; what is told of it is found again.
#[inline(never)]
fn repeat_found(present: &Present<'_>, index: usize, simple: Time) -> Repeated
    requires element { has_element present.now.past.now.document.nodes present.now.who ≡ true }
    requires index { slice_get (elements present.now.past.now.document.nodes) index
        ≡ node_at (elements present.now.past.now.document.nodes) present.now.who }
    requires moment { IsPresent present.now.past.now present.now.moment }
    ensures zero { IsZeroRepeat result.comes result.moment result.start }
    ensures repeat { (place : ℕ) (e : AnyNode)
        → node_at (elements present.now.past.now.document.nodes) present.now.who
        ≡ Some e → and_coming (repeat_at place present.now.who result) []
        ≡ coming_repeat_at (history_of present.now.past.now) present.now.moment
        place e simple
        (later_time simple (iteration_start (history_of present.now.past.now)
        present.now.who)) }
{
    repeat_after(&subject_at(present, index), simple)
}

// The repeat of an element that may repeat, where its iteration ends at a number and another
// follows.
fn repeat_after(subject: &Subject<'_>, simple: Time) -> Repeated
    requires { IsFound subject.now }
    ensures zero { IsZeroRepeat result.comes result.moment result.start }
    ensures repeat { (place : ℕ) (e : AnyNode)
        → node_at (elements subject.now.present.past.now.document.nodes) subject.now.present.who
        ≡ Some e → and_coming (repeat_at place subject.now.present.who result) []
        ≡ coming_repeat_at (history_of subject.now.present.past.now) subject.now.present.moment
        place e simple
        (later_time simple (iteration_start (history_of subject.now.present.past.now)
        subject.now.present.who)) }
{
    let play = last_play(subject);
    let Time::At(over) = later(simple, play.start) else {
        return no_repeat();
    };
    if !goes_on(&subject.row.makeup().bounds, simple, &play, over) {
        return no_repeat();
    }
    Repeated {
        comes: true,
        moment: moment_of(subject, over),
        start: over,
    }
}

// The moment at which the own clock of an element shows a value, if it goes on as now.
fn moment_of(subject: &Subject<'_>, value: i64) -> i64
    requires found { IsFound subject.now }
    requires near { IsNear value }
    ensures { result ≡ subject.now.present.moment
        +ℤ (value -ℤ run (history_of subject.now.present.past.now) subject.now.present.who
        subject.now.present.moment) }
{
    subject.present.moment + (value - subject.clocks.own)
}

// The last play of an element, by what its own clock tells.
fn last_play(subject: &Subject<'_>) -> Play
    requires { IsFound subject.now }
    ensures first { result.first
        ≡ play_start (history_of subject.now.present.past.now) subject.now.present.who }
    ensures start { result.start
        ≡ iteration_start (history_of subject.now.present.past.now) subject.now.present.who }
    ensures iteration { result.iteration
        ≡ iteration (history_of subject.now.present.past.now) subject.now.present.who }
{
    let played = subject.played;
    Play {
        begin: 0,
        first: played.first,
        start: played.start,
        iteration: played.iteration,
        shift: None,
    }
}

// Whether another iteration follows the one that is over at this time: a simple duration of 0 isn't
// repeated, and none begins where the iterations or the repeat duration end.
fn goes_on(bounds: &Bounds, simple: Time, play: &Play, over: i64) -> bool
    ensures { result ≡ goes_on bounds.now simple play.now over }
{
    is_after(simple, 0) && is_after(bounds.intermediate_end(simple, play), over)
}

// Whether a time is after a number.
fn is_after(time: Time, number: i64) -> bool
    ensures { result ≡ not (time_le time (At number)) }
{
    match time {
        Time::At(at) => number < at,
        Time::Indefinite | Time::Unresolved => true,
    }
}
