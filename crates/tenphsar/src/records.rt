//! Records of changes, as C has them.

ghost use Rattle.std.specs.Prelude.{◌≡◌, map};
ghost use Rattle.tenphsar.specs.Calls.{Copies};
ghost use Rattle.tenphsar.specs.Records.{record_of, state_number, time_number, time_value};

use smil_model::{Shown, State, View};
use smil_report::Change;

// The number of the state of an element that is gone.
const GONE: u8 = 7;

/// What an order changed of an element. Times are in milliseconds of document time; `begin` and
/// `end` are times where `begin_is` and `end_is` say so, and else 0.
#[repr(C)]
#[derive(Clone, Copy)]
pub struct ChangeRecord {
    pub moment: i64,
    pub begin: i64,
    pub end: i64,
    pub element: u32,
    pub iteration: u32,
    pub finished: u32,
    pub state: u8,
    pub begin_is: u8,
    pub end_is: u8,
    pub reserved: u8,
}

// The number of a state.
fn state_of(state: State) -> u8
    ensures { result ≡ state_number state }
{
    match state {
        State::Idle => 0,
        State::Waiting => 1,
        State::Active => 2,
        State::Paused => 3,
        State::Deferred => 4,
        State::Frozen => 5,
        State::Done => 6,
    }
}

// How a time is shown, and the time where it is one.
fn time_of(time: Shown) -> (u8, i64)
    ensures kind { result.0 ≡ time_number time }
    ensures value { result.1 ≡ time_value time }
{
    match time {
        Shown::Nothing => (0, 0),
        Shown::At(value) => (1, value),
        Shown::Indefinite => (2, 0),
        Shown::Unresolved => (3, 0),
        Shown::Standing => (4, 0),
    }
}

// The record of a changed view.
fn shown(moment: i64, view: &View) -> ChangeRecord
    ensures { result ≡ record_of (Change.Shown moment view.now) }
{
    let (begin_is, begin) = time_of(view.begin);
    let (end_is, end) = time_of(view.end);
    ChangeRecord {
        moment,
        begin,
        end,
        element: view.serial,
        iteration: view.iteration,
        finished: view.finished,
        state: state_of(view.state),
        begin_is,
        end_is,
        reserved: 0,
    }
}

// The record of a change.
fn of(change: &Change) -> ChangeRecord
    ensures { result ≡ record_of change.now }
{
    match change {
        Change::Shown { moment, view } => shown(*moment, view),
        Change::Gone { moment, serial } => ChangeRecord {
            moment: *moment,
            begin: 0,
            end: 0,
            element: *serial,
            iteration: 0,
            finished: 0,
            state: GONE,
            begin_is: 0,
            end_is: 0,
            reserved: 0,
        },
    }
}

/// Copies as many changes as there is room for, as records, and gives how many they are.
pub(crate) fn copy(changes: &[Change], out: &mut [ChangeRecord]) -> usize
    ensures { Copies result (map record_of changes.now) out.old out.new }
{
    let count = changes.len().min(out.len());
    for i in 0..count {
        out[i] = of(&changes[i]);
    }
    count
}
