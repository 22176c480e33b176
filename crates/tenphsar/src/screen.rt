//! What is on the screen, as C has it, and which element has an id.

ghost use Rattle.std.specs.Prelude.{◌≡◌};
ghost use Rattle.tenphsar.specs.Screen.{Finds, TellsScreen, Writes, nearest, screen_record, showing_number};

use smil_house::{OnScreen, Showing};
use smil_model::{Bytes, Who};
use smil_top::Held;
use std::alloc::Global;

/// What is on the screen of an element. `position` is in milliseconds from the begin of the present
/// iteration.
#[repr(C)]
#[derive(Clone, Copy)]
pub struct ScreenRecord {
    pub position: i64,
    pub element: u32,
    pub iteration: u32,
    pub showing: u32,
    pub reserved: u32,
}

// The number of how an element shows.
fn showing_of(showing: Showing) -> u32
    ensures { result ≡ showing_number showing }
{
    match showing {
        Showing::Off => 0,
        Showing::Playing => 1,
        Showing::Standing => 2,
        Showing::Frozen => 3,
    }
}

// The nearest number of 64 bits.
fn near(position: i128) -> i64
    ensures { result ≡ nearest position }
{
    if position > i128::from(i64::MAX) {
        i64::MAX
    } else if position < i128::from(i64::MIN) {
        i64::MIN
    } else {
        position as i64
    }
}

// The record of what is on the screen of an element.
fn of(one: OnScreen) -> ScreenRecord
    ensures { result ≡ screen_record one }
{
    ScreenRecord {
        position: near(one.position),
        element: one.serial,
        iteration: one.iteration,
        showing: showing_of(one.showing),
        reserved: 0,
    }
}

/// Writes what is on the screen of the element at a place of the presentation of this name, and
/// gives 1; 0 where there is none.
pub(crate) fn tell(held: &Held, name: &[u8], index: usize, out: &mut ScreenRecord) -> i32
    ensures { TellsScreen result name.now index held.now out.old out.new }
{
    match held.on_screen(name, index) {
        Some(one) => {
            *out = of(one);
            1
        }
        None => 0,
    }
}

/// The serial of the node with an id in the presentation of this name; 0 where there is none, and
/// -1 where memory runs out.
pub(crate) fn find(alloc: Global, held: &Held, name: &[u8], id: &[u8]) -> i64
    ensures { Finds result name.now id.now held.now }
{
    let Ok(id) = Bytes::of(alloc, id) else {
        return -1;
    };
    match held.find(name, &Who::Id(id)) {
        Some(serial) => i64::from(serial),
        None => 0,
    }
}
