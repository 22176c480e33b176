//! Wall clock items, and what stands in their places.

ghost use Rattle.std.specs.Prelude.{◌≡◌, ◌+ℤ◌, ◌-ℤ◌, ◌++◌, IfOk, OnOk};
ghost use Rattle.smil_model.specs.Times.{IsNear};
ghost use Rattle.smil_model.specs.declared.document.Item.TheVariants.{Sync};
ghost use Rattle.smil_model.specs.declared.document.Edge.TheVariants.{Begin};
ghost use Rattle.smil_grammar.specs.Spellings.{item_text};
ghost use Rattle.smil_wall.specs.Rewriting.{is_wall as is_wall_text, near as near_number, since as since_start};

use super::instants::wall_clock;
use smil_grammar::ItemFault;
use smil_lexis::texts::{cut, past};
use smil_model::{Bytes, Edge, HORIZON, Item, Items};
use smil_time_list::offsets::tail;
use smil_time_list::write_list;
use std::alloc::{AllocError, Global};

/// What a wall clock item begins with.
pub const WALL_CLOCK: &[u8] = b"wallclock(";

/// Whether an item is a wall clock item, whatever follows.
pub fn is_wall(item: &[u8]) -> bool
    ensures { result ≡ is_wall_text item.now }
{
    item.starts_with(WALL_CLOCK)
}

// A number that isn't farther from 0 than the horizon.
fn near(number: i128) -> Result<i64, ItemFault>
    ensures reading { result ≡ near_number number }
    ensures near { IfOk result IsNear }
{
    if number < -i128::from(HORIZON) || i128::from(HORIZON) < number {
        return Err(ItemFault::Bad);
    }
    Ok(number as i64)
}

// How far one instant and an offset are from another.
fn distance(instant: i64, offset: i64, start: i64) -> i128
    ensures { result ≡ instant +ℤ offset -ℤ start }
{
    i128::from(instant) + i128::from(offset) - i128::from(start)
}

/// How long after the start the instant of a wall clock item is.
pub fn since(start: i64, item: &[u8]) -> Result<i64, ItemFault>
    ensures reading { result ≡ since_start start item.now }
    ensures near { IfOk result IsNear }
{
    let Some((front, rest)) = cut(past(item, WALL_CLOCK.len()), b')') else {
        return Err(ItemFault::Bad);
    };
    let instant = wall_clock(front)?;
    let offset = tail(rest).ok_or(ItemFault::Bad)?;
    near(distance(instant, offset, start))
}

/// Appends the item that names the begin of the root, from which it is so far.
pub fn put_since(alloc: Global, root: &[u8], offset: i64, out: &mut Bytes) -> Result<(), AllocError>
    requires { IsNear offset }
    ensures { OnOk result (out.new ≡ out.old ++ item_text (Sync root.now Begin offset)) }
{
    let who = Bytes::of(alloc, root)?;
    let edge = Edge::Begin;
    let items = Items::new(alloc, Item::Sync { who, edge, offset })?;
    write_list(&items, out)
}
