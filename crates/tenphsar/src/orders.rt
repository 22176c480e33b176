//! The orders that the arguments of calls make.

ghost use Rattle.std.specs.Prelude.{◌≡◌, ◌&&◌};
ghost use Rattle.smil_model.specs.document.Values.{is_clock};
ghost use Rattle.tenphsar.specs.Orders.{IsFit, MakesOrder, advance_of, event_by, key_of, media_of, seek_of};

use smil_lexis::texts::is_key;
use smil_model::{HORIZON, Order, Refusal, Who};
use smil_script::event_name;
use std::alloc::Global;

/// Why arguments make no order: no line could say it, or memory ran out.
#[derive(Clone, Copy, Drop)]
pub(crate) enum NoOrder {
    BadArgument,
    Memory,
}

// Whether a number of milliseconds is a clock value: from 0 to 10^12.
fn is_clock_value(value: i64) -> bool
    ensures { result ≡ is_clock value }
{
    0 <= value && value <= HORIZON
}

/// An advance by a length, in milliseconds.
pub(crate) fn advance(by: i64) -> Result<Order, NoOrder>
    ensures order { MakesOrder result (advance_of by) }
    ensures fit { IsFit result }
{
    if is_clock_value(by) {
        Ok(Order::Advance { by })
    } else {
        Err(NoOrder::BadArgument)
    }
}

/// A seek to a moment, in milliseconds of document time.
pub(crate) fn seek(to: i64) -> Result<Order, NoOrder>
    ensures order { MakesOrder result (seek_of to) }
    ensures fit { IsFit result }
{
    if is_clock_value(to) {
        Ok(Order::Seek { to })
    } else {
        Err(NoOrder::BadArgument)
    }
}

/// An event of this name on an element, by its serial.
pub(crate) fn event(alloc: Global, element: u32, name: &[u8]) -> Result<Order, NoOrder>
    ensures order { MakesOrder result (event_by element name.now) }
    ensures fit { IsFit result }
{
    match event_name(alloc, name) {
        Ok(name) => Ok(Order::Event {
            who: Who::Serial(element),
            name,
        }),
        Err(Refusal::Memory) => Err(NoOrder::Memory),
        Err(_) => Err(NoOrder::BadArgument),
    }
}

/// The length of an element's media, in milliseconds; the element is named by its serial.
pub(crate) fn media(element: u32, length: i64) -> Result<Order, NoOrder>
    ensures order { MakesOrder result (media_of element length) }
    ensures fit { IsFit result }
{
    if is_clock_value(length) {
        Ok(Order::Media {
            who: Who::Serial(element),
            length,
        })
    } else {
        Err(NoOrder::BadArgument)
    }
}

/// A press of an access key, one byte.
pub(crate) fn key(key: u8) -> Result<Order, NoOrder>
    ensures order { MakesOrder result (key_of key) }
    ensures fit { IsFit result }
{
    if is_key(key) {
        Ok(Order::Key { key })
    } else {
        Err(NoOrder::BadArgument)
    }
}
