//! Where serials stand in a list.

ghost use Rattle.std.specs.Prelude.{◌≡◌, ◌<◌, ◌==◌, ℕ, length, Some, None, IfOk, IfSome, OnOk, if◌then◌else◌};
ghost use Rattle.std.specs.FinMap.{get};
ghost use Rattle.std.specs.List.{position};
ghost use Rattle.std.specs.Option.{option_or};
ghost use Rattle.smil_model.specs.FirstPlaces.{AreFirstPlaces};

use super::serial_table::SerialTable;
use std::alloc::{AllocError, Global};

/// What is kept of a node, with its serial.
pub trait HasSerial {
    ghost serial: { Self → ℕ };

    /// The serial of the node. It takes no memory.
    fn serial(&self) -> u32
        ensures { result ≡ serial self.now };
}

/// A serial stands for its node.
impl HasSerial for u32 {
    ghost serial = { λ number. number };

    fn serial(&self) -> u32 {
        *self
    }
}

/// The first place of a serial in a list, from 0; None exactly where it isn't there. It takes no
/// memory.
pub fn position_in(list: &[u32], serial: u32) -> Option<usize>
    ensures place { result ≡ position (λ other. other == serial) list.now }
    ensures bound { IfSome result (λ place. place < length list.now) }
{
    list.iter().position(|other| *other == serial)
}

/// The place of each serial in a list, from 0; of a serial that stands there twice the first one.
pub fn first_places<T: HasSerial>(alloc: Global, rows: &[T]) -> Result<SerialTable, AllocError>
    ensures { IfOk result (λ places. AreFirstPlaces T.serial (get places) rows.now) }
{
    let mut places = SerialTable::new(alloc);
    for (place, row) in rows.iter().enumerate() {
        note_place(&mut places, row.serial(), place)?;
    }
    Ok(places)
}

// Notes the place of a serial, where it has none yet.
fn note_place(places: &mut SerialTable, serial: u32, place: usize) -> Result<(), AllocError>
    ensures { OnOk result ((s : ℕ) → get places.new s
        ≡ option_or (get places.old s) (if serial == s then Some place else None)) }
{
    if places.get(serial).is_some() {
        return Ok(());
    }
    places.put(serial, place)
}
