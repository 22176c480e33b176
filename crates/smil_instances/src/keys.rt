//! Each cell is noted with the access key that its item waits for, if any.

ghost use Rattle.std.specs.Prelude.{◌≡◌, ℕ, ◌<◌, List, length, Some, slice_get, IfOk, OnOk};
ghost use Rattle.smil_instances.specs.Sources.{AreThose};
ghost use Rattle.smil_instances.specs.Dependents.{ElementDependents, keyed_in};
ghost use Rattle.smil_instances.specs.Keys.{TakesKeys, goes_to_key, is_for_key, side_keys};

use super::dependents_row::DependentsRow;
use super::source::Source;
use smil_instance_rows::Cell;
use smil_model::{Edge, GrowingList};
use std::alloc::{AllocError, Global};

/// The cells whose items wait for each key, by the sources in the rows. It takes time linear in the
/// items.
pub fn cells_by_key(
    alloc: Global,
    rows: &[DependentsRow],
) -> Result<Vec<GrowingList<Cell>>, AllocError>
    ensures { IfOk result (λ keys. (key : ℕ)
        → AreThose (is_for_key rows.now key) (keyed_in keys.items key)) }
{
    let mut keys = Vec::new(alloc);
    for (row, own) in rows.iter().enumerate() {
        note_side(&mut keys, own, row, Edge::Begin)?;
        note_side(&mut keys, own, row, Edge::End)?;
    }
    Ok(keys)
}

// Notes each cell of one side of an element, whose row has this index, with its key.
fn note_side(
    keys: &mut Vec<GrowingList<Cell>>,
    own: &DependentsRow,
    row: usize,
    side: Edge,
) -> Result<(), AllocError>
    ensures { (rows : List ElementDependents) → slice_get rows row ≡ Some own.now
        → OnOk result (TakesKeys (side_keys rows row side) keys.old.items keys.new.items) }
{
    for (item, source) in own.sources(side).iter().enumerate() {
        note_key(keys, *source, Cell { row, side, item })?;
    }
    Ok(())
}

// Notes a cell whose item has this source with its key, if it waits for one.
fn note_key(keys: &mut Vec<GrowingList<Cell>>, source: Source, cell: Cell) -> Result<(), AllocError>
    ensures { OnOk result (TakesKeys (goes_to_key source cell) keys.old.items keys.new.items) }
{
    match source {
        Source::Key { key } => {
            let place = usize::from(key);
            make_room(keys, key)?;
            keys[place].push(cell)
        }
        _ => Ok(()),
    }
}

// Makes an empty list for each key up to this one that has none.
fn make_room(keys: &mut Vec<GrowingList<Cell>>, key: u8) -> Result<(), AllocError>
    ensures room { OnOk result (key < length keys.new.items) }
    ensures same { OnOk result ((k : ℕ) → keyed_in keys.new.items k ≡ keyed_in keys.old.items k) }
{
    let alloc = *keys.allocator();
    let place = usize::from(key);
    while keys.len() <= place {
        keys.push(GrowingList::new(alloc))?;
    }
    Ok(())
}
