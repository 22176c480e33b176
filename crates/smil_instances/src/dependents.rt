//! What the times of the items of a document follow from, and which items an entry concerns.

ghost use Rattle.std.specs.Prelude.{◌≡◌, IfOk};
ghost use Rattle.std.specs.FinMap.{get};
ghost use Rattle.smil_model.specs.document.Document.{elements, serials};
ghost use Rattle.smil_instances.specs.Dependents.{AreDependentsOf, cells_in, keyed_in, source_in};
ghost use Rattle.smil_instances.specs.Spread.{IsIndex};

use super::dependents_row::DependentsRow;
use super::elements::children_before;
use super::fill::fill;
use super::fresh::fresh_rows;
use super::keys::cells_by_key;
use super::source::Source;
use smil_instance_rows::Cell;
use smil_model::{GrowingList, SerialTable};
use smil_tree::Tree;
use std::alloc::{AllocError, Global};
use std::marker::Model;

/// For each element of a document the sources of its items and the cells of the items that an entry
/// on it can concern: those that name it, and for a begin or a repeat also those whose times start
/// anew with its children's. For each access key the cells of the items that wait for it. Seen as
/// the list of what is kept of each element, in document order, and the list of the cells of each
/// key, from 0.
pub struct Dependents {
    rows: Vec<DependentsRow>,
    keys: Vec<GrowingList<Cell>>,
}

impl Drop for Dependents {
    // Dropped by a call of its own, not field by field in each function that drops one.
    fn drop(self) {
        let Dependents {
            rows: _rows,
            keys: _keys,
        } = self;
    }
}

impl Model for Dependents {
    ghost use Rattle.smil_instances.specs.Dependents.{DocumentDependents};

    ghost Value = { DocumentDependents };

    ghost view = { λ a. record { rows = a.rows.items; keys = a.keys.items } };
}

impl Dependents {
    /// What the items of a document follow from, and which of them an entry concerns, by the places
    /// of its elements; unless memory runs out. It takes time near linear in the nodes and the items
    /// of the document.
    pub(crate) fn of(
        alloc: Global,
        tree: &Tree,
        places: &SerialTable,
    ) -> Result<Dependents, AllocError>
        requires { IsIndex (serials (elements tree.now.nodes)) (get places.now) }
        ensures { IfOk result (λ dependents. AreDependentsOf tree.now.nodes dependents) }
    {
        let whos = tree.elements();
        let befores = children_before(alloc, tree, whos)?;
        let mut rows = fresh_rows(alloc, tree, whos, &befores)?;
        let keys = cells_by_key(alloc, &rows)?;
        fill(&mut rows, tree, places, whos)?;
        Ok(Dependents { rows, keys })
    }

    /// The source of a cell's item; nothing where there is no such item. It takes no memory.
    pub fn source(&self, cell: Cell) -> Source
        ensures { result ≡ source_in self.now.rows cell }
    {
        match self.rows.get(cell.row) {
            Some(row) => row.source(cell.side, cell.item),
            None => Source::Nothing,
        }
    }

    /// The cells that an entry on the element at a place among the elements can concern, which is a
    /// birth or not; none where there is no such element. It takes no memory.
    pub fn cells(&self, row: usize, is_birth: bool) -> &[Cell]
        ensures { result.now ≡ cells_in self.now.rows row is_birth }
    {
        match self.rows.get(row) {
            Some(own) => own.cells(is_birth),
            None => &[],
        }
    }

    /// The cells that a press of an access key can concern: those whose items wait for it. It takes
    /// no memory.
    pub fn key_cells(&self, key: u8) -> &[Cell]
        ensures { result.now ≡ keyed_in self.now.keys key }
    {
        match self.keys.get(usize::from(key)) {
            Some(cells) => cells.slice(),
            None => &[],
        }
    }
}
