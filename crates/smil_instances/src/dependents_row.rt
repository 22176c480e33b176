//! What the times of the items of an element follow from, and which items an entry on it concerns.

ghost use Rattle.std.specs.Prelude.{◌≡◌, slice_get, OnOk};
ghost use Rattle.smil_instances.specs.Dependents.{cells_of, source_or, sources_of};
ghost use Rattle.smil_instances.specs.Spread.{with_cell, without_cells};

use super::source::Source;
use smallvec::SmallVec;
use smil_instance_rows::Cell;
use smil_model::Edge;
use std::alloc::{AllocError, Global};
use std::marker::Model;

/// The sources of an element's items, the items that name it, and the items that its begin or
/// repeat can concern.
#[derive(Drop)]
pub struct DependentsRow {
    begins: SmallVec<Source, 1>,
    ends: SmallVec<Source, 1>,
    readers: SmallVec<Cell, 3>,
    births: SmallVec<Cell, 3>,
}

impl Model for DependentsRow {
    ghost use Rattle.smil_instances.specs.Dependents.{ElementDependents};

    ghost Value = { ElementDependents };

    ghost view = { λ a.
        record {
          begins = a.begins.items;
          ends = a.ends.items;
          readers = a.readers.items;
          births = a.births.items;
        } };
}

impl DependentsRow {
    /// The row of an element whose items have these sources, and which concerns no item. It takes
    /// no memory.
    pub fn new(
        alloc: Global,
        begins: SmallVec<Source, 1>,
        ends: SmallVec<Source, 1>,
    ) -> DependentsRow
        ensures { result ≡ without_cells begins.items ends.items }
    {
        DependentsRow {
            begins,
            ends,
            readers: SmallVec::new(alloc),
            births: SmallVec::new(alloc),
        }
    }

    /// The sources of the items of one side. It takes no memory.
    pub fn sources(&self, side: Edge) -> &[Source]
        ensures { result.now ≡ sources_of self.now side }
    {
        match side {
            Edge::Begin => &self.begins,
            Edge::End => &self.ends,
        }
    }

    /// The source of an item; nothing where there is no such item. It takes no memory.
    pub fn source(&self, side: Edge, item: usize) -> Source
        ensures { result ≡ source_or (slice_get (sources_of self.now side) item) }
    {
        match self.sources(side).get(item) {
            Some(source) => *source,
            None => Source::Nothing,
        }
    }

    /// The cells that an entry on the element can concern, which is a birth or not. It takes no
    /// memory.
    pub fn cells(&self, is_birth: bool) -> &[Cell]
        ensures { result.now ≡ cells_of is_birth (Some self.now) }
    {
        if is_birth {
            &self.births
        } else {
            &self.readers
        }
    }

    /// Appends a cell to those that a birth of the element can concern, and where the cell's item
    /// names the element, also to those that any entry on it can concern.
    pub fn add(&mut self, is_named: bool, cell: Cell) -> Result<(), AllocError>
        ensures { OnOk result (self.new ≡ with_cell self.old is_named cell) }
    {
        if is_named {
            self.readers.push(cell)?;
        }
        self.births.push(cell)?;
        Ok(())
    }
}
