//! Each cell is noted with the elements whose entries can concern it.

ghost use Rattle.std.specs.Prelude.{◌≡◌, ℕ, ◌&&◌, ◌||◌, not, length, OnOk};
ghost use Rattle.std.specs.FinMap.{get};
ghost use Rattle.smil_model.specs.document.Document.{elements, serial_of, serials, time_parent};
ghost use Rattle.smil_model.specs.reach.Reach.{is_option};
ghost use Rattle.smil_instances.specs.Sources.{base_of, is_reset_with};
ghost use Rattle.smil_instances.specs.Spread.{AreSourcesOf, IsIndex, IsParentAt, Takes, first_rows, goes_to, goes_to_all, side_items};

use super::dependents_row::DependentsRow;
use super::source::Source;
use super::sources::parent_of;
use smil_instance_rows::Cell;
use smil_model::{Edge, SerialTable};
use smil_tree::Tree;
use std::alloc::AllocError;

/// Notes each cell of the document in the rows.
pub fn fill(
    rows: &mut [DependentsRow],
    tree: &Tree,
    places: &SerialTable,
    whos: &[u32],
) -> Result<(), AllocError>
    requires whos { whos.now ≡ serials (elements tree.now.nodes) }
    requires places { IsIndex (serials (elements tree.now.nodes)) (get places.now) }
    requires rows { length rows.old ≡ length (elements tree.now.nodes) }
    requires sources { AreSourcesOf tree.now.nodes rows.old }
    ensures { OnOk result (Takes tree.now.nodes
        (first_rows tree.now.nodes (length (elements tree.now.nodes))) rows.old rows.new) }
{
    let index = Index { tree, places };
    for (row, who) in whos.iter().enumerate() {
        let above = parent_of(tree, *who);
        index.fill_side(rows, above, row, Edge::Begin)?;
        index.fill_side(rows, above, row, Edge::End)?;
    }
    Ok(())
}

// A document with the places of its elements by their serials.
#[derive(Clone, Copy)]
struct Index<'a> {
    tree: &'a Tree,
    places: &'a SerialTable,
}

impl Index<'_> {
    // Notes each cell of one side of an element, whose time parent is `above`, in the rows.
    fn fill_side(
        &self,
        rows: &mut [DependentsRow],
        above: Option<u32>,
        row: usize,
        side: Edge,
    ) -> Result<(), AllocError>
        requires above { IsParentAt self.now.tree.now.nodes above row }
        requires places { IsIndex (serials (elements self.now.tree.now.nodes))
            (get self.now.places.now) }
        requires rows { length rows.old ≡ length (elements self.now.tree.now.nodes) }
        requires sources { AreSourcesOf self.now.tree.now.nodes rows.old }
        ensures { OnOk result (Takes self.now.tree.now.nodes
            (side_items self.now.tree.now.nodes row side) rows.old rows.new) }
    {
        for item in 0..rows[row].sources(side).len() {
            self.fill_cell(rows, above, Cell { row, side, item })?;
        }
        Ok(())
    }

    // Notes a cell of an element, whose time parent is `above`, in the rows of the elements whose
    // entries can concern it.
    fn fill_cell(
        &self,
        rows: &mut [DependentsRow],
        above: Option<u32>,
        cell: Cell,
    ) -> Result<(), AllocError>
        requires above { IsParentAt self.now.tree.now.nodes above cell.row }
        requires places { IsIndex (serials (elements self.now.tree.now.nodes))
            (get self.now.places.now) }
        requires rows { length rows.old ≡ length (elements self.now.tree.now.nodes) }
        requires sources { AreSourcesOf self.now.tree.now.nodes rows.old }
        ensures { OnOk result (Takes self.now.tree.now.nodes
            (goes_to_all self.now.tree.now.nodes cell) rows.old rows.new) }
    {
        let source = rows[cell.row].source(cell.side, cell.item);
        let base = base_of(source);
        let (first, second) = resets_of(self.tree, above, source);
        self.note(rows, base, true, cell)?;
        self.note(rows, other_than(first, base, None), false, cell)?;
        self.note(rows, other_than(second, base, first), false, cell)
    }

    // Notes a cell in the row of an element, if there is one: among those that its births concern,
    // and where the cell names it, among those that all its entries concern.
    fn note(
        &self,
        rows: &mut [DependentsRow],
        who: Option<u32>,
        is_named: bool,
        cell: Cell,
    ) -> Result<(), AllocError>
        requires places { IsIndex (serials (elements self.now.tree.now.nodes))
            (get self.now.places.now) }
        requires rows { length rows.old ≡ length (elements self.now.tree.now.nodes) }
        ensures { OnOk result (Takes self.now.tree.now.nodes (goes_to who is_named cell) rows.old
            rows.new) }
    {
        let Some(who) = who else { return Ok(()) };
        match self.places.get(who) {
            Some(row) => rows[row].add(is_named, cell),
            None => Ok(()),
        }
    }
}

// The element whose begins and ends, or whose events, a source names.
fn base_of(source: Source) -> Option<u32>
    ensures { result ≡ base_of source }
{
    match source {
        Source::Syncbase { of, .. } | Source::Eventbase { of } => Some(of),
        Source::Start | Source::Key { .. } | Source::Nothing => None,
    }
}

// The elements of whose children a birth can change what is kept for an item with this source of an
// element whose time parent is `above`.
fn resets_of(tree: &Tree, above: Option<u32>, source: Source) -> (Option<u32>, Option<u32>)
    ensures { (x who : ℕ) → above ≡ serial_of (time_parent tree.now.nodes who)
        → (is_option x result.0 || is_option x result.1) ≡ is_reset_with tree.now.nodes x who source }
{
    match source {
        Source::Start | Source::Eventbase { .. } | Source::Key { .. } => (above, None),
        Source::Syncbase { of, .. } => (above, parent_of(tree, of)),
        Source::Nothing => (None, None),
    }
}

// The serial, unless it is one of two others.
fn other_than(who: Option<u32>, first: Option<u32>, second: Option<u32>) -> Option<u32>
    ensures { (x : ℕ) → is_option x result
        ≡ (is_option x who && not (is_option x first || is_option x second)) }
{
    if who == first || who == second {
        None
    } else {
        who
    }
}
