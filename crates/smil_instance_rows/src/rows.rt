//! The instance times of all elements.

ghost use Rattle.smil_instance_rows.specs.Notes.{times_put};
ghost use Rattle.std.specs.FinMap.{get};
ghost use Rattle.std.specs.Prelude.{◌≡◌, ℕ, List, [], ◌∷◌, ◌++◌, OnOk, OnErr, ◌<◌, length, option_copied, slice_get, false, IfOk, None, true};
ghost use Rattle.smil_instance_rows.specs.Rows.{from_place, rows_before};
ghost use Rattle.smil_instance_rows.specs.Places.{IsNotAfter, EndsWith, last_alone};
ghost use Rattle.smil_instance_rows.specs.Changes.{HasCell, cell_of, with_cell, row_at};
ghost use Rattle.smil_instance_rows.specs.Readings.{index_in, row_in, begins_in, ends_in, times_in, first_from, first_after};
ghost use Rattle.smil_instance_rows.specs.Values.{begins_of, ends_of};
ghost use Rattle.smil_model.specs.interval.Intervals.{has_any};

use super::cell::Cell;
use super::copies::copy_each;
use super::item_times::InstanceTime;
use super::row::InstanceRow;
use smil_model::{Duplicate, Edge, SerialTable, Time};
use std::alloc::{AllocError, Global};
use std::marker::Model;
use std::rc::Rc;

/// The instance times of all elements, with the indices of their rows by serial; seen as the list
/// of the rows.
pub struct Rows {
    rows: Vec<InstanceRow>,
    /// A copy has the same ones.
    indices: Rc<SerialTable>,
}

impl Drop for Rows {
    // Dropped by a call of its own, not field by field in each function that drops one.
    fn drop(self) {
        let Rows {
            rows: _rows,
            indices: _indices,
        } = self;
    }
}

impl Model for Rows {
    ghost use Rattle.std.specs.Prelude.{◌≡◌, ℕ, List};
    ghost use Rattle.std.specs.FinMap.{get};
    ghost use Rattle.smil_instance_rows.specs.Rows.{ElementTimes};
    ghost use Rattle.smil_instance_rows.specs.Readings.{index_in};

    ghost Value = { List ElementTimes };

    ghost view = { λ a. a.rows.items };

    ghost invariant = { λ a. (who : ℕ) → get a.indices.value who ≡ index_in a.rows.items who };
}

impl Duplicate for Rows {
    fn copy(&self) -> Result<Self, AllocError> {
        Ok(Rows {
            rows: copy_each(*self.rows.allocator(), &self.rows)?,
            indices: self.indices.clone()?,
        })
    }
}

impl Rows {
    /// These rows, with their indices by serial. It takes no memory.
    pub fn of(rows: Vec<InstanceRow>, indices: Rc<SerialTable>) -> Rows
        requires { (who : ℕ) → get indices.value who ≡ index_in rows.items who }
        ensures { result ≡ rows.items }
    {
        Rows { rows, indices }
    }

    /// How many rows there are. It takes no memory.
    pub fn len(&self) -> usize
        ensures { result ≡ length self.now }
    {
        self.rows.len()
    }

    /// Adds an instance time to an item. Where memory runs out all is as before.
    pub fn add(&mut self, cell: Cell, last: InstanceTime) -> Result<(), AllocError>
        requires cell { HasCell self.old cell }
        requires order { IsNotAfter last.place (cell_of self.old cell) }
        ensures ok { OnOk result (self.new
            ≡ with_cell self.old cell (cell_of self.old cell ++ last ∷ [])) }
        ensures err { OnErr result (self.new ≡ self.old) }
    {
        self.rows[cell.row].add(cell.side, cell.item, last)
    }

    /// Takes out of an item what is of places before this one. It takes no memory.
    pub fn cut(&mut self, cell: Cell, place: usize)
        requires { HasCell self.old cell }
        ensures { self.new ≡ with_cell self.old cell (from_place place (cell_of self.old cell)) }
    {
        self.rows[cell.row].cut(cell.side, cell.item, place);
    }

    /// Takes out of an item all but the last instance time. It takes no memory.
    pub fn keep_last(&mut self, cell: Cell)
        requires { HasCell self.old cell }
        ensures { self.new ≡ with_cell self.old cell (last_alone (cell_of self.old cell)) }
    {
        self.rows[cell.row].keep_last(cell.side, cell.item);
    }

    /// Takes the last instance time out of an item. It takes no memory.
    pub fn undo(&mut self, cell: Cell)
        requires cell { HasCell self.old cell }
        requires some { 0 < length (cell_of self.old cell) }
        ensures { EndsWith (cell_of self.old cell)
            (λ first last. self.new ≡ with_cell self.old cell first) }
    {
        self.rows[cell.row].undo(cell.side, cell.item);
    }

    /// Takes out of all items what is of this place or a later one. It takes no memory.
    pub fn cut_later(&mut self, place: usize)
        ensures { self.new ≡ rows_before place self.old }
    {
        cut_each(&mut self.rows, place);
    }

    /// Puts the instance times of a row in the place of those of the row with this index; where
    /// there is none nothing changes. It takes no memory.
    pub fn restore(&mut self, index: usize, row: InstanceRow)
        ensures { self.new ≡ times_put self.old index row }
    {
        if index < self.rows.len() {
            self.rows[index].restore(row);
        }
    }

    /// A copy of the row with this index, unless memory runs out.
    pub fn copy_of(&self, index: usize) -> Result<InstanceRow, AllocError>
        requires { index < length self.now }
        ensures { IfOk result (λ row. row ≡ row_at self.now index) }
    {
        self.rows[index].copy()
    }

    /// Whether nothing is kept for an item. It takes no memory.
    pub fn is_idle(&self, cell: Cell) -> bool
        requires { HasCell self.now cell }
        ensures { result ≡ true → (cell_of self.now cell ≡ []) }
    {
        self.rows[cell.row].is_idle(cell.side, cell.item)
    }

    /// Whether an item has an instance time of a place before this one. It takes no memory.
    pub fn has_before(&self, cell: Cell, place: usize) -> bool
        requires { HasCell self.now cell }
        ensures { result ≡ false → (from_place place (cell_of self.now cell)
            ≡ cell_of self.now cell) }
    {
        self.rows[cell.row].has_before(cell.side, cell.item, place)
    }

    /// Whether an item has more than one instance time. It takes no memory.
    pub fn has_more(&self, cell: Cell) -> bool
        requires { HasCell self.now cell }
        ensures { result ≡ false → (last_alone (cell_of self.now cell)
            ≡ cell_of self.now cell) }
    {
        self.rows[cell.row].has_more(cell.side, cell.item)
    }

    /// The begins of an element, in rising order; none where it has no row. It takes no memory.
    pub fn begins(&self, who: u32) -> &[i64]
        ensures { result.now ≡ begins_in self.now who }
    {
        match self.row(who) {
            Some(row) => row.begins(),
            None => &[],
        }
    }

    /// The ends of an element, in rising order, with indefinite last; none where it has no row. It
    /// takes no memory.
    pub fn ends(&self, who: u32) -> &[Time]
        ensures { result.now ≡ ends_in self.now who }
    {
        match self.row(who) {
            Some(row) => row.ends(),
            None => &[],
        }
    }

    /// The first begin or end of an element that is not less than the value; unresolved exactly
    /// where there is none. It takes no memory, and log n steps for n of them.
    pub fn first_from(&self, who: u32, side: Edge, value: i64) -> Time
        ensures { result ≡ first_from value (times_in self.now who side) }
    {
        match self.row(who) {
            Some(row) => row.first_from(side, value),
            None => Time::Unresolved,
        }
    }

    /// The first begin or end of an element that is greater than the value; unresolved exactly
    /// where there is none. It takes no memory, and log n steps for n of them.
    pub fn first_after(&self, who: u32, side: Edge, value: i64) -> Time
        ensures { result ≡ first_after value (times_in self.now who side) }
    {
        match self.row(who) {
            Some(row) => row.first_after(side, value),
            None => Time::Unresolved,
        }
    }

    /// Whether an element has any end. It takes no memory.
    pub fn any_end(&self, who: u32) -> bool
        ensures { result ≡ has_any (ends_in self.now who) }
    {
        match self.row(who) {
            Some(row) => row.any_end(),
            None => false,
        }
    }

    /// The begins of the row with this index, in rising order. It takes no look-up, and no memory.
    pub fn begins_at(&self, index: usize) -> &[i64]
        requires { index < length self.now }
        ensures { result.now ≡ begins_of (row_at self.now index).begins }
    {
        self.rows[index].begins()
    }

    /// The ends of the row with this index, in rising order, with indefinite last. It takes no
    /// look-up, and no memory.
    pub fn ends_at(&self, index: usize) -> &[Time]
        requires { index < length self.now }
        ensures { result.now ≡ ends_of (row_at self.now index).ends }
    {
        self.rows[index].ends()
    }

    /// The index of the row of an element; None exactly where it has none. It takes no memory.
    pub fn index_of(&self, who: u32) -> Option<usize>
        ensures { result ≡ index_in self.now who }
    {
        self.indices.get(who)
    }

    // The row of an element, if it has one.
    fn row(&self, who: u32) -> Option<&InstanceRow>
        ensures { option_copied result ≡ row_in self.now who }
    {
        match self.indices.get(who) {
            Some(index) => self.at(index),
            None => None,
        }
    }

    // The row at an index; None exactly where the index is not below the number of rows.
    fn at(&self, index: usize) -> Option<&InstanceRow>
        ensures { option_copied result ≡ slice_get self.now index }
    {
        self.rows.get(index)
    }
}

// Takes out of all items of each row what is of this place or a later one.
fn cut_each(rows: &mut [InstanceRow], place: usize)
    ensures { rows.new ≡ rows_before place rows.old }
{
    for row in rows.iter_mut() {
        row.cut_later(place);
    }
}
