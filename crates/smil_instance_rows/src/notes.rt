//! Rows of instance times as they were before they changed, by which all go back to a mark.

ghost use Rattle.std.specs.Prelude.{◌≡◌, ◌<◌, [], ◌∷◌, ◌++◌, Some, true, false, length, OnOk, IfOk, MatchOption, slice_index_or, slice_set};
ghost use Rattle.smil_instance_rows.specs.Notes.{HasNoted, all_put, is_noted, no_mark, rows_back};

use super::row::InstanceRow;
use super::rows::Rows;
use std::alloc::{AllocError, Global};
use std::marker::Model;

/// The instance times of an element, as they were before they changed.
#[derive(Drop)]
pub struct RowNote {
    /// The index of its row.
    pub index: usize,
    pub row: InstanceRow,
}

/// What is needed to go back to a mark, where there is one: the rows that lost or got instance
/// times of places before it, as they were, and the place from which on instance times came after
/// it. Seen as these two.
pub struct RowNotes {
    notes: Vec<RowNote>,
    /// By its index, whether a row is noted, so that it needn't be noted again.
    marks: Vec<bool>,
    mark: Option<usize>,
}

impl Drop for RowNotes {
    // Dropped by a call of its own, not field by field in each function that drops one.
    fn drop(self) {
        let RowNotes {
            notes: _notes,
            marks: _marks,
            mark: _mark,
        } = self;
    }
}

impl Model for RowNotes {
    ghost use Rattle.smil_instance_rows.specs.Notes.{AreMarked, MarkedRows};

    ghost Value = { MarkedRows };

    ghost view = { λ a. record { notes = a.notes.items; mark = a.mark } };

    ghost invariant = { λ a. AreMarked a.marks.items a.notes.items };
}

impl RowNotes {
    /// No notes and no mark, for so many rows; unless memory runs out. It takes memory for each
    /// row, and none for notes.
    pub fn of(alloc: Global, count: usize) -> Result<RowNotes, AllocError>
        ensures { IfOk result (λ notes. notes ≡ no_mark) }
    {
        let marks = Vec::from_elem(alloc, false, count)?;
        Ok(RowNotes {
            notes: Vec::new(alloc),
            marks,
            mark: None,
        })
    }

    /// Makes a mark, in place of any other: what is of this place or a later one comes after it. It
    /// takes no memory.
    pub fn mark(&mut self, place: usize)
        ensures { self.new ≡ record { notes = []; mark = Some place } }
    {
        self.forget();
        self.mark = Some(place);
    }

    /// The place from which on instance times came after the mark; None exactly where there is no
    /// mark. It takes no memory.
    pub fn place(&self) -> Option<usize>
        ensures { result ≡ self.now.mark }
    {
        self.mark
    }

    /// Takes the mark away, and drops the notes. It takes a step for each, and no memory.
    pub fn forget(&mut self)
        ensures { self.new ≡ no_mark }
    {
        self.mark = None;
        while self.take_last().is_some() {}
    }

    /// Puts back what was noted, and takes out what came after the mark; then there is none. It
    /// takes no memory, a step for each note, and one for each item and for what is taken out of
    /// it.
    pub fn back(&mut self, rows: &mut Rows)
        ensures rows { rows.new ≡ rows_back rows.old self.old }
        ensures none { self.new ≡ no_mark }
    {
        self.put_back(rows);
        if let Some(place) = self.mark.take() {
            rows.cut_later(place);
        }
    }

    // Puts back what was noted, the last first.
    fn put_back(&mut self, rows: &mut Rows)
        ensures rows { rows.new ≡ all_put rows.old self.old.notes }
        ensures none { self.new ≡ record { notes = []; mark = self.old.mark } }
    {
        while let Some(note) = self.take_last() {
            rows.restore(note.index, note.row);
        }
    }

    /// Notes a row, before it changes, unless it is noted already; or memory runs out. It takes
    /// memory for a copy.
    pub fn note(&mut self, rows: &Rows, index: usize) -> Result<(), AllocError>
        requires { index < length rows.now }
        ensures more { HasNoted rows.now self.old self.new }
        ensures noted { OnOk result (is_noted self.new.notes index ≡ true) }
    {
        if self.is_noted(index) {
            return Ok(());
        }
        let row = rows.copy_of(index)?;
        self.notes.push(RowNote { index, row })?;
        put_mark(&mut self.marks, index, true);
        Ok(())
    }

    /// Whether a row is noted; false at worst where it is. It takes no memory.
    pub fn is_noted(&self, index: usize) -> bool
        ensures { result ≡ true → is_noted self.now.notes index ≡ true }
    {
        mark_at(&self.marks, index)
    }

    // Takes the last note; None exactly where there is none.
    fn take_last(&mut self) -> Option<RowNote>
        ensures last { MatchOption result ((self.old.notes ≡ []) × (self.new ≡ self.old))
            (λ note. (self.old.notes ≡ self.new.notes ++ note ∷ [])
            × (self.new.mark ≡ self.old.mark)) }
    {
        let note = self.notes.pop()?;
        put_mark(&mut self.marks, note.index, false);
        Some(note)
    }
}

// The mark at an index; none is set where there is none.
fn mark_at(marks: &[bool], index: usize) -> bool
    ensures { result ≡ slice_index_or marks.now index false }
{
    match marks.get(index) {
        Some(mark) => *mark,
        None => false,
    }
}

// Puts a mark at an index; where there is none nothing changes.
fn put_mark(marks: &mut [bool], index: usize, mark: bool)
    ensures { marks.new ≡ slice_set marks.old index mark }
{
    if index < marks.len() {
        marks[index] = mark;
    }
}
