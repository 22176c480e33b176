//! Elements as they were before they changed, by which a table goes back to its mark.

ghost use Rattle.std.specs.Prelude.{◌≡◌, [], ◌∷◌, ◌++◌, ◌<◌, ℕ, true, false, OnOk, OnErr, IfOk, IfSome, MatchOption, length, slice_index_or, slice_set};
ghost use Rattle.smil_laws.specs.Near.{IsIntervalNear};
ghost use Rattle.smil_nodes.specs.Undo.{MayGrow, has_note, note_of};

use super::endings::Endings;
use smil_element::{DueChanges, Ending};
use smil_model::Interval;
use smil_rounds::current_rows::CurrentRow;
use std::alloc::{AllocError, Global};
use std::marker::Model;

/// What is kept of an element, as it was before it changed.
#[derive(Clone, Copy)]
pub struct Note {
    /// The index of its row.
    pub index: usize,
    pub interval: Option<Interval>,
    pub comings: DueChanges,
    pub ending: Ending,
}

/// Elements as they were before they changed, the one that changed last at the end; seen as the
/// list of these notes.
#[derive(Drop)]
pub struct Undo {
    notes: Vec<Note>,
    /// By the index of its row, whether an element has one of the notes; it has one at most.
    marks: Vec<bool>,
}

impl Model for Undo {
    ghost use Rattle.std.specs.Prelude.{List};
    ghost use Rattle.smil_nodes.specs.declared.undo.Note.{Note as AnyNote};
    ghost use Rattle.smil_nodes.specs.Undo.{AreMarked, AreNearNotes};

    ghost Value = { List AnyNote };

    ghost view = { λ a. a.notes.items };

    ghost invariant = { λ a. AreNearNotes a.notes.items × AreMarked a.marks.items a.notes.items };
}

impl Undo {
    /// No notes, of so many elements. It takes memory for each of these, and none for notes;
    /// refused where memory runs out.
    pub fn of(alloc: Global, count: usize) -> Result<Undo, AllocError>
        ensures { IfOk result (λ undo. undo ≡ []) }
    {
        let marks = Vec::from_elem(alloc, false, count)?;
        Ok(Undo {
            notes: Vec::new(alloc),
            marks,
        })
    }

    /// Notes the element whose row has this index, and its ending, before it changes, unless it is
    /// noted already. It takes memory for each element once, and a fixed number of steps. Where
    /// memory runs out the element is not noted.
    #[inline(always)]
    pub fn note(
        &mut self,
        index: usize,
        row: &CurrentRow,
        endings: &Endings,
    ) -> Result<(), AllocError>
        requires { IfSome row.now.interval IsIntervalNear }
        ensures grown { MayGrow self.old (note_of index row.now endings.now) self.new }
        ensures noted { OnOk result (has_note self.new index ≡ true) }
        ensures once { has_note self.old index ≡ true → self.new ≡ self.old }
        ensures err { OnErr result (self.new ≡ self.old) }
    {
        if mark_at(&self.marks, index) {
            return Ok(());
        }
        make_room(&mut self.marks, index)?;
        self.notes.push(Note {
            index,
            interval: row.interval,
            comings: row.comings,
            ending: endings.ending(index),
        })?;
        put_mark(&mut self.marks, index, true);
        Ok(())
    }

    /// Takes the last note; None exactly where there is none. It takes no memory.
    pub fn take_last(&mut self) -> Option<Note>
        ensures last { MatchOption result ((self.old ≡ []) × (self.new ≡ [])) (λ noted. self.old
            ≡ self.new ++ noted ∷ []) }
        ensures near { IfSome result (λ noted. IfSome noted.interval IsIntervalNear) }
    {
        let noted = self.notes.pop()?;
        put_mark(&mut self.marks, noted.index, false);
        Some(noted)
    }

    /// Drops all notes. It takes a step for each, and no memory.
    pub fn clear(&mut self)
        ensures { self.new ≡ [] }
    {
        while self.take_last().is_some() {}
    }
}

// The mark at an index; none is set where there is none.
fn mark_at(marks: &[bool], index: usize) -> bool
    ensures { result ≡ slice_index_or marks.now index false }
{
    match marks.get(index) {
        Some(mark) => *mark,
        None => false,
    }
}

// Makes room for the mark at an index; no mark is set by it.
fn make_room(marks: &mut Vec<bool>, index: usize) -> Result<(), AllocError>
    ensures room { OnOk result (index < length marks.new.items) }
    ensures same { (other : ℕ) → slice_index_or marks.new.items other false
        ≡ slice_index_or marks.old.items other false }
{
    while marks.len() <= index {
        marks.push(false)?;
    }
    Ok(())
}

// Puts a mark at an index; where there is none nothing changes.
fn put_mark(marks: &mut Vec<bool>, index: usize, mark: bool)
    ensures { marks.new.items ≡ slice_set marks.old.items index mark }
{
    if index < marks.len() {
        marks[index] = mark;
    }
}
