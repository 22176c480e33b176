//! The index of a diary by element.

ghost use Rattle.std.specs.Prelude.{◌≡◌, ℕ, ◌<◌, ◌≤◌, Some, IfOk, IfSome, OnOk, OnErr, if◌then◌else◌, is_some, length, map};
ghost use Rattle.std.specs.FinMap.{get};
ghost use Rattle.smil_model.specs.declared.limits.TheConstants as limits;
ghost use Rattle.smil_diary.specs.declared.element.TheConstants.{NOTHING};
ghost use Rattle.smil_diary.specs.ElementPlaces.{cleared, element_of, kept, noted_at, noted_by, row_of, subject};

use super::element::{ElementPlaces, NOTHING};
use super::subject::subject;
use smil_model::{Duplicate, Entry, SerialTable, Step, StepKind};
use std::alloc::{AllocError, Global};
use std::marker::Model;

/// The index of a diary by element, seen as serials with the places of their last entries.
#[derive(Drop)]
pub(crate) struct Index {
    rows: SerialTable,
    elements: Vec<(u32, ElementPlaces)>,
}

impl Model for Index {
    ghost use Rattle.std.specs.Prelude.{◌≡◌, ℕ, List};
    ghost use Rattle.std.specs.FinMap.{get};
    ghost use Rattle.smil_diary.specs.declared.element.ElementPlaces.{ElementPlaces as GivenPlaces};
    ghost use Rattle.smil_diary.specs.ElementPlaces.{row_of};

    ghost Value = { List (ℕ × GivenPlaces) };

    ghost view = { λ i. i.elements.items };

    ghost invariant = { λ i. (who : ℕ) → get i.rows who ≡ row_of i.elements.items who };
}

impl Duplicate for Index {
    fn copy(&self) -> Result<Self, AllocError> {
        Ok(Index {
            rows: self.rows.copy()?,
            elements: Vec::from_slice(*self.elements.allocator(), &self.elements)?,
        })
    }
}

impl Index {
    /// The index of the empty diary, which takes no memory.
    pub(crate) fn new(alloc: Global) -> Self
        ensures { (serial : ℕ) → kept result serial ≡ NOTHING }
    {
        Index {
            rows: SerialTable::new(alloc),
            elements: Vec::new(alloc),
        }
    }

    /// The places of an element's last entries.
    pub(crate) fn element(&self, who: u32) -> ElementPlaces
        ensures { result ≡ kept self.now who }
    {
        match self.rows.get(who) {
            Some(row) => self.elements[row].1,
            None => NOTHING,
        }
    }

    /// Takes in the entry on an element at this place, which is after all others. Where memory runs
    /// out all is as before.
    pub(crate) fn note(
        &mut self,
        alloc: Global,
        who: u32,
        kind: StepKind,
        place: usize,
    ) -> Result<(), AllocError>
        requires place { place < limits.DIARY_ENTRIES }
        requires few { IfSome (kept self.old who).repeats (λ repeats. repeats ≤ place) }
        ensures ok { OnOk result ((serial : ℕ)
            → kept self.new serial ≡ noted_at who kind place serial (kept self.old serial)) }
        ensures err { OnErr result ((serial : ℕ) → kept self.new serial ≡ kept self.old serial) }
    {
        let row = self.row(alloc, who)?;
        self.elements[row].1.note(kind, place);
        Ok(())
    }

    /// Lets the index be that of these entries, for each element that has a row. It takes no
    /// memory, and a step for each row and each entry.
    pub(crate) fn begin_anew(&mut self, entries: &[Entry])
        requires { length entries.now ≤ limits.DIARY_ENTRIES }
        ensures { (serial : ℕ) → kept self.new serial ≡ (if is_some (row_of self.old serial)
            then element_of entries.now serial else NOTHING) }
    {
        note_anew(&self.rows, &mut self.elements, entries);
    }

    // The row of an element, which is made where there is none.
    fn row(&mut self, alloc: Global, who: u32) -> Result<usize, AllocError>
        ensures row { IfOk result (λ row. row_of self.new who ≡ Some row) }
        ensures same { (serial : ℕ) → kept self.new serial ≡ kept self.old serial }
    {
        if let Some(row) = self.rows.get(who) {
            return Ok(row);
        }
        let row = self.elements.len();
        self.elements.push((who, NOTHING))?;
        match self.rows.put(who, row) {
            Ok(_) => Ok(row),
            Err(_) => {
                self.elements.pop();
                Err(AllocError)
            }
        }
    }
}

// Lets each row be that of these entries.
fn note_anew(rows: &SerialTable, elements: &mut [(u32, ElementPlaces)], entries: &[Entry])
    requires rows { (who : ℕ) → get rows.now who ≡ row_of elements.old who }
    requires few { length entries.now ≤ limits.DIARY_ENTRIES }
    ensures same { (who : ℕ) → row_of elements.new who ≡ row_of elements.old who }
    ensures kept { (who : ℕ) → kept elements.new who ≡ (if is_some (row_of elements.old who)
        then element_of entries.now who else NOTHING) }
{
    clear_each(elements);
    note_each(rows, elements, entries);
}

// Lets each row have no entries.
fn clear_each(elements: &mut [(u32, ElementPlaces)])
    ensures { elements.new ≡ map cleared elements.old }
{
    for row in elements.iter_mut() {
        row.1 = NOTHING;
    }
}

// Takes entries into rows that have none.
fn note_each(rows: &SerialTable, elements: &mut [(u32, ElementPlaces)], entries: &[Entry])
    requires rows { (who : ℕ) → get rows.now who ≡ row_of elements.old who }
    requires none { (who : ℕ) → kept elements.old who ≡ NOTHING }
    requires few { length entries.now ≤ limits.DIARY_ENTRIES }
    ensures same { (who : ℕ) → row_of elements.new who ≡ row_of elements.old who }
    ensures kept { (who : ℕ) → kept elements.new who ≡ (if is_some (row_of elements.old who)
        then element_of entries.now who else NOTHING) }
{
    for place in 0..entries.len() {
        note_step(rows, elements, entries[place].step, place);
    }
}

// Takes the step of the entry at a place into the row of its element, where it has one.
fn note_step(rows: &SerialTable, elements: &mut [(u32, ElementPlaces)], step: Step, place: usize)
    requires rows { (who : ℕ) → get rows.now who ≡ row_of elements.old who }
    requires place { place < limits.DIARY_ENTRIES }
    requires few { (who : ℕ) → IfSome (kept elements.old who).repeats (λ repeats.
        repeats ≤ place) }
    ensures same { (who : ℕ) → row_of elements.new who ≡ row_of elements.old who }
    ensures kept { (who : ℕ) → kept elements.new who ≡ (if is_some (row_of elements.old who)
        then noted_by (subject step) place who (kept elements.old who)
        else kept elements.old who) }
{
    let Some((who, kind)) = subject(&step) else {
        return;
    };
    if let Some(row) = rows.get(who) {
        elements[row].1.note(kind, place);
    }
}
