//! Rows that are noted before the last entry of a diary changes them.

ghost use Rattle.std.specs.Prelude.{◌≡◌, List, OnOk, IfOk, false};
ghost use Rattle.smil_model.specs.declared.diary.LogEntry.{LogEntry as AnyLogEntry};
ghost use Rattle.smil_instance_rows.specs.Changes.{Fits};
ghost use Rattle.smil_instance_rows.specs.Notes.{EachGoes, HasNoted};
ghost use Rattle.smil_instances.specs.Entry.{HasDependents};
ghost use Rattle.smil_instances.specs.Intake.{history_of, AreRowsOf, HasItem, HaveItems};
ghost use Rattle.smil_instances.specs.Noted.{AreNoted, IsNoted, KeepAll, KeepsAll};

use super::arrival::Arrival;
use super::items::CellItem;
use super::laws::bases_are_elements;
use super::remainder::{Remainder, remainder_of};
use smil_instance_rows::{Add, Cell, RowNotes, Rows};
use std::alloc::AllocError;

/// Where there is a mark, notes the rows to which times of places before it are to be added, unless
/// memory runs out.
pub(crate) fn note_adds(rows: &Rows, adds: &[Add], notes: &mut RowNotes) -> Result<(), AllocError>
    requires { Fits rows.now adds.now }
    ensures more { HasNoted rows.now notes.old notes.new }
    ensures each { OnOk result (EachGoes notes.new adds.now) }
{
    let Some(place) = notes.place() else {
        return Ok(());
    };
    for add in adds {
        if add.kept.place < place {
            notes.note(rows, add.cell.row)?;
        }
    }
    Ok(())
}

/// Notes the rows of those of these items from which something is to be taken out, unless memory
/// runs out; whether something may be.
pub(crate) fn note_each(
    rows: &Rows,
    cells: &[Cell],
    arrival: &Arrival<'_>,
    notes: &mut RowNotes,
) -> Result<bool, AllocError>
    requires cells { HaveItems arrival.now.history.tree.now.nodes cells.now }
    requires dependents { HasDependents arrival.now }
    requires rows { AreRowsOf arrival.now.history.tree.now.nodes rows.now }
    ensures more { HasNoted rows.now notes.old notes.new }
    ensures each { OnOk result ((log : List AnyLogEntry) → AreNoted
        (history_of arrival.now.history.tree.now log arrival.now.history.book.now) rows.now
        notes.new.notes cells.now) }
    ensures kept { IfOk result (λ loses. loses ≡ false → (log : List AnyLogEntry) → KeepAll
        (history_of arrival.now.history.tree.now log arrival.now.history.book.now) rows.now
        cells.now) }
{
    let mut loses = false;
    for cell in cells {
        loses |= note_at(rows, *cell, arrival, notes)?;
    }
    Ok(loses)
}

// Notes the row of an item if something is to be taken out of it; whether something may be.
#[inline(always)]
fn note_at(
    rows: &Rows,
    cell: Cell,
    arrival: &Arrival<'_>,
    notes: &mut RowNotes,
) -> Result<bool, AllocError>
    requires cell { HasItem arrival.now.history.tree.now.nodes cell }
    requires dependents { HasDependents arrival.now }
    requires rows { AreRowsOf arrival.now.history.tree.now.nodes rows.now }
    ensures more { HasNoted rows.now notes.old notes.new }
    ensures noted { OnOk result ((log : List AnyLogEntry) → IsNoted
        (history_of arrival.now.history.tree.now log arrival.now.history.book.now) rows.now
        notes.new.notes cell) }
    ensures kept { IfOk result (λ loses. loses ≡ false → (log : List AnyLogEntry) → KeepsAll
        (history_of arrival.now.history.tree.now log arrival.now.history.book.now) rows.now cell) }
{
    if notes.is_noted(cell.row) {
        return Ok(true);
    }
    if !loses(rows, cell, arrival) {
        return Ok(false);
    }
    notes.note(rows, cell.row)?;
    Ok(true)
}

// Whether something is to be taken out of an item.
fn loses(rows: &Rows, cell: Cell, arrival: &Arrival<'_>) -> bool
    requires cell { HasItem arrival.now.history.tree.now.nodes cell }
    requires dependents { HasDependents arrival.now }
    requires rows { AreRowsOf arrival.now.history.tree.now.nodes rows.now }
    ensures { result ≡ false → (log : List AnyLogEntry) → KeepsAll
        (history_of arrival.now.history.tree.now log arrival.now.history.book.now) rows.now cell }
{
    arrival.history.tree.valid();
    bases_are_elements();
    if rows.is_idle(cell) {
        return false;
    }
    let who = arrival.history.tree.element_at(cell.row).unwrap();
    let source = arrival.dependents.source(cell);
    let own = CellItem { cell, who, source };
    match remainder_of(own, arrival.history.tree, arrival.history.book) {
        Remainder::Last => rows.has_more(cell),
        Remainder::From { place } => rows.has_before(cell, place),
        Remainder::All => false,
    }
}
