//! The last entry of a diary taken into the rows.

ghost use Rattle.std.specs.Prelude.{◌≡◌, ℕ, List, [], ◌∷◌, ◌++◌, OnOk, OnErr, IfOk, Some, true, false};
ghost use Rattle.smil_model.specs.declared.diary.Entry.{Entry as AnyEntry};
ghost use Rattle.smil_model.specs.declared.diary.LogEntry.{LogEntry as AnyLogEntry};
ghost use Rattle.smil_model.specs.document.Document.{serials, time_children};
ghost use Rattle.smil_model.specs.reach.Reach.{key_of, subject_of};
ghost use Rattle.smil_laws.specs.Resolved.{is_opening};
ghost use Rattle.smil_instances.specs.SettledTimes.{settled_rows};
ghost use Rattle.smil_instances.specs.Updates.{BearsNone};
ghost use Rattle.smil_instances.specs.Sources.{AreThose};
ghost use Rattle.smil_instances.specs.Entry.{HasArrived, HasDependents};
ghost use Rattle.smil_instances.specs.Intake.{history_of, history_with, is_concerned_cell, keyed_by, AreRowsOf, HaveItems};
ghost use Rattle.smil_instances.specs.Noted.{AreNoted, KeepAll};
ghost use Rattle.smil_instance_rows.specs.Changes.{Fits, with_adds};
ghost use Rattle.smil_instance_rows.specs.Notes.{GoesBackTheSame, HasNoted};

use super::additions::adds_of;
use super::arrival::Arrival;
use super::dependents::Dependents;
use super::laws::{bases_are_elements, entries_are_taken_in, only_concerned_items_change};
use super::noting::{note_adds, note_each};
use super::remainder::trim_each;
use super::steps::{key, subject};
use smil_instance_rows::{Add, Cell, RowNotes, Rows, add_each, undo_each};
use smil_model::Step;
use smil_tree::Tree;
use std::alloc::AllocError;

/// Takes in the last entry of the book: adds what it gives to the items that it concerns, and then
/// takes out what is no longer kept. Where memory runs out the rows are as before. `adds` is room
/// for what it gives. Where `notes` have a mark, rows are noted so that going back to it gives the
/// same.
pub(crate) fn take_in(
    rows: &mut Rows,
    adds: &mut Vec<Add>,
    arrival: &Arrival<'_>,
    notes: &mut RowNotes,
) -> Result<(), AllocError>
    requires hand { HasArrived arrival.now }
    requires dependents { HasDependents arrival.now }
    requires rows { (before : List AnyEntry) (y : AnyEntry)
        → arrival.now.history.book.now ≡ before ++ y ∷ []
        → rows.old ≡ settled_rows (history_with arrival.now.history before) }
    ensures ok { OnOk result (rows.new ≡ settled_rows
        (history_with arrival.now.history arrival.now.history.book.now)) }
    ensures err { OnErr result (rows.new ≡ rows.old) }
    ensures back { GoesBackTheSame rows.old notes.old rows.new notes.new }
{
    arrival.history.tree.valid();
    entries_are_taken_in();
    only_concerned_items_change();
    let entry = arrival.last_entry();
    let cells = concerned(rows, arrival, entry.step);
    adds_of(cells, arrival, adds)?;
    // Only a birth takes anything out.
    if bears_none(arrival.history.tree, entry.step) {
        return add_marked(rows, adds.as_slice(), notes);
    }
    let loses = add_noted(rows, cells, adds.as_slice(), arrival, notes)?;
    if !loses {
        return Ok(());
    }
    trim_each(rows, cells, arrival);
    Ok(())
}

// Whether a step is a birth of no element: no begin or repeat of an element with time children.
fn bears_none(tree: &Tree, step: Step) -> bool
    ensures { result ≡ true → BearsNone tree.now.nodes step }
{
    match step {
        Step::Began { who, .. } => is_childless(tree, who),
        Step::Repeated { who, .. } => is_childless(tree, who),
        _ => true,
    }
}

// Whether an element has no time children.
fn is_childless(tree: &Tree, who: u32) -> bool
    ensures { result ≡ true → serials (time_children tree.now.nodes who) ≡ [] }
{
    tree.time_children(who).is_empty()
}

// Makes these adds; where there is a mark, notes the rows that get times of places before it. Where
// memory runs out the rows are as before.
fn add_marked(rows: &mut Rows, adds: &[Add], notes: &mut RowNotes) -> Result<(), AllocError>
    requires { Fits rows.old adds.now }
    ensures ok { OnOk result (rows.new ≡ with_adds rows.old adds.now) }
    ensures err { OnErr result (rows.new ≡ rows.old) }
    ensures back { GoesBackTheSame rows.old notes.old rows.new notes.new }
{
    note_adds(rows, adds, notes)?;
    add_each(rows, adds)?;
    Ok(())
}

// Makes these adds, which are what a birth gives to these cells. Where there is a mark, notes the
// rows that get times of places before it, and those from which something is to be taken out then;
// where memory runs out the rows are as before. Whether something may be to be taken out.
fn add_noted(
    rows: &mut Rows,
    cells: &[Cell],
    adds: &[Add],
    arrival: &Arrival<'_>,
    notes: &mut RowNotes,
) -> Result<bool, AllocError>
    requires dependents { HasDependents arrival.now }
    requires rows { AreRowsOf arrival.now.history.tree.now.nodes rows.old }
    requires fits { Fits rows.old adds.now }
    requires cells { HaveItems arrival.now.history.tree.now.nodes cells.now }
    ensures ok { OnOk result (rows.new ≡ with_adds rows.old adds.now) }
    ensures err { OnErr result (rows.new ≡ rows.old) }
    ensures back { GoesBackTheSame rows.old notes.old rows.new notes.new }
    ensures noted { OnOk result ((log : List AnyLogEntry) (place : ℕ) → notes.old.mark ≡ Some place
        → AreNoted (history_of arrival.now.history.tree.now log arrival.now.history.book.now)
        rows.new notes.new.notes cells.now) }
    ensures kept { IfOk result (λ loses. loses ≡ false → (log : List AnyLogEntry) → KeepAll
        (history_of arrival.now.history.tree.now log arrival.now.history.book.now) rows.new
        cells.now) }
{
    note_adds(rows, adds, notes)?;
    add_each(rows, adds)?;
    match note_losses(rows, cells, arrival, notes) {
        Ok(loses) => Ok(loses),
        Err(error) => {
            undo_each(rows, adds, adds.len());
            Err(error)
        }
    }
}

// Where there is a mark, notes the rows from which something is to be taken out; whether something
// may be.
fn note_losses(
    rows: &Rows,
    cells: &[Cell],
    arrival: &Arrival<'_>,
    notes: &mut RowNotes,
) -> Result<bool, AllocError>
    requires dependents { HasDependents arrival.now }
    requires rows { AreRowsOf arrival.now.history.tree.now.nodes rows.now }
    requires cells { HaveItems arrival.now.history.tree.now.nodes cells.now }
    ensures more { HasNoted rows.now notes.old notes.new }
    ensures noted { OnOk result ((log : List AnyLogEntry) (place : ℕ) → notes.old.mark ≡ Some place
        → AreNoted (history_of arrival.now.history.tree.now log arrival.now.history.book.now)
        rows.now notes.new.notes cells.now) }
    ensures kept { IfOk result (λ loses. loses ≡ false → (log : List AnyLogEntry) → KeepAll
        (history_of arrival.now.history.tree.now log arrival.now.history.book.now) rows.now
        cells.now) }
{
    if notes.place().is_none() {
        return Ok(true);
    }
    note_each(rows, cells, arrival, notes)
}

// The items that an entry with this step concerns.
fn concerned<'a>(rows: &Rows, arrival: &Arrival<'a>, step: Step) -> &'a [Cell]
    requires rows { AreRowsOf arrival.now.history.tree.now.nodes rows.now }
    requires dependents { HasDependents arrival.now }
    ensures those { AreThose (is_concerned_cell arrival.now.history.tree.now.nodes (is_opening step)
        (subject_of arrival.now.history.log.now step)
        (key_of arrival.now.history.log.now step)) result.now }
{
    arrival.history.tree.valid();
    bases_are_elements();
    let Some(on) = subject(arrival.history.log, step) else {
        return keyed(arrival.dependents, key(arrival.history.log, step));
    };
    match rows.index_of(on) {
        Some(row) => arrival.dependents.cells(row, is_birth(step)),
        None => &[],
    }
}

// The items that wait for a key, if there is one.
fn keyed(dependents: &Dependents, key: Option<u8>) -> &[Cell]
    ensures { result.now ≡ keyed_by dependents.now key }
{
    match key {
        Some(key) => dependents.key_cells(key),
        None => &[],
    }
}

// Whether a step is a begin or a repeat, and so a birth of its element's time children.
fn is_birth(step: Step) -> bool
    ensures { result ≡ is_opening step }
{
    matches!(step, Step::Began { .. } | Step::Repeated { .. })
}
