//! The elements with their intervals, what comes of each, and what comes first.

ghost use Rattle.std.specs.Prelude.{◌≡◌, ◌==◌, ◌<◌, Some, map, length, slice_get, IfOk, IfSome};
ghost use Rattle.std.specs.List.{position};
ghost use Rattle.smil_model.specs.document.Document.{elements};
ghost use Rattle.smil_model.specs.declared.happening.Key.{Key as AnyKey};
ghost use Rattle.smil_laws.specs.Near.{IsIntervalNear};
ghost use Rattle.smil_rounds.specs.declared.current_rows.CurrentRow.{CurrentRow as AnyRow};
ghost use Rattle.smil_rounds.specs.Rows.{IsChosenBy, empty_row};
ghost use Rattle.smil_nodes.specs.Schedule.{ComesFirst, coming_number, row_put, slot_of};
ghost use Rattle.smil_nodes.specs.Slots.{IsNumber, earlier_of};

use super::due_tree::{DueTree, number_of, place_in, repeats};
use smil_element::{DueChange, DueChanges, Intervals};
use smil_model::{Duplicate, Interval, Key};
use smil_past::Past;
use smil_rounds::current_rows::{CurrentRow, CurrentRows};
use std::alloc::{AllocError, Global};
use std::marker::Model;

/// The elements of a document in document order, each with its interval, whose numbers are from
/// -10^12 to 10^12, and what comes of it, with a tree of the keys of all that comes, the least
/// first; seen as the list of the rows.
pub struct Schedule {
    known: CurrentRows,
    /// A slot a row: the number of the key of what comes first of it.
    due: DueTree,
}

impl Drop for Schedule {
    // Dropped by a call of its own, not field by field in each function that drops one.
    fn drop(self) {
        let Schedule {
            known: _known,
            due: _due,
        } = self;
    }
}

impl Model for Schedule {
    ghost use Rattle.std.specs.Prelude.{List};
    ghost use Rattle.smil_rounds.specs.declared.current_rows.CurrentRow.{CurrentRow as AnyRow};
    ghost use Rattle.smil_nodes.specs.Schedule.{IsScheduled};

    ghost Value = { List AnyRow };

    ghost view = { λ a. a.known };

    ghost invariant = { λ a. IsScheduled a.known a.due };
}

impl Intervals for Schedule {
    ghost use Rattle.smil_rounds.specs.Current.{interval_in};

    ghost given = { interval_in };

    fn interval(&self, who: u32) -> Option<Interval> {
        self.known.interval(who)
    }
}

impl Duplicate for Schedule {
    fn copy(&self) -> Result<Self, AllocError> {
        Ok(Schedule {
            known: self.known.copy()?,
            due: self.due.copy()?,
        })
    }
}

impl Schedule {
    /// The elements of a document without intervals, of which nothing comes, unless memory runs
    /// out.
    pub fn of(alloc: Global, past: &Past) -> Result<Schedule, AllocError>
        ensures { IfOk result (λ schedule. schedule
            ≡ map empty_row (elements past.now.document.nodes)) }
    {
        past.possible();
        let known = CurrentRows::of(alloc, past)?;
        let due = DueTree::new(alloc, known.rows().len())?;
        Ok(Schedule { known, due })
    }

    /// The rows. It takes no memory.
    pub fn rows(&self) -> &[CurrentRow]
        ensures { result.now ≡ self.now }
    {
        self.known.rows()
    }

    /// The index of the row of an element; None exactly where it has none. It takes no memory.
    pub fn index_of(&self, who: u32) -> Option<usize>
        ensures { result ≡ position (λ (r : AnyRow). r.serial == who) self.now }
    {
        self.known.index_of(who)
    }

    /// The row at an index. It takes no memory.
    pub fn row(&self, index: usize) -> &CurrentRow
        requires { index < length self.now }
        ensures row { slice_get self.now index ≡ Some result.now }
        ensures near { IfSome result.now.interval IsIntervalNear }
    {
        &self.known.rows()[index]
    }

    /// Puts an interval, and what comes, in the row at an index. It takes no memory, and log n steps
    /// at most for n elements.
    #[inline(always)]
    pub fn put(&mut self, index: usize, interval: Option<Interval>, comings: &DueChanges)
        requires index { index < length self.old }
        requires near { IfSome interval IsIntervalNear }
        ensures { self.new ≡ row_put self.old index interval comings.now }
    {
        let row = CurrentRow {
            serial: self.row(index).serial,
            interval,
            comings: *comings,
        };
        self.known.put(index, row);
        self.due.set(index, first_number(comings));
    }

    /// What comes first by the rows; where they are current and all keys are near, None exactly where
    /// nothing comes. It takes no memory.
    pub fn first(&self) -> Option<DueChange>
        ensures { ComesFirst self.now result }
    {
        let number = self.due.least()?;
        coming_at(self.known.rows(), place_in(number), repeats(number))
    }
}

// The number of the key of what comes first, if something does.
fn first_number(comings: &DueChanges) -> Option<u64>
    ensures value { result ≡ slot_of comings.now }
    ensures few { IfSome result IsNumber }
{
    earlier(number(comings.moved()), number(comings.repeat()))
}

// The number of the key of what comes, if something does.
fn number(coming: Option<DueChange>) -> Option<u64>
    ensures value { result ≡ coming_number coming }
    ensures few { IfSome result IsNumber }
{
    match coming {
        Some(coming) => Some(number_of(coming.key)),
        None => None,
    }
}

// The lesser of two numbers that may each be absent.
fn earlier(one: Option<u64>, other: Option<u64>) -> Option<u64>
    ensures { result ≡ earlier_of one other }
{
    match (one, other) {
        (Some(least), Some(number)) if number < least => other,
        (Some(_), _) => one,
        (None, _) => other,
    }
}

// What comes of the row at an index: the begin or end where that repeats as asked, else the repeat.
fn coming_at(rows: &[CurrentRow], index: usize, repeats: bool) -> Option<DueChange>
    ensures { (row : AnyRow) → slice_get rows.now index ≡ Some row
        → IsChosenBy (λ (k : AnyKey). k.repeat) repeats row.comings.moved row.comings.repeat
        result }
{
    let row = rows.get(index)?;
    chosen(repeats, &row.comings)
}

// Of what comes of an element the begin or end where that repeats as asked, else the repeat.
fn chosen(repeats: bool, comings: &DueChanges) -> Option<DueChange>
    ensures { IsChosenBy (λ (k : AnyKey). k.repeat) repeats comings.now.moved comings.now.repeat
        result }
{
    match comings.moved() {
        Some(moved) if moved.key.repeat == repeats => Some(moved),
        _ => comings.repeat(),
    }
}
