//! The plain table: every element is evaluated after each happening.

ghost use Rattle.std.specs.Prelude.{◌≡◌, ◌≤◌, true, OnOk, OnErr, IfOk};
ghost use Rattle.smil_model.specs.diary.Lawful.{has_element};
ghost use Rattle.smil_past.specs.Past.{IsPresent, history_of};
ghost use Rattle.smil_rounds.specs.Current.{IsCurrent, interval_in};
ghost use Rattle.smil_cells.specs.Evaluated.{AreChanged};
ghost use Rattle.smil_rounds.specs.Round.{AreOfElements, IsRowEvaluated, StayUnchanged, due_in, with_key};
ghost use Rattle.smil_plain.specs.Plain.{IsNoted, IsTold};

use smil_cells::{Cells, Since, Table};
use smil_due::DueQueue;
use smil_element::{DueChange, Intervals, Present, Room};
use smil_interval::{Steps, is_same_interval};
use smil_model::{Duplicate, Interval, Serials};
use smil_past::Past;
use smil_rounds::current_rows::{CurrentRow, CurrentRows, IndexedElement, row_of};
use std::alloc::{AllocError, Global};
use std::sync::ledger::Ledger;

/// Cells over the plain table.
pub type PlainCells = Cells<PlainTable>;

/// A table whose elements are all evaluated after each happening, in an order in which the
/// dependencies that are not looped go forward.
pub struct PlainTable {
    known: CurrentRows,
    due: DueQueue,
    /// Where a mark stands and something changed since, the rows and the queue as they were there.
    noted: Option<(CurrentRows, DueQueue)>,
    has_mark: bool,
    room: Room,
    alloc: Global,
}

impl Drop for PlainTable {
    // Dropped by a call of its own, not field by field in each function that drops one.
    fn drop(self) {
        let PlainTable {
            known: _known,
            due: _due,
            noted: _noted,
            has_mark: _has_mark,
            room: _room,
            alloc: _alloc,
        } = self;
    }
}

impl Table for PlainTable {
    ghost use Rattle.std.specs.Prelude.{false};
    ghost use Rattle.smil_rounds.specs.Current.{IsCurrent, stays_current};
    ghost use Rattle.smil_plain.specs.Plain.{IsMarked};

    ghost is_current = { λ t h now. IsCurrent t.known t.due h now };

    ghost is_marked = { λ t h now. IsMarked t.has_mark t.noted t.known t.due h now };

    ghost has_mark = { λ t. t.has_mark };

    ghost counts = { false };

    fn of<L: Ledger>(
        alloc: Global,
        past: &Past,
        moment: i64,
        steps: &mut Steps<L>,
    ) -> Result<Self, AllocError> {
        let mut table = PlainTable {
            known: CurrentRows::of(alloc, past)?,
            due: DueQueue::new(alloc),
            noted: None,
            has_mark: false,
            room: Room::new(alloc),
            alloc,
        };
        let mut changed = Serials::new(alloc);
        table.take_all(past, moment, &mut changed, steps)?;
        Ok(table)
    }

    fn refresh<L: Ledger>(
        &mut self,
        since: &Since<'_>,
        changed: &mut Serials,
        steps: &mut Steps<L>,
    ) -> Result<(), AllocError> {
        self.note()?;
        self.take_all(since.past, since.moment, changed, steps)
    }

    fn interval(&self, who: u32) -> Option<Interval> {
        self.known.interval(who)
    }

    fn first(&self) -> Option<DueChange> {
        self.known.coming(self.due.least()?)
    }

    fn copy(&self) -> Result<Self, AllocError> {
        Ok(PlainTable {
            known: self.known.copy()?,
            due: self.due.copy()?,
            noted: None,
            has_mark: false,
            room: Room::new(self.alloc),
            alloc: self.alloc,
        })
    }

    fn mark(&mut self) {
        self.noted = None;
        self.has_mark = true;
    }

    fn back(&mut self) {
        if let Some((known, due)) = self.noted.take() {
            self.known = known;
            self.due = due;
        }
        self.has_mark = false;
    }

    fn forget(&mut self) {
        self.noted = None;
        self.has_mark = false;
    }

    ghost stays = { λ t h k m n same is. stays_current t.known t.due h k m n same is };
}

impl PlainTable {
    // Notes intervals and keys, where a mark stands and they are not noted yet.
    fn note(&mut self) -> Result<(), AllocError>
        ensures known { self.new.known ≡ self.old.known }
        ensures due { self.new.due ≡ self.old.due }
        ensures has_mark { self.new.has_mark ≡ self.old.has_mark }
        ensures noted { OnOk result (IsNoted self.old.has_mark self.old.noted self.old.known
            self.old.due self.new.noted) }
        ensures err { OnErr result (self.new.noted ≡ self.old.noted) }
    {
        if self.has_mark && self.noted.is_none() {
            let known = self.known.copy()?;
            let due = self.due.copy()?;
            self.noted = Some((known, due));
        }
        Ok(())
    }

    // Evaluates all elements and puts their keys into a new queue. The elements whose intervals
    // change are appended to `changed`.
    fn take_all<L: Ledger>(
        &mut self,
        past: &Past,
        moment: i64,
        changed: &mut Serials,
        steps: &mut Steps<L>,
    ) -> Result<(), AllocError>
        requires moment { IsPresent past.now moment }
        requires of_elements { AreOfElements past.now.document.nodes self.old.known }
        ensures current { OnOk result (IsCurrent self.new.known self.new.due (history_of past.now)
            moment) }
        ensures changed { OnOk result (StayUnchanged changed.old changed.new self.old.known
            self.new.known) }
        ensures told { OnOk result (AreChanged changed.old changed.new
            (interval_in self.old.known) (interval_in self.new.known)) }
        ensures noted { self.new.noted ≡ self.old.noted }
        ensures has_mark { self.new.has_mark ≡ self.old.has_mark }
        ensures counted { steps.old ≤ steps.new }
    {
        past.possible();
        for who in past.graph().order() {
            let present = Present {
                past,
                who: *who,
                moment,
            };
            self.take_one(&present, changed, steps)?;
        }
        self.due = due_of(self.alloc, self.known.rows())?;
        Ok(())
    }

    // Evaluates an element, and appends it to `changed` where its interval changes.
    fn take_one<L: Ledger>(
        &mut self,
        present: &Present<'_>,
        changed: &mut Serials,
        steps: &mut Steps<L>,
    ) -> Result<(), AllocError>
        requires element { has_element present.now.past.now.document.nodes present.now.who ≡ true }
        requires moment { IsPresent present.now.past.now present.now.moment }
        requires of_elements { AreOfElements present.now.past.now.document.nodes self.old.known }
        ensures taken { OnOk result (IsRowEvaluated (history_of present.now.past.now)
            present.now.moment present.now.who self.old.known self.new.known) }
        ensures changed { OnOk result (StayUnchanged changed.old changed.new self.old.known
            self.new.known) }
        ensures told { OnOk result (IsTold present.now.who changed.old changed.new self.old.known
            self.new.known) }
        ensures noted { self.new.noted ≡ self.old.noted }
        ensures has_mark { self.new.has_mark ≡ self.old.has_mark }
        ensures counted { steps.old ≤ steps.new }
    {
        let who = present.who;
        present.past.possible();
        let index = self.known.index_of(who).unwrap();
        let element = IndexedElement {
            present: *present,
            index,
        };
        let row = row_of(&element, &self.known, &mut self.room, steps)?;
        if !is_same_interval(self.known.interval(who), row.interval) {
            changed.push(who)?;
        }
        self.known.put(index, row);
        Ok(())
    }
}

// The keys of what comes of the elements that have these rows.
fn due_of(alloc: Global, rows: &[CurrentRow]) -> Result<DueQueue, AllocError>
    ensures { IfOk result (λ due. due ≡ due_in rows.now) }
{
    let mut due = DueQueue::new(alloc);
    for row in rows {
        put_key(&mut due, row.comings.moved())?;
        put_key(&mut due, row.comings.repeat())?;
    }
    Ok(due)
}

// Puts in the key of what comes, if something does.
fn put_key(due: &mut DueQueue, coming: Option<DueChange>) -> Result<(), AllocError>
    ensures { OnOk result (due.new ≡ with_key due.old coming) }
{
    if let Some(coming) = coming {
        due.put(coming.key)?;
    }
    Ok(())
}
