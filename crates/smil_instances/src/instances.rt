//! The instance times that a diary alone gives, kept while entries are appended.

ghost use Rattle.std.specs.Prelude.{◌≡◌, ◌<◌, ℤ, List, [], ◌∷◌, ◌++◌, OnOk, OnErr, IfOk, length, true};
ghost use Rattle.smil_model.specs.declared.diary.Entry.{Entry as AnyEntry};
ghost use Rattle.smil_model.specs.declared.diary.LogEntry.{LogEntry as AnyLogEntry};
ghost use Rattle.smil_model.specs.declared.document.Node.{Node as AnyNode};
ghost use Rattle.smil_model.specs.diary.Diary.{History};
ghost use Rattle.smil_model.specs.interval.Instances.{settled_begins, settled_ends};
ghost use Rattle.smil_instance_rows.specs.Readings.{begins_in, ends_in, first_after, first_from, times_in};
ghost use Rattle.smil_model.specs.interval.Intervals.{has_any};
ghost use Rattle.smil_instances.specs.SettledTimes.{settled_rows};
ghost use Rattle.smil_instance_rows.specs.Notes.{GoesBackTheSame, no_mark, rows_back};
ghost use Rattle.smil_stretch.specs.Clocks.{IsLawfulFor};
ghost use Rattle.smil_instances.specs.Entry.{IsAtHand};
ghost use Rattle.smil_instances.specs.Dependents.{AreDependentsOf};
ghost use Rattle.smil_instances.specs.Instances.{IsElementAt, IsElementOf, IsSettled, settled_times};
ghost use Rattle.smil_instances.specs.Intake.{history_with};
ghost use Rattle.smil_instances.specs.Spread.{IsIndex};
ghost use Rattle.smil_model.specs.document.Document.{elements, serials};
ghost use Rattle.std.specs.FinMap.{get};

use super::arrival::Arrival;
use super::dependents::Dependents;
use super::elements::places_of;
use super::history::DocumentHistory;
use super::idle::idle_rows;
use super::intake::take_in;
use super::laws::rows_tell_instances;
use smil_diary::Book;
use smil_instance_rows::{Add, RowNotes, Rows};
use smil_model::{Duplicate, Edge, Entry, Log, SerialTable, Time};
use smil_stretch::Clocks;
use smil_tree::Tree;
use std::alloc::{AllocError, Global};
use std::marker::Model;
use std::rc::Rc;

/// The instance times that a diary alone gives to each element of a document, kept item by item
/// while entries are appended; seen as a row for each element, and what its items follow from.
pub struct Instances {
    rows: Rows,
    /// A copy has the same ones, since the document alone gives them.
    dependents: Rc<Dependents>,
    /// Room for what an entry adds.
    adds: Vec<Add>,
    alloc: Global,
}

impl Drop for Instances {
    // Dropped by a call of its own, not field by field in each function that drops one.
    fn drop(self) {
        let Instances {
            rows: _rows,
            dependents: _dependents,
            adds: _adds,
            alloc: _alloc,
        } = self;
    }
}

impl Model for Instances {
    ghost use Rattle.smil_instances.specs.Instances.{SettledInstances};

    ghost Value = { SettledInstances };

    ghost view = { λ a. record { rows = a.rows; dependents = a.dependents.value } };
}

impl Duplicate for Instances {
    fn copy(&self) -> Result<Self, AllocError> {
        Ok(Instances {
            rows: self.rows.copy()?,
            dependents: self.dependents.clone()?,
            adds: Vec::new(self.alloc),
            alloc: self.alloc,
        })
    }
}

impl Instances {
    /// The instance times of a document to which nothing has happened yet, with the places of its
    /// elements; unless memory runs out. It takes memory for each element and for each item.
    pub fn new(alloc: Global, tree: &Tree, places: Rc<SerialTable>) -> Result<Instances, AllocError>
        requires { IsIndex (serials (elements tree.now.nodes)) (get places.value) }
        ensures { (log : List AnyLogEntry)
            → IfOk result (λ value. IsSettled value tree.now log []) }
    {
        let dependents = Rc::new(alloc, Dependents::of(alloc, tree, places.as_ref())?)?;
        Instances::over(alloc, tree, places, dependents)
    }

    /// The instance times of an edited document to which nothing has happened yet, with the places of
    /// its elements; unless memory runs out. Where `shares` says that its items follow from the same
    /// as the items here, that is shared, and else made anew. It takes memory for each element and
    /// for each item.
    pub fn revised(
        &self,
        after: &Tree,
        places: Rc<SerialTable>,
        shares: bool,
    ) -> Result<Instances, AllocError>
        requires places { IsIndex (serials (elements after.now.nodes)) (get places.value) }
        requires shares { shares ≡ true → AreDependentsOf after.now.nodes self.now.dependents }
        ensures { (log : List AnyLogEntry)
            → IfOk result (λ value. IsSettled value after.now log []) }
    {
        let dependents = self.dependents_of(after, places.as_ref(), shares)?;
        Instances::over(self.alloc, after, places, dependents)
    }

    // What the items of an edited document, with the places of its elements, follow from: the same
    // where `shares` says so.
    fn dependents_of(
        &self,
        after: &Tree,
        places: &SerialTable,
        shares: bool,
    ) -> Result<Rc<Dependents>, AllocError>
        requires places { IsIndex (serials (elements after.now.nodes)) (get places.now) }
        requires shares { shares ≡ true → AreDependentsOf after.now.nodes self.now.dependents }
        ensures { IfOk result (λ dependents. AreDependentsOf after.now.nodes dependents.value) }
    {
        if shares {
            let shared = self.dependents.clone()?;
            Ok(shared)
        } else {
            let own = Dependents::of(self.alloc, after, places)?;
            Ok(Rc::new(self.alloc, own)?)
        }
    }

    // The instance times of a document to which nothing has happened yet.
    fn over(
        alloc: Global,
        tree: &Tree,
        places: Rc<SerialTable>,
        dependents: Rc<Dependents>,
    ) -> Result<Instances, AllocError>
        requires places { IsIndex (serials (elements tree.now.nodes)) (get places.value) }
        requires dependents { AreDependentsOf tree.now.nodes dependents.value }
        ensures { (log : List AnyLogEntry)
            → IfOk result (λ value. IsSettled value tree.now log []) }
    {
        Ok(Instances {
            rows: idle_rows(alloc, tree, dependents.as_ref(), places)?,
            dependents,
            adds: Vec::new(alloc),
            alloc,
        })
    }

    /// Takes in the last entry of the book, by the clocks before it: the instance times are those
    /// of the book without it, and then of the whole book. Where memory runs out all is as before.
    /// It touches the items alone that the entry can concern. Where `notes` have a mark, going back
    /// to it still gives the same: it notes a row before it takes something out of it.
    pub fn note(
        &mut self,
        tree: &Tree,
        clocks: &Clocks,
        log: &Log,
        book: &Book,
        notes: &mut RowNotes,
    ) -> Result<(), AllocError>
        requires hand { IsAtHand tree.now clocks.now log.now book.now }
        requires taken { (before : List AnyEntry) (y : AnyEntry) → book.now ≡ before ++ y ∷ []
            → IsSettled self.old tree.now log.now before }
        ensures ok { OnOk result (IsSettled self.new tree.now log.now book.now) }
        ensures err { OnErr result (self.new ≡ self.old) }
        ensures back { GoesBackTheSame self.old.rows notes.old self.new.rows notes.new }
    {
        let arrival = Arrival {
            history: DocumentHistory { tree, log, book },
            dependents: self.dependents.as_ref(),
            clocks,
        };
        take_in(&mut self.rows, &mut self.adds, &arrival, notes)
    }

    /// Makes these the instance times of the book, whatever they were: the same as noting its
    /// entries one after another from the first. The document is the one that `new` was given.
    /// Where memory runs out all is as before.
    pub fn rebuild(&mut self, tree: &Tree, log: &Log, book: &Book) -> Result<(), AllocError>
        requires lawful { IsLawfulFor tree.now book.now }
        requires document { AreDependentsOf tree.now.nodes self.old.dependents }
        ensures ok { OnOk result (IsSettled self.new tree.now log.now book.now) }
        ensures err { OnErr result (self.new ≡ self.old) }
    {
        self.rows = self.rows_of(&DocumentHistory { tree, log, book })?;
        Ok(())
    }

    // The rows of the document after the entries of its book, each taken in by the clocks before
    // it.
    fn rows_of(&self, history: &DocumentHistory<'_>) -> Result<Rows, AllocError>
        requires lawful { IsLawfulFor history.now.tree.now history.now.book.now }
        requires document { AreDependentsOf history.now.tree.now.nodes self.now.dependents }
        ensures { IfOk result (λ rows. rows
            ≡ settled_rows (history_with history.now history.now.book.now)) }
    {
        let DocumentHistory { tree, log, book } = *history;
        let dependents = self.dependents();
        let places = Rc::new(self.alloc, places_of(self.alloc, tree, tree.elements())?)?;
        let mut rows = idle_rows(self.alloc, tree, dependents, places)?;
        let mut adds = Vec::new(self.alloc);
        let mut notes = self.notes()?;
        let mut front = Book::new(self.alloc);
        let mut clocks = Clocks::of(self.alloc, tree, &front)?;
        for entry in book.entries() {
            push(&mut front, *entry)?;
            let arrival = Arrival {
                history: DocumentHistory {
                    tree,
                    log,
                    book: &front,
                },
                dependents,
                clocks: &clocks,
            };
            take_in(&mut rows, &mut adds, &arrival, &mut notes)?;
            clocks.follow(*entry);
        }
        Ok(rows)
    }

    /// Notes without a mark, for these instance times; unless memory runs out.
    pub fn notes(&self) -> Result<RowNotes, AllocError>
        ensures { IfOk result (λ notes. notes ≡ no_mark) }
    {
        RowNotes::of(self.alloc, self.rows.len())
    }

    /// Goes back to the mark that the notes have, and takes it away. It takes no memory, and a step
    /// for each item and for each time that came since.
    pub fn back(&mut self, notes: &mut RowNotes)
        ensures rows { self.new ≡ record {
          rows = rows_back self.old.rows notes.old;
          dependents = self.old.dependents;
        } }
        ensures none { notes.new ≡ no_mark }
    {
        notes.back(&mut self.rows);
    }

    /// What the items of the document follow from. It takes no memory.
    pub fn dependents(&self) -> &Dependents
        ensures { result.now ≡ self.now.dependents }
    {
        self.dependents.as_ref()
    }

    /// The begins of an element, in milliseconds on the clock of its time parent, in rising order;
    /// none where there is no such element. It takes no memory.
    pub fn begins(&self, who: u32) -> &[i64]
        ensures value { result.now ≡ begins_in self.now.rows who }
        ensures model { (h : History) (now : ℤ) (e : AnyNode) → IsElementOf self.now who h e
            → result.now ≡ settled_begins h now e }
    {
        rows_tell_instances();
        self.rows.begins(who)
    }

    /// The ends of an element, in milliseconds on the clock of its time parent, in rising order,
    /// with indefinite last; none where there is no such element. It takes no memory.
    pub fn ends(&self, who: u32) -> &[Time]
        ensures value { result.now ≡ ends_in self.now.rows who }
        ensures model { (h : History) (now : ℤ) (e : AnyNode) → IsElementOf self.now who h e
            → result.now ≡ settled_ends h now e }
    {
        rows_tell_instances();
        self.rows.ends(who)
    }

    /// The begins of the element at an index among the elements in document order, from 0: in
    /// milliseconds on the clock of its time parent, in rising order. It takes no look-up, and no
    /// memory.
    pub fn begins_at(&self, index: usize) -> &[i64]
        requires { index < length self.now.rows }
        ensures { (h : History) (now : ℤ) (e : AnyNode) → IsElementAt self.now index h e
            → result.now ≡ settled_begins h now e }
    {
        self.rows.begins_at(index)
    }

    /// The ends of the element at an index among the elements in document order, from 0: in
    /// milliseconds on the clock of its time parent, in rising order, with indefinite last. It takes
    /// no look-up, and no memory.
    pub fn ends_at(&self, index: usize) -> &[Time]
        requires { index < length self.now.rows }
        ensures { (h : History) (now : ℤ) (e : AnyNode) → IsElementAt self.now index h e
            → result.now ≡ settled_ends h now e }
    {
        self.rows.ends_at(index)
    }

    /// The first begin or end of an element that is not less than the value, in milliseconds on the
    /// clock of its time parent; unresolved exactly where there is none. It takes no memory, and
    /// log n steps for n of them.
    pub fn first_from(&self, who: u32, side: Edge, value: i64) -> Time
        ensures value { result ≡ first_from value (times_in self.now.rows who side) }
        ensures model { (h : History) (now : ℤ) (e : AnyNode) → IsElementOf self.now who h e
            → result ≡ first_from value (settled_times h now e side) }
    {
        rows_tell_instances();
        self.rows.first_from(who, side, value)
    }

    /// The first begin or end of an element that is greater than the value, in milliseconds on the
    /// clock of its time parent; unresolved exactly where there is none. It takes no memory, and
    /// log n steps for n of them.
    pub fn first_after(&self, who: u32, side: Edge, value: i64) -> Time
        ensures value { result ≡ first_after value (times_in self.now.rows who side) }
        ensures model { (h : History) (now : ℤ) (e : AnyNode) → IsElementOf self.now who h e
            → result ≡ first_after value (settled_times h now e side) }
    {
        rows_tell_instances();
        self.rows.first_after(who, side, value)
    }

    /// Whether an element has any end. It takes no memory.
    pub fn any_end(&self, who: u32) -> bool
        ensures value { result ≡ has_any (ends_in self.now.rows who) }
        ensures model { (h : History) (now : ℤ) (e : AnyNode) → IsElementOf self.now who h e
            → result ≡ has_any (settled_ends h now e) }
    {
        rows_tell_instances();
        self.rows.any_end(who)
    }
}

// Appends an entry of a book to the front of that book, which therefore is not full.
fn push(front: &mut Book, entry: Entry) -> Result<(), AllocError>
    ensures { OnOk result (front.new ≡ front.old ++ entry ∷ []) }
{
    match front.push(entry) {
        Ok(()) => Ok(()),
        Err(_) => Err(AllocError),
    }
}
