//! A diary, with its readings.

ghost use Rattle.std.specs.Prelude.{◌≡◌, ◌≤◌, List, [], ◌∷◌, ◌++◌, length, take, OnOk, OnErr, IfOk, IfErr};
ghost use Rattle.smil_model.specs.declared.limits.TheConstants as limits;
ghost use Rattle.smil_model.specs.declared.diary.LogEntry.{LogEntry as AnyLogEntry};
ghost use Rattle.smil_diary.specs.declared.fault.BookFault.TheVariants as book_fault;
ghost use Rattle.smil_past.specs.Past.{IsPossible, MayFollow, unmarked};
ghost use Rattle.smil_instance_rows.specs.Notes.{GoesBackTheSame};
ghost use Rattle.std.specs.FinMap.{get};
ghost use Rattle.smil_model.specs.document.Document.{elements, serials};
ghost use Rattle.smil_instances.specs.Instances.{IsSettled};
ghost use Rattle.smil_instances.specs.Intake.{history_of};
ghost use Rattle.smil_stretch.specs.Clocks.{AreClocksOf};
ghost use Rattle.smil_instances.specs.Spread.{IsIndex};
ghost use Rattle.smil_past.specs.Readings.{MayGoBack};
ghost use Rattle.smil_past.specs.Chronicle.{Lags, Tells, TellsNothing};

use super::readings::Readings;
use smil_diary::{Book, BookFault};
use smil_instance_rows::RowNotes;
use smil_instances::{DocumentHistory, Instances};
use smil_model::{Duplicate, Entry, Log, SerialTable};
use smil_stretch::Clocks;
use smil_tree::Tree;
use std::alloc::{AllocError, Global};
use std::rc::Rc;

/// A diary, and its readings.
pub struct Chronicle {
    pub book: Book,
    pub readings: Readings,
}

impl Drop for Chronicle {
    // Dropped by a call of its own, not field by field in each function that drops one.
    fn drop(self) {
        let Chronicle {
            book: _book,
            readings: _readings,
        } = self;
    }
}

impl Duplicate for Chronicle {
    fn copy(&self) -> Result<Self, AllocError> {
        Ok(Chronicle {
            book: self.book.copy()?,
            readings: self.readings.copy()?,
        })
    }
}

impl Chronicle {
    /// The chronicle of a document to which nothing has happened yet, with the places of its
    /// elements; unless memory runs out.
    pub fn new(alloc: Global, tree: &Tree, places: Rc<SerialTable>) -> Result<Chronicle, AllocError>
        requires { IsIndex (serials (elements tree.now.nodes)) (get places.value) }
        ensures { (log : List AnyLogEntry) → IfOk result (TellsNothing tree.now log) }
    {
        let shared = places.clone()?;
        let instances = Instances::new(alloc, tree, shared)?;
        Ok(Chronicle {
            book: Book::new(alloc),
            readings: Readings::new(alloc, tree, places, instances)?,
        })
    }

    /// The same, where its clocks and its instance times are made already.
    pub fn over(
        alloc: Global,
        tree: &Tree,
        places: Rc<SerialTable>,
        clocks: Clocks,
        instances: Instances,
    ) -> Result<Chronicle, AllocError>
        requires places { IsIndex (serials (elements tree.now.nodes)) (get places.value) }
        requires clocks { (log : List AnyLogEntry)
            → AreClocksOf clocks (history_of tree.now log []) }
        requires instances { (log : List AnyLogEntry) → IsSettled instances tree.now log [] }
        ensures { (log : List AnyLogEntry) → IfOk result (TellsNothing tree.now log) }
    {
        Ok(Chronicle {
            book: Book::new(alloc),
            readings: Readings::over(alloc, tree, places, clocks, instances)?,
        })
    }

    /// Appends an entry, which may follow. `DiaryFull` only where the diary is full; after a
    /// refusal all is as before. It touches what the entry concerns alone. Where `notes` have a
    /// mark, going back to it still gives the same instance times.
    pub fn push(
        &mut self,
        tree: &Tree,
        log: &Log,
        entry: Entry,
        notes: &mut RowNotes,
    ) -> Result<(), BookFault>
        requires tells { Tells tree.now log.now self.old }
        requires follows { MayFollow (unmarked tree.now log.now self.old.book) entry }
        ensures tells { OnOk result (Tells tree.now log.now self.new) }
        ensures ok { OnOk result (self.new.book ≡ self.old.book ++ entry ∷ []) }
        ensures err { OnErr result (self.new ≡ self.old) }
        ensures full { IfErr result (λ fault. fault ≡ book_fault.DiaryFull → length self.old.book
            ≡ limits.DIARY_ENTRIES) }
        ensures back { GoesBackTheSame self.old.readings.instances.rows notes.old
            self.new.readings.instances.rows notes.new }
    {
        self.book.push(entry)?;
        let book = &self.book;
        let history = DocumentHistory { tree, log, book };
        match self.readings.take_in(&history, entry, notes) {
            Ok(()) => Ok(()),
            Err(_) => {
                let len = self.book.len();
                self.book.cut_back(len - 1);
                Err(BookFault::Memory)
            }
        }
    }

    /// Goes back to the first `len` entries, behind which the notes have their mark, and takes that
    /// away. It takes no memory, a step for each entry and what following it takes.
    pub fn back(&mut self, tree: &Tree, log: &Log, len: usize, notes: &mut RowNotes)
        requires within { len ≤ length self.old.book }
        requires back { MayGoBack self.old.readings notes.old tree.now log.now
            (take len self.old.book) }
        ensures tells { Tells tree.now log.now self.new }
        ensures book { self.new.book ≡ take len self.old.book }
    {
        self.book.cut_back(len);
        let book = &self.book;
        let history = DocumentHistory { tree, log, book };
        self.readings.back(&history, notes);
    }

    /// Appends those of these entries that it lacks; where memory runs out, the first of them. All
    /// that it has are among the first of these.
    pub fn catch_up(&mut self, tree: &Tree, log: &Log, entries: &[Entry]) -> Result<(), AllocError>
        requires possible { IsPossible tree.now log.now entries.now }
        requires lags { Lags tree.now log.now entries.now self.old }
        ensures lags { Lags tree.now log.now entries.now self.new }
        ensures ok { OnOk result (self.new.book ≡ entries.now) }
    {
        let mut notes = self.readings.instances.notes()?;
        for entry in &entries[self.book.len()..] {
            let Ok(()) = self.push(tree, log, *entry, &mut notes) else {
                return Err(AllocError);
            };
        }
        Ok(())
    }
}
