//! The readings of a document and its diary.

ghost use Rattle.std.specs.Prelude.{◌≡◌, List, [], OnOk, OnErr, IfOk};
ghost use Rattle.smil_model.specs.declared.diary.LogEntry.{LogEntry as AnyLogEntry};
ghost use Rattle.smil_model.specs.diary.Diary.{History, with_entry};
ghost use Rattle.smil_laws.specs.Near.{HasNear};
ghost use Rattle.smil_stretch.specs.Clocks.{AreClocksOf};
ghost use Rattle.smil_instance_rows.specs.Notes.{GoesBackTheSame};
ghost use Rattle.std.specs.FinMap.{get};
ghost use Rattle.smil_model.specs.document.Document.{elements, serials};
ghost use Rattle.smil_instances.specs.Instances.{IsSettled};
ghost use Rattle.smil_instances.specs.Intake.{history_of};
ghost use Rattle.smil_instances.specs.Spread.{IsIndex};
ghost use Rattle.smil_past.specs.Readings.{AreReadingsOf, FollowsAll, IsLast, MayBeFollowed, MayGoBack};

use super::plays::Plays;
use super::queues::Queues;
use smil_diary::Book;
use smil_instance_rows::RowNotes;
use smil_instances::{DocumentHistory, Instances};
use smil_model::{DIARY_ENTRIES, Duplicate, Entry, SerialTable};
use smil_stretch::Clocks;
use smil_tree::Tree;
use std::alloc::{AllocError, Global};
use std::rc::Rc;

/// The clocks, the plays, the queues of excls and the instance times that a document and its diary
/// give.
pub struct Readings {
    pub clocks: Clocks,
    pub plays: Plays,
    pub queues: Queues,
    pub instances: Instances,
}

impl Drop for Readings {
    // Dropped by a call of its own, not field by field in each function that drops one.
    fn drop(self) {
        let Readings {
            clocks: _clocks,
            plays: _plays,
            queues: _queues,
            instances: _instances,
        } = self;
    }
}

impl Duplicate for Readings {
    fn copy(&self) -> Result<Self, AllocError> {
        Ok(Readings {
            clocks: self.clocks.copy()?,
            plays: self.plays.copy()?,
            queues: self.queues.copy()?,
            instances: self.instances.copy()?,
        })
    }
}

impl Readings {
    /// The readings of a document to which nothing has happened yet, with the places of its
    /// elements and its instance times; unless memory runs out.
    pub fn new(
        alloc: Global,
        tree: &Tree,
        places: Rc<SerialTable>,
        instances: Instances,
    ) -> Result<Readings, AllocError>
        requires places { IsIndex (serials (elements tree.now.nodes)) (get places.value) }
        requires instances { (log : List AnyLogEntry) → IsSettled instances tree.now log [] }
        ensures { (log : List AnyLogEntry)
            → IfOk result (λ readings. AreReadingsOf readings tree.now log []) }
    {
        let book = Book::new(alloc);
        let clocks = Clocks::of(alloc, tree, &book)?;
        Readings::over(alloc, tree, places, clocks, instances)
    }

    // The readings of a document to which nothing has happened yet, with its clocks, which are
    // those of no entry.
    pub(crate) fn over(
        alloc: Global,
        tree: &Tree,
        places: Rc<SerialTable>,
        clocks: Clocks,
        instances: Instances,
    ) -> Result<Readings, AllocError>
        requires places { IsIndex (serials (elements tree.now.nodes)) (get places.value) }
        requires clocks { (log : List AnyLogEntry)
            → AreClocksOf clocks (history_of tree.now log []) }
        requires instances { (log : List AnyLogEntry) → IsSettled instances tree.now log [] }
        ensures { (log : List AnyLogEntry)
            → IfOk result (λ readings. AreReadingsOf readings tree.now log []) }
    {
        Ok(Readings {
            clocks,
            plays: Plays::new(alloc, tree, places)?,
            queues: Queues::new(alloc, tree)?,
            instances,
        })
    }

    /// Takes in the last entry of a history. Where memory runs out all is as before. It touches
    /// what the entry concerns alone. Where `notes` have a mark, going back to it still gives the
    /// same instance times.
    pub fn take_in(
        &mut self,
        history: &DocumentHistory<'_>,
        entry: Entry,
        notes: &mut RowNotes,
    ) -> Result<(), AllocError>
        requires { IsLast self.old entry history.now.tree.now history.now.log.now
            history.now.book.now }
        ensures ok { OnOk result (AreReadingsOf self.new history.now.tree.now history.now.log.now
            history.now.book.now) }
        ensures err { OnErr result (self.new ≡ self.old) }
        ensures back { GoesBackTheSame self.old.instances.rows notes.old self.new.instances.rows
            notes.new }
    {
        let DocumentHistory { tree, log, book } = *history;
        prove!(book.len() <= DIARY_ENTRIES);
        self.instances.note(tree, &self.clocks, log, book, notes)?;
        self.follow(history, entry);
        Ok(())
    }

    /// Goes back to a history with fewer entries, where the notes have their mark, and takes that
    /// away. It takes no memory: instance times go back by the notes; the rest begins anew, and
    /// follows the entries of the history.
    pub fn back(&mut self, history: &DocumentHistory<'_>, notes: &mut RowNotes)
        requires { MayGoBack self.old notes.old history.now.tree.now history.now.log.now
            history.now.book.now }
        ensures { AreReadingsOf self.new history.now.tree.now history.now.log.now
            history.now.book.now }
    {
        prove!(history.book.len() <= DIARY_ENTRIES);
        self.instances.back(notes);
        self.clocks.reset();
        self.plays.reset();
        self.queues.reset();
        for entry in history.book.entries() {
            self.follow(history, *entry);
        }
    }

    // Takes in an entry, but for what it makes of the instance times.
    fn follow(&mut self, history: &DocumentHistory<'_>, entry: Entry)
        requires follows { (h : History) × MayBeFollowed self.old entry history.now.tree.now
            history.now.log.now h }
        requires near { HasNear entry.step }
        ensures follows { (h : History)
            → MayBeFollowed self.old entry history.now.tree.now history.now.log.now h
            → FollowsAll self.new (with_entry h entry) }
        ensures instances { self.new.instances ≡ self.old.instances }
    {
        let waits = self.plays.follow(history, &self.clocks, entry);
        self.queues.follow(history.tree, entry, waits);
        self.clocks.follow(entry);
    }
}
