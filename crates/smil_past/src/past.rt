//! What has happened in a presentation so far.

ghost use Rattle.std.specs.Prelude.{◌≡◌, ◌==◌, ◌<◌, ◌≤◌, ℕ, List, [], ◌∷◌, ◌++◌, length, map, take, true, None, Some, is_some, OnOk, OnErr, IfOk, IfErr};
ghost use Rattle.smil_model.specs.declared.limits.TheConstants as limits;
ghost use Rattle.smil_model.specs.declared.diary.LogEntry.{LogEntry as AnyLogEntry};
ghost use Rattle.smil_model.specs.declared.document.Node.{Node as AnyNode};
ghost use Rattle.std.specs.FinMap.{get};
ghost use Rattle.std.specs.List.{position};
ghost use Rattle.smil_model.specs.document.Document.{elements, node_at, serials};
ghost use Rattle.smil_instances.specs.Spread.{IsIndex};
ghost use Rattle.smil_model.specs.diary.Diary.{is_active};
ghost use Rattle.smil_model.specs.diary.Lawful.{has_element};
ghost use Rattle.smil_graph.specs.Graph.{document_of};
ghost use Rattle.smil_graph.specs.Reduced.{all_reduced};
ghost use Rattle.smil_stretch.specs.Clocks.{AreClocksOf};
ghost use Rattle.smil_past.specs.Played.{all_played};
ghost use Rattle.smil_past.specs.Queues.{kept_queues};
ghost use Rattle.smil_past.specs.Makeups.{makeup_of};
ghost use Rattle.smil_past.specs.Syncs.{all_syncs};
ghost use Rattle.smil_instances.specs.Instances.{IsSettled};
ghost use Rattle.smil_instances.specs.Intake.{history_of as document_history};
ghost use Rattle.smil_stretch.specs.NodeClocks.{idle_clock};
ghost use Rattle.smil_past.specs.Chronicle.{TellsNothing};
ghost use Rattle.smil_diary.specs.declared.fault.BookFault.TheVariants as book_fault;
ghost use Rattle.smil_past.specs.Past.{IsPossible, MayFollow, MayHear, history_of, with_diary, with_heard, at_mark};

use super::chronicle::Chronicle;
use super::document::PreparedDocument;
use super::kept::{KeptReadings, catch_up_keeping, drop_later, nearest};
use super::makeup::Makeup;
use super::places::{element_place, shared_places};
use super::plays::Plays;
use super::queues::Queues;
use super::syncs::Syncs;
use smil_diary::{Book, BookFault};
use smil_graph::{Graph, Revised, are_alike};
use smil_instance_rows::RowNotes;
use smil_instances::Instances;
use smil_model::{Duplicate, Entry, Log, LogEntry, SerialTable, Step};
use smil_stretch::Clocks;
use smil_tree::Tree;
use std::alloc::{AllocError, Global};
use std::marker::Model;
use std::mem::replace;
use std::rc::Rc;

/// A document, its log and its diary so far, with the graph of the document, the clocks, the plays,
/// the queues of excls and the instance times that these give; seen as the first three, and, where
/// there is a mark, how long log and diary were when it was made. By the notes the instance times
/// go back to the mark. Readings of first entries of the diary are kept so that `front` can begin
/// with them.
pub struct Past {
    document: Rc<PreparedDocument>,
    log: Log,
    chronicle: Chronicle,
    notes: RowNotes,
    mark: Option<(usize, usize)>,
    kept: Vec<KeptReadings>,
    alloc: Global,
}

impl Drop for Past {
    // Dropped by a call of its own, not field by field in each function that drops one.
    fn drop(self) {
        let Past {
            document: _document,
            log: _log,
            chronicle: _chronicle,
            notes: _notes,
            mark: _mark,
            kept: _kept,
            alloc: _alloc,
        } = self;
    }
}

impl Model for Past {
    ghost use Rattle.smil_past.specs.Past.{MarkedHistory};
    ghost use Rattle.smil_past.specs.Kept.{KeepsPast};

    ghost Value = { MarkedHistory };

    ghost view = { λ p. record {
      document = p.document.value;
      log = p.log;
      diary = p.chronicle.book;
      marked = p.mark;
    } };

    ghost invariant = { λ p.
        KeepsPast p.document.value p.log p.chronicle p.notes p.mark p.kept.items };
}

impl Past {
    /// A document to which nothing has happened yet, with a log of which nothing was heard yet;
    /// unless memory runs out. It takes time near linear in the document.
    pub fn new(alloc: Global, tree: Tree, log: Log) -> Result<Past, AllocError>
        requires { IsPossible tree log [] }
        ensures { IfOk result (λ past. past
            ≡ record { document = tree; log = log; diary = []; marked = None }) }
    {
        let graph = Graph::of(alloc, tree)?;
        let places = shared_places(alloc, graph.tree())?;
        let shared = places.clone()?;
        let chronicle = Chronicle::new(alloc, graph.tree(), shared)?;
        Past::over(alloc, graph, log, places, chronicle)
    }

    // A document with its graph and its chronicle, to which nothing has happened yet, with a log of
    // which nothing was heard yet.
    fn over(
        alloc: Global,
        graph: Graph,
        log: Log,
        places: Rc<SerialTable>,
        chronicle: Chronicle,
    ) -> Result<Past, AllocError>
        requires possible { IsPossible (document_of graph) log [] }
        requires places { IsIndex (serials (elements graph.nodes)) (get places.value) }
        requires nothing { TellsNothing (document_of graph) log chronicle }
        ensures { IfOk result (λ past. past
            ≡ record { document = document_of graph; log = log; diary = []; marked = None }) }
    {
        let dependents = chronicle.readings.instances.dependents();
        let syncs = Syncs::of(alloc, &graph, dependents, places)?;
        let notes = chronicle.readings.instances.notes()?;
        Ok(Past {
            document: Rc::new(alloc, PreparedDocument::new(graph, syncs))?,
            log,
            chronicle,
            notes,
            mark: None,
            kept: Vec::new(alloc),
            alloc,
        })
    }

    /// What has happened to the document of a graph, by a log and these entries of a diary; unless
    /// memory runs out. Where that document is alike to the one here, as `are_alike` of smil_graph
    /// says, what the items follow from is shared; where its nodes stand as the nodes here, the
    /// places of the clocks.
    pub fn revised(&self, graph: Graph, log: Log, entries: &[Entry]) -> Result<Past, AllocError>
        requires { IsPossible (document_of graph) log entries.now }
        ensures { IfOk result (λ past. past ≡ record {
          document = document_of graph;
          log = log;
          diary = entries.now;
          marked = None;
        }) }
    {
        let alike = are_alike(self.tree(), graph.tree());
        self.revised_by(Revised { graph, alike }, log, entries)
    }

    /// As `revised`, by the graph of the edited document and the answer whether a graph reads the
    /// same of both documents, so that they are not compared again.
    pub fn revised_by(
        &self,
        revised: Revised,
        log: Log,
        entries: &[Entry],
    ) -> Result<Past, AllocError>
        requires possible { IsPossible (document_of revised.graph) log entries.now }
        requires alike { revised.alike ≡ true
            → all_reduced self.now.document.nodes ≡ all_reduced revised.graph.nodes }
        ensures { IfOk result (λ past. past ≡ record {
          document = document_of revised.graph;
          log = log;
          diary = entries.now;
          marked = None;
        }) }
    {
        let Revised { graph, alike } = revised;
        let places = self.places_of(graph.tree())?;
        let shared = places.clone()?;
        let chronicle = self.begun_anew(graph.tree(), shared, alike)?;
        let mut past = Past::over(self.alloc, graph, log, places, chronicle)?;
        for entry in entries {
            push(&mut past, *entry)?;
        }
        Ok(past)
    }

    // The chronicle of an edited document to which nothing has happened yet, with the places of its
    // elements; `alike` only where a graph reads the same of it as of the document here.
    fn begun_anew(
        &self,
        after: &Tree,
        places: Rc<SerialTable>,
        alike: bool,
    ) -> Result<Chronicle, AllocError>
        requires places { IsIndex (serials (elements after.now.nodes)) (get places.value) }
        requires alike { alike ≡ true
            → all_reduced self.now.document.nodes ≡ all_reduced after.now.nodes }
        ensures { (log : List AnyLogEntry) → IfOk result (TellsNothing after.now log) }
    {
        let shared = places.clone()?;
        let instances = self.instances().revised(after, shared, alike)?;
        let clocks = self.clocks_of(after)?;
        Chronicle::over(self.alloc, after, places, clocks, instances)
    }

    // The clocks of an edited document to which nothing has happened yet: where its nodes stand as
    // the nodes here, with the same table of their places.
    fn clocks_of(&self, after: &Tree) -> Result<Clocks, AllocError>
        ensures { (log : List AnyLogEntry)
            → IfOk result (λ clocks. AreClocksOf clocks (document_history after.now log [])) }
    {
        self.tree().valid();
        after.valid();
        if stand_alike(self.tree(), after) {
            let mut clocks = self.clocks().copy()?;
            clocks.reset();
            Ok(clocks)
        } else {
            Clocks::of(self.alloc, after, &Book::new(self.alloc))
        }
    }

    // The places of the elements of an edited document: those of the document here where it has the
    // same elements.
    fn places_of(&self, after: &Tree) -> Result<Rc<SerialTable>, AllocError>
        ensures { IfOk result (λ places. IsIndex (serials (elements after.now.nodes))
            (get places.value)) }
    {
        if have_same_elements(self.tree(), after) {
            let places = self.syncs().places().clone()?;
            Ok(places)
        } else {
            shared_places(self.alloc, after)
        }
    }

    /// Appends an entry, which may follow what has happened. `DiaryFull` only where the diary is
    /// full; after a refusal all is as before. It touches what the entry concerns alone. Where there
    /// is a mark, it takes memory for a copy of an element's instance times before the first of them
    /// goes.
    pub fn append(&mut self, entry: Entry) -> Result<(), BookFault>
        requires { MayFollow self.old entry }
        ensures ok { OnOk result (self.new ≡ with_diary self.old (self.old.diary ++ entry ∷ [])) }
        ensures err { OnErr result (self.new ≡ self.old) }
        ensures full { IfErr result (λ fault. fault ≡ book_fault.DiaryFull → length self.old.diary
            ≡ limits.DIARY_ENTRIES) }
    {
        let tree = self.document.tree();
        self.chronicle
            .push(tree, &self.log, entry, &mut self.notes)?;
        Ok(())
    }

    /// Appends an entry to the log, and to the diary that it was heard at its moment. After a
    /// refusal all is as before.
    pub fn hear(&mut self, entry: LogEntry) -> Result<(), BookFault>
        requires may { MayHear self.old entry }
        requires room { length self.old.log < limits.LOG_ENTRIES }
        ensures ok { OnOk result (self.new ≡ with_heard self.old entry) }
        ensures err { OnErr result (self.new ≡ self.old) }
        ensures full { IfErr result (λ fault. fault ≡ book_fault.DiaryFull → length self.old.diary
            ≡ limits.DIARY_ENTRIES) }
    {
        let place = self.log.len();
        let moment = entry.moment;
        self.log.push(entry)?;
        let step = Step::Logged {
            place: place as u32,
        };
        match self.append(Entry { moment, step }) {
            Ok(()) => Ok(()),
            Err(fault) => {
                self.log.cut_back(place);
                Err(fault)
            }
        }
    }

    /// Makes a mark, to which `back` goes back; there is none yet. It takes no memory; an entry after
    /// it may, as `append` says.
    pub fn mark(&mut self)
        requires { self.old.marked ≡ None }
        ensures { self.new ≡ record {
          document = self.old.document;
          log = self.old.log;
          diary =
              self.old.diary;
          marked = Some (length self.old.log, length self.old.diary);
        } }
    {
        let len = self.chronicle.book.len();
        self.notes.mark(len.max(1));
        self.mark = Some((self.log.len(), len));
    }

    /// Goes back to where the mark was made; there is one, and afterwards none. It takes no memory.
    /// Where entries came since, it takes time linear in the document, its instance times and the
    /// entries before the mark, which the clocks, the plays and the queues follow again.
    pub fn back(&mut self)
        requires { is_some self.old.marked ≡ true }
        ensures { (mark : ℕ × ℕ) → self.old.marked ≡ Some mark → self.new ≡ at_mark self.old mark }
    {
        let (log, diary) = self.mark.take().unwrap();
        self.log.cut_back(log);
        drop_later(&mut self.kept, diary);
        if diary < self.chronicle.book.len() {
            let tree = self.document.tree();
            self.chronicle.back(tree, &self.log, diary, &mut self.notes);
        } else {
            self.notes.forget();
        }
    }

    /// Takes the mark away; there is one. It takes no memory, and a step for each note.
    pub fn forget(&mut self)
        requires { is_some self.old.marked ≡ true }
        ensures { self.new ≡ record {
          document = self.old.document;
          log = self.old.log;
          diary =
              self.old.diary;
          marked = None;
        } }
    {
        self.mark = None;
        self.notes.forget();
    }

    /// What had happened when log and diary had so many entries, over the same document; unless
    /// memory runs out. There is no mark, neither here nor there. It takes in again the entries
    /// alone after the nearest readings that are kept, and keeps readings on the way for the next
    /// time: those at the middle of what is left, again and again, 32 at most. So the first time it
    /// takes in all entries, and later, where it goes back by little, few of them. Besides, it takes
    /// time near linear in the diary, and for each readings that it keeps in the elements. What is
    /// kept goes over to the result.
    pub fn front(&mut self, log: usize, diary: usize) -> Result<Past, AllocError>
        requires unmarked { self.old.marked ≡ None }
        requires log_within { log ≤ length self.old.log }
        requires diary_within { diary ≤ length self.old.diary }
        requires possible { IsPossible self.old.document (take log self.old.log)
            (take diary self.old.diary) }
        ensures same { self.new ≡ self.old }
        ensures front { IfOk result (λ past. past ≡ at_mark self.old (log, diary)) }
    {
        let mut kept = replace(&mut self.kept, Vec::new(self.alloc));
        drop_later(&mut kept, diary);
        let mut heard = self.log.copy()?;
        heard.cut_back(log);
        let document = self.document.as_ref();
        let book = &self.chronicle.book;
        let present = &self.chronicle.readings;
        let mut chronicle = nearest(self.alloc, document, book, present, &kept)?;
        let entries = &book.entries()[..diary];
        catch_up_keeping(&mut chronicle, &mut kept, document.tree(), &heard, entries)?;
        let notes = chronicle.readings.instances.notes()?;
        Ok(Past {
            document: self.document.clone()?,
            log: heard,
            chronicle,
            notes,
            mark: None,
            kept,
            alloc: self.alloc,
        })
    }

    /// The document.
    pub fn tree(&self) -> &Tree
        ensures { result.now ≡ self.now.document }
    {
        self.document.tree()
    }

    /// On which elements each element of the document depends.
    pub fn graph(&self) -> &Graph
        ensures { result.now.nodes ≡ self.now.document.nodes }
    {
        self.document.graph()
    }

    /// The index of an element among the elements in document order, from 0; None exactly where
    /// there is no such element. It takes one look-up, and no memory.
    pub fn index_of(&self, who: u32) -> Option<usize>
        ensures { result ≡ position (λ (n : AnyNode). n.serial == who)
            (elements self.now.document.nodes) }
    {
        self.possible();
        element_place(self.syncs().places(), who)
    }

    /// What the items of the document's elements wait for.
    pub fn syncs(&self) -> &Syncs
        ensures { result.now ≡ all_syncs self.now.document.nodes }
    {
        self.document.syncs()
    }

    /// What evaluation reads of the attributes of an element. It takes no memory.
    pub fn makeup(&self, who: u32) -> &Makeup
        requires { has_element self.now.document.nodes who ≡ true }
        ensures { (e : AnyNode) → node_at (elements self.now.document.nodes) who ≡ Some e
            → result.now ≡ makeup_of self.now.document.nodes e }
    {
        self.syncs().makeup(who).unwrap()
    }

    /// What came from outside.
    pub fn log(&self) -> &Log
        ensures { result.now ≡ self.now.log }
    {
        &self.log
    }

    /// What happened.
    pub fn book(&self) -> &Book
        ensures { result.now ≡ self.now.diary }
    {
        &self.chronicle.book
    }

    /// The clocks of the elements.
    pub fn clocks(&self) -> &Clocks
        ensures { AreClocksOf result.now (history_of self.now) }
    {
        &self.chronicle.readings.clocks
    }

    /// The plays of the elements.
    pub fn plays(&self) -> &Plays
        ensures { result.now ≡ all_played (history_of self.now) }
    {
        &self.chronicle.readings.plays
    }

    /// Whether an element is active; false where the document has no such element. It takes no
    /// memory.
    pub fn active(&self, who: u32) -> bool
        ensures { result ≡ is_active self.now.diary who }
    {
        self.possible();
        self.plays().active(who)
    }

    /// The queues of the excls.
    pub fn queues(&self) -> &Queues
        ensures { result.now ≡ kept_queues (history_of self.now) }
    {
        &self.chronicle.readings.queues
    }

    /// The instance times that the diary alone gives.
    pub fn instances(&self) -> &Instances
        ensures { IsSettled result.now self.now.document self.now.log self.now.diary }
    {
        &self.chronicle.readings.instances
    }

    /// A copy over the same document, unless memory runs out. There is no mark. The original stays.
    /// It takes time near linear in the document's elements and in the diary, whose entries it
    /// doesn't take in again.
    pub fn copy(&self) -> Result<Past, AllocError>
        requires { self.now.marked ≡ None }
        ensures { IfOk result (λ copy. copy ≡ self.now) }
    {
        Ok(Past {
            document: self.document.clone()?,
            log: self.log.copy()?,
            chronicle: self.chronicle.copy()?,
            notes: self.chronicle.readings.instances.notes()?,
            mark: None,
            kept: Vec::new(self.alloc),
            alloc: self.alloc,
        })
    }

    /// What has happened is possible: a law for proofs, which costs nothing.
    pub fn possible(&self)
        ensures { IsPossible self.now.document self.now.log self.now.diary }
    {
        let _mark = &self.mark;
    }
}

// Whether two documents have the same elements.
fn have_same_elements(before: &Tree, after: &Tree) -> bool
    ensures { result ≡ true
        → serials (elements before.now.nodes) ≡ serials (elements after.now.nodes) }
{
    before.elements() == after.elements()
}

// Whether the nodes of two documents have the same serials, in the same places, and time parents in
// the same places.
fn stand_alike(before: &Tree, after: &Tree) -> bool
    ensures { result ≡ true → map (idle_clock before.now.nodes) before.now.nodes
        ≡ map (idle_clock after.now.nodes) after.now.nodes }
{
    before.valid();
    after.valid();
    let mut left = after.nodes();
    for node in before.nodes() {
        let Some(other) = left.next() else {
            return false;
        };
        if node.serial != other.serial {
            return false;
        }
        if before.parent_place(node.serial) != after.parent_place(other.serial) {
            return false;
        }
    }
    left.next().is_none()
}

// Appends an entry of a diary, which therefore is not full.
fn push(past: &mut Past, entry: Entry) -> Result<(), AllocError>
    requires { MayFollow past.old entry }
    ensures { OnOk result (past.new ≡ with_diary past.old (past.old.diary ++ entry ∷ [])) }
{
    match past.append(entry) {
        Ok(()) => Ok(()),
        Err(_) => Err(AllocError),
    }
}
