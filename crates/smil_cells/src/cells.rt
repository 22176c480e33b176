//! Cells over any table.

ghost use Rattle.std.specs.Prelude.{◌≡◌, ◌⊎◌, ◌+◌, ◌-◌, ◌<◌, ◌≤◌, ◌≤ℤ◌, ◌+ℤ◌, ℤ, pos, nat_abs, List, [], length, true, None, Some, is_some, OnOk, OnErr, IfOk, IfErr, IfSome, IfNone, option_map};
ghost use Rattle.smil_model.specs.declared.times.TheConstants.{HORIZON as the_horizon};
ghost use Rattle.smil_model.specs.declared.limits.TheConstants.{LOG_ENTRIES as the_entries};
ghost use Rattle.smil_model.specs.declared.diary.Entry.{Entry as AnyEntry};
ghost use Rattle.smil_model.specs.document.Valid.{IsValid};
ghost use Rattle.smil_model.specs.document.Document.{elements};
ghost use Rattle.smil_model.specs.diary.Logs.{may_happen};
ghost use Rattle.smil_model.specs.happening.Keys.{DueChange as AnyDueChange, coming, first_coming};
ghost use Rattle.smil_model.specs.happening.Resolution.{diary_of};
ghost use Rattle.smil_model.specs.shown.Orders.{Presentation, course_of, as_of};
ghost use Rattle.smil_diary.specs.declared.fault.BookFault.{BookFault as AnyFault};
ghost use Rattle.smil_diary.specs.declared.fault.BookFault.TheVariants as book_fault;
ghost use Rattle.smil_graph.specs.Graph.{document_of};
ghost use Rattle.smil_graph.specs.Reduced.{all_reduced};
ghost use Rattle.smil_stretch.specs.Clocks.{AreClocksOf};
ghost use Rattle.smil_past.specs.Past as past_of;
ghost use Rattle.smil_element.specs.Parts.{coming_meant};
ghost use Rattle.smil_cells.specs.CellsState.{GoesOn, IsFront, IsHeard, IsNext, IsPassed, IsRebuilt, IsRefusing, IsSettled, NothingBefore, first_at, MayRebuild, CellsState, StayTouched, WhereTold, any_interval, fresh_since, history_of, interval_at, reached_since, with_logged};
ghost use Rattle.smil_cells.specs.Evaluated.{HasEvaluatedBehind, HasEvaluatedSince};
ghost use Rattle.smil_cells.specs.Settling.{HasRefused, HasSettled, IsCounted};
ghost use Rattle.smil_cells.specs.Shown.{OnlyChanged, TouchesOnly, touched_at};
ghost use Rattle.smil_cells.specs.Standings.{MayBegin, at_mark, begun};
ghost use Rattle.smil_laws.specs.Same.{IsSame};

use super::entries::take_entries;
use super::named::{heard_log, last_moment, logged_among};
use super::order::take_elements;
use super::table::{Since, Table};
use smil_diary::{Book, BookFault};
use smil_element::DueChange;
use smil_graph::{Graph, Revised};
use smil_interval::Steps;
use smil_laws::courses::{
    ended_is_diary, reached_is_past, reaches_further, reaches_over_quiet, too_long_is_full,
};
use smil_laws::firsts::first_is_of_element;
use smil_laws::near::resolved_is_near;
use smil_laws::stays::{log_may_be_longer, time_passes_quietly};
use smil_model::{Doc, Duplicate, Entry, Interval, Log, LogEntry, PlaceSet, Serials};
use smil_past::Past;
use smil_rounds::groups::{append_all, fill_group};
use smil_stretch::Clocks;
use smil_tree::Tree;
use std::alloc::{AllocError, Global};
use std::marker::Model;
use std::mem::replace;
use std::sync::ledger::Ledger;

/// A presentation under way, whose diary is resolved moment by moment; seen as its document, its
/// log, its moment in milliseconds of document time and its diary, with the refusal that it answers
/// from now on, what a mark goes back to, and the elements whose views the last `settle` or `hear`
/// may have changed.
pub struct Cells<T: Table> {
    past: Past,
    moment: i64,
    table: T,
    fault: Option<BookFault>,
    mark: Option<i64>,
    touched: Serials,
    /// Room for the places of what is touched, while a call works.
    places: PlaceSet,
    /// Room for the elements whose intervals the table tells as changed.
    changed: Serials,
    group: Vec<Entry>,
    alloc: Global,
}

impl<T: Table> Drop for Cells<T> {
    // Dropped by a call of its own, not field by field in each function that drops one.
    fn drop(self) {
        let Cells {
            past: _past,
            moment: _moment,
            table: _table,
            fault: _fault,
            mark: _mark,
            touched: _touched,
            places: _places,
            changed: _changed,
            group: _group,
            alloc: _alloc,
        } = self;
    }
}

impl<T: Table> Model for Cells<T> {
    ghost use Rattle.smil_cells.specs.CellsState.{CellsState};
    ghost use Rattle.smil_cells.specs.Standings.{IsSoundUnderMark, standing_of};

    ghost Value = { CellsState };

    ghost view = { λ c. standing_of c.past c.moment c.fault c.mark c.touched };

    ghost invariant = { λ c.
        IsSoundUnderMark (T.is_current c.table) (T.is_marked c.table) (T.has_mark c.table) c.past
        c.moment c.fault c.mark c.touched };
}

impl<T: Table> Cells<T> {
    /// The cells of a valid document at moment 0, with an empty log and an empty diary, and nothing
    /// settled; unless memory runs out.
    pub fn new<L: Ledger>(alloc: Global, doc: Doc, steps: &mut Steps<L>) -> Result<Self, AllocError>
        requires { IsValid doc }
        ensures state { IfOk result (λ cells. cells.presentation
            ≡ record { document = doc; log = []; now = 0 }) }
        ensures diary { IfOk result (λ cells. cells.diary ≡ []) }
        ensures sound { IfOk result (λ cells. cells.fault ≡ None) }
        ensures unmarked { IfOk result (λ cells. cells.marked ≡ None) }
        ensures counted { steps.old ≤ steps.new }
        ensures most { WhereTold T.counts (steps.new - steps.old
            ≤ length (elements doc.nodes)) }
        ensures least { IfOk result (λ cells. WhereTold T.counts
            (any_interval doc.nodes (interval_at cells) ≤ steps.new - steps.old)) }
    {
        let tree = Tree::of_doc(alloc, doc)?;
        let past = Past::new(alloc, tree, Log::new(alloc))?;
        Cells::over(alloc, past, 0, steps)
    }

    /// Resolves the presentation up to a moment, in milliseconds of document time, which is not
    /// before its own and not above 10^12. `DiaryFull` where its diary would have too many entries,
    /// `Memory` where memory runs out, and an earlier refusal again, which changes nothing.
    pub fn settle<L: Ledger>(&mut self, until: i64, steps: &mut Steps<L>) -> Result<(), BookFault>
        requires from { pos self.old.presentation.now ≤ℤ until }
        requires within { until ≤ℤ the_horizon }
        ensures again { (fault : AnyFault) → self.old.fault ≡ Some fault → (result ≡ Err fault)
            × (self.new ≡ self.old) }
        ensures state { OnOk result (self.new.presentation
            ≡ as_of self.old.presentation (nat_abs until)) }
        ensures settled { OnOk result (IsSettled self.new) }
        ensures goes_on { OnOk result (GoesOn self.old self.new) }
        ensures refused { IfErr result (IsRefusing self.old self.new) }
        ensures full { IfErr result (λ fault. fault ≡ book_fault.DiaryFull
            → (self.old.fault ≡ Some fault)
            ⊎ (diary_of (course_of (as_of self.old.presentation (nat_abs until))) ≡ None)) }
        ensures front { IfErr result (λ fault. fault ≡ book_fault.DiaryFull
            → (self.old.fault ≡ Some fault)
            ⊎ IsFront (course_of (as_of self.old.presentation (nat_abs until))) self.new.diary) }
        ensures counted { steps.old ≤ steps.new }
        ensures most { OnOk result (WhereTold T.counts
            (steps.new - steps.old ≤ reached_since self.old self.new)) }
        ensures least { OnOk result (WhereTold T.counts
            (fresh_since self.old self.new ≤ steps.new - steps.old)) }
        ensures evaluated { OnOk result (WhereTold T.counts
            (HasEvaluatedSince self.old self.new (steps.new - steps.old))) }
        ensures only { OnOk result (OnlyChanged self.old self.new) }
    {
        if let Some(fault) = self.fault {
            return Err(fault);
        }
        too_long_is_full();
        self.touched.cut_back(0);
        let mut places = replace(&mut self.places, PlaceSet::new(self.alloc));
        places.clear();
        self.settle_through(until, places, steps)
    }

    /// Appends an entry to the log at its moment, which is the presentation's, and resolves what
    /// follows at that moment. The entry is one that a log may have: an event that begins, ends and
    /// repeats don't raise by themselves, a length of media, or the press of a key. The
    /// presentation is settled, and its log is not full. The answers are those of `settle`.
    pub fn hear<L: Ledger>(
        &mut self,
        entry: LogEntry,
        steps: &mut Steps<L>,
    ) -> Result<(), BookFault>
        requires moment { entry.moment ≡ pos self.old.presentation.now }
        requires may { may_happen entry.what ≡ true }
        requires room { length self.old.presentation.log + 1 ≤ the_entries }
        requires settled { self.old.fault ≡ None
            → NothingBefore self.old (pos self.old.presentation.now +ℤ pos 1) }
        ensures again { (fault : AnyFault) → self.old.fault ≡ Some fault → (result ≡ Err fault)
            × (self.new ≡ self.old) }
        ensures state { OnOk result (self.new.presentation
            ≡ with_logged self.old.presentation entry) }
        ensures settled { OnOk result (IsSettled self.new) }
        ensures goes_on { OnOk result (GoesOn self.old self.new) }
        ensures refused { IfErr result (IsRefusing self.old self.new) }
        ensures full { IfErr result (λ fault. fault ≡ book_fault.DiaryFull
            → (self.old.fault ≡ Some fault)
            ⊎ (diary_of (course_of (with_logged self.old.presentation entry)) ≡ None)) }
        ensures front { IfErr result (λ fault. fault ≡ book_fault.DiaryFull
            → (self.old.fault ≡ Some fault)
            ⊎ IsFront (course_of (with_logged self.old.presentation entry)) self.new.diary) }
        ensures counted { steps.old ≤ steps.new }
        ensures most { OnOk result (WhereTold T.counts
            (steps.new - steps.old ≤ reached_since self.old self.new)) }
        ensures least { OnOk result (WhereTold T.counts
            (fresh_since self.old self.new ≤ steps.new - steps.old)) }
        ensures evaluated { OnOk result (WhereTold T.counts
            (HasEvaluatedSince self.old self.new (steps.new - steps.old))) }
        ensures only { OnOk result (OnlyChanged self.old self.new) }
    {
        if let Some(fault) = self.fault {
            return Err(fault);
        }
        too_long_is_full();
        self.touched.cut_back(0);
        let mut places = replace(&mut self.places, PlaceSet::new(self.alloc));
        places.clear();
        if let Err(fault) = self.take_in(entry, &mut places, steps) {
            return Err(fault);
        }
        let until = self.moment;
        self.settle_through(until, places, steps)
    }

    /// The current interval of an element; None where it has none. No refusal was answered. It
    /// takes no memory.
    pub fn interval(&self, who: u32) -> Option<Interval>
        requires { self.now.fault ≡ None }
        ensures { result ≡ interval_at self.now who }
    {
        self.table.interval(who)
    }

    /// The moment of what comes first, in milliseconds of document time; None exactly where nothing
    /// comes. No refusal was answered. It takes no memory.
    pub fn next_due(&self) -> Option<i64>
        requires { self.now.fault ≡ None }
        ensures { result ≡ option_map (λ (c : AnyDueChange). c.key.value)
            (first_coming (coming (history_of self.now) (pos self.now.presentation.now))) }
    {
        match self.table.first() {
            Some(coming) => Some(coming.key.value),
            None => None,
        }
    }

    /// The present moment, in milliseconds of document time. It takes no memory.
    pub fn moment(&self) -> i64
        ensures { result ≡ pos self.now.presentation.now }
    {
        self.moment
    }

    /// The diary. It takes no memory.
    pub fn book(&self) -> &Book
        ensures { result.now ≡ self.now.diary }
    {
        self.past.book()
    }

    /// The clocks. It takes no memory.
    pub fn clocks(&self) -> &Clocks
        ensures { AreClocksOf result.now (history_of self.now) }
    {
        self.past.clocks()
    }

    /// The document. It takes no memory.
    pub fn tree(&self) -> &Tree
        ensures { result.now ≡ self.now.presentation.document }
    {
        self.past.tree()
    }

    /// The log. It takes no memory.
    pub fn log(&self) -> &Log
        ensures { result.now ≡ self.now.presentation.log }
    {
        self.past.log()
    }

    /// The elements whose views the last `settle` or `hear` may have changed, in document order
    /// where that was not refused. It takes no memory.
    pub fn touched(&self) -> &Serials
        ensures { result.now ≡ self.now.touched }
    {
        &self.touched
    }

    /// All that has happened, as other calls read it. It takes no memory.
    pub fn past(&self) -> &Past
        ensures { past_of.history_of result.now ≡ history_of self.now }
    {
        &self.past
    }

    /// A copy, unless memory runs out. No refusal was answered and no mark stands. No interval is
    /// evaluated.
    pub fn copy(&self) -> Result<Self, AllocError>
        requires sound { self.now.fault ≡ None }
        requires unmarked { self.now.marked ≡ None }
        ensures { IfOk result (λ copy. copy ≡ self.now) }
    {
        let table = self.table.copy()?;
        let touched = self.touched.copy()?;
        let past = self.past.copy()?;
        Ok(Cells {
            past,
            moment: self.moment,
            table,
            fault: None,
            mark: None,
            touched,
            places: PlaceSet::new(self.alloc),
            changed: Serials::new(self.alloc),
            group: Vec::new(self.alloc),
            alloc: self.alloc,
        })
    }

    /// The cells of a document with the first entries of this diary and what they name of this log,
    /// at the moment of the last of these, or 0; unless memory runs out. The document is valid, and
    /// its resolution with that part of the log comes to these entries. No mark stands.
    pub fn rebuilt<L: Ledger>(
        &self,
        doc: Doc,
        len: usize,
        steps: &mut Steps<L>,
    ) -> Result<Self, AllocError>
        requires { MayRebuild self.now doc len }
        ensures rebuilt { IfOk result (IsRebuilt self.now doc len) }
        ensures counted { steps.old ≤ steps.new }
        ensures most { WhereTold T.counts (steps.new - steps.old
            ≤ length (elements doc.nodes)) }
        ensures least { IfOk result (λ cells. WhereTold T.counts
            (any_interval doc.nodes (interval_at cells) ≤ steps.new - steps.old)) }
    {
        let tree = Tree::of_doc(self.alloc, doc)?;
        let graph = Graph::of(self.alloc, tree)?;
        let revised = Revised {
            graph,
            alike: false,
        };
        self.rebuilt_over(revised, len, steps)
    }

    /// The cells of the document of a revised graph, with the first entries of this diary and what
    /// they name of this log, unless memory runs out. Where the graph is said to be alike it reads
    /// the same of its document as of the document here, and what the items follow from is shared.
    pub fn rebuilt_over<L: Ledger>(
        &self,
        revised: Revised,
        len: usize,
        steps: &mut Steps<L>,
    ) -> Result<Self, AllocError>
        requires rebuild { MayRebuild self.now (document_of revised.graph) len }
        requires alike { revised.alike ≡ true → all_reduced self.now.presentation.document.nodes
            ≡ all_reduced revised.graph.nodes }
        ensures rebuilt { IfOk result (IsRebuilt self.now (document_of revised.graph) len) }
        ensures counted { steps.old ≤ steps.new }
        ensures most { WhereTold T.counts (steps.new - steps.old
            ≤ length (elements revised.graph.nodes)) }
        ensures least { IfOk result (λ cells. WhereTold T.counts
            (any_interval revised.graph.nodes (interval_at cells) ≤ steps.new - steps.old)) }
    {
        reached_is_past();
        resolved_is_near();
        self.past.possible();
        let log = heard_log(self.alloc, self.past.log(), self.past.book(), len)?;
        let past = self
            .past
            .revised_by(revised, log, &self.past.book().entries()[..len])?;
        let moment = last_moment(&past);
        Cells::over(self.alloc, past, moment, steps)
    }

    /// The cells of this document with the first entries of this diary and what they name of this
    /// log, at the moment of the last of these, or 0; unless memory runs out. The resolution with
    /// that part of the log comes to these entries. No mark stands. The document is not copied, and
    /// `Past::front` says how many of the entries are taken in again; each element is evaluated.
    pub fn front<L: Ledger>(&mut self, len: usize, steps: &mut Steps<L>) -> Result<Self, AllocError>
        requires { MayRebuild self.old self.old.presentation.document len }
        ensures same { self.new ≡ self.old }
        ensures rebuilt { IfOk result (IsRebuilt self.old self.old.presentation.document len) }
        ensures counted { steps.old ≤ steps.new }
        ensures most { WhereTold T.counts (steps.new - steps.old
            ≤ length (elements self.old.presentation.document.nodes)) }
        ensures least { IfOk result (λ cells. WhereTold T.counts
            (any_interval self.old.presentation.document.nodes (interval_at cells)
            ≤ steps.new - steps.old)) }
    {
        reached_is_past();
        resolved_is_near();
        self.past.possible();
        let heard = logged_among(self.past.book(), len);
        let past = self.past.front(heard, len)?;
        let moment = last_moment(&past);
        Cells::over(self.alloc, past, moment, steps)
    }

    /// Makes these the cells that `rebuilt` gives, under its conditions. Where memory runs out all
    /// else is as before, and `settle` and `hear` answer `Memory` from then on.
    pub fn rebuild<L: Ledger>(
        &mut self,
        doc: Doc,
        len: usize,
        steps: &mut Steps<L>,
    ) -> Result<(), AllocError>
        requires { MayRebuild self.old doc len }
        ensures rebuilt { OnOk result (IsRebuilt self.old doc len self.new) }
        ensures refused { OnErr result
            (self.new ≡ record self.old { fault = Some book_fault.Memory }) }
        ensures counted { steps.old ≤ steps.new }
        ensures most { WhereTold T.counts (steps.new - steps.old
            ≤ length (elements doc.nodes)) }
        ensures least { OnOk result (WhereTold T.counts
            (any_interval doc.nodes (interval_at self.new) ≤ steps.new - steps.old)) }
    {
        match self.rebuilt(doc, len, steps) {
            Ok(rebuilt) => {
                *self = rebuilt;
                Ok(())
            }
            Err(fault) => {
                self.fault = Some(BookFault::Memory);
                Err(fault)
            }
        }
    }

    /// Sets a mark, to which `back` goes back. No refusal was answered and no mark stands. It takes
    /// no memory.
    pub fn mark(&mut self)
        requires sound { self.old.fault ≡ None }
        requires unmarked { self.old.marked ≡ None }
        ensures { self.new ≡ record self.old
            { marked = Some (self.old.presentation, self.old.diary) } }
    {
        self.past.mark();
        self.table.mark();
        self.mark = Some(self.moment);
    }

    /// Goes back to the mark, which stands, and takes it away; no refusal is answered any more. It
    /// takes no memory.
    #[cold]
    #[inline(never)]
    pub fn back(&mut self)
        requires { is_some self.old.marked ≡ true }
        ensures { (mark : Presentation × List AnyEntry) → self.old.marked ≡ Some mark → self.new
            ≡ at_mark self.old.touched mark }
    {
        reached_is_past();
        self.past.back();
        self.table.back();
        self.moment = self.mark.unwrap_or(0);
        self.mark = None;
        self.fault = None;
    }

    /// Takes away the mark, which stands. It takes no memory.
    pub fn forget(&mut self)
        requires { is_some self.old.marked ≡ true }
        ensures { self.new ≡ record self.old { marked = None } }
    {
        self.past.forget();
        self.table.forget();
        self.mark = None;
    }

    // Resolves up to a moment, where no refusal was answered. The elements at the places were
    // touched before.
    fn settle_through<L: Ledger>(
        &mut self,
        until: i64,
        mut places: PlaceSet,
        steps: &mut Steps<L>,
    ) -> Result<(), BookFault>
        requires sound { self.old.fault ≡ None }
        requires from { pos self.old.presentation.now ≤ℤ until }
        requires within { until ≤ℤ the_horizon }
        ensures settled { OnOk result (HasSettled (nat_abs until) (touched_at self.old places)
            self.new) }
        ensures refused { IfErr result (HasRefused
            (course_of (as_of self.old.presentation (nat_abs until))) self.old self.new) }
        ensures counted { steps.old ≤ steps.new }
        ensures evaluated { OnOk result (IsCounted T.counts HasEvaluatedSince self.old self.new
            (steps.new - steps.old)) }
    {
        reaches_further();
        self.past.possible();
        while let Some(coming) = self.due_by(until) {
            self.come_to(coming, until);
            if let Err(fault) = self.happen(coming, &mut places, steps) {
                return Err(fault);
            }
        }
        self.fault = Some(BookFault::Memory);
        take_elements(self.past.tree(), &mut places, &mut self.touched)?;
        self.places = places;
        self.fault = None;
        self.pass_to(until);
        Ok(())
    }

    // What comes first, where it is due by a moment. It takes no memory.
    fn due_by(&self, until: i64) -> Option<DueChange>
        requires { self.now.fault ≡ None }
        ensures first { IfSome result (λ c. first_at self.now ≡ Some (coming_meant c)) }
        ensures due { IfSome result (λ c. c.key.value ≤ℤ until) }
        ensures none { IfNone result (NothingBefore self.now (until +ℤ pos 1)) }
    {
        let coming = self.table.first()?;
        if coming.key.value <= until {
            Some(coming)
        } else {
            None
        }
    }

    // Moves on to a moment before which nothing comes.
    fn pass_to(&mut self, moment: i64)
        requires sound { self.old.fault ≡ None }
        requires from { pos self.old.presentation.now ≤ℤ moment }
        requires within { moment ≤ℤ the_horizon }
        requires quiet { NothingBefore self.old moment }
        ensures moved { self.new ≡ record self.old
            { presentation = as_of self.old.presentation (nat_abs moment) } }
        ensures same { IsSame (history_of self.old) (pos self.old.presentation.now)
            (history_of self.new) (pos self.new.presentation.now) }
        ensures ended { NothingBefore self.old (moment +ℤ pos 1) → IsSettled self.new }
    {
        time_passes_quietly();
        reaches_over_quiet();
        ended_is_diary();
        reached_is_past();
        self.past.possible();
        self.moment = moment;
    }

    // Moves on to the moment of what comes first, where that is later.
    fn come_to(&mut self, coming: DueChange, until: i64)
        requires sound { self.old.fault ≡ None }
        requires from { pos self.old.presentation.now ≤ℤ until }
        requires within { until ≤ℤ the_horizon }
        requires first { first_at self.old ≡ Some (coming_meant coming) }
        requires due { coming.key.value ≤ℤ until }
        ensures passed { IsPassed self.old self.new }
        ensures within { pos self.new.presentation.now ≤ℤ until }
        ensures first { first_at self.new ≡ Some (coming_meant coming) }
        ensures due { coming.key.value ≤ℤ pos self.new.presentation.now }
    {
        if self.moment < coming.key.value {
            self.pass_to(coming.key.value);
        }
    }

    // Cells of what has happened, at a moment up to which it is what a resolution comes to.
    fn over<L: Ledger>(
        alloc: Global,
        past: Past,
        moment: i64,
        steps: &mut Steps<L>,
    ) -> Result<Self, AllocError>
        requires { MayBegin past moment }
        ensures begun { IfOk result (λ cells. cells ≡ begun past moment) }
        ensures counted { steps.old ≤ steps.new }
        ensures most { WhereTold T.counts
            (steps.new - steps.old ≤ length (elements past.document.nodes)) }
        ensures least { IfOk result (λ cells. WhereTold T.counts
            (any_interval past.document.nodes (interval_at cells) ≤ steps.new - steps.old)) }
    {
        reached_is_past();
        let table = T::of(alloc, &past, moment, steps)?;
        Ok(Cells {
            past,
            moment,
            table,
            fault: None,
            mark: None,
            touched: Serials::new(alloc),
            places: PlaceSet::new(alloc),
            changed: Serials::new(alloc),
            group: Vec::new(alloc),
            alloc,
        })
    }

    // Takes in a log entry, which is heard at its moment. A refusal is answered from then on.
    fn take_in<L: Ledger>(
        &mut self,
        entry: LogEntry,
        places: &mut PlaceSet,
        steps: &mut Steps<L>,
    ) -> Result<(), BookFault>
        requires sound { self.old.fault ≡ None }
        requires moment { entry.moment ≡ pos self.old.presentation.now }
        requires may { may_happen entry.what ≡ true }
        requires room { length self.old.presentation.log + 1 ≤ the_entries }
        requires settled { NothingBefore self.old (pos self.old.presentation.now +ℤ pos 1) }
        ensures heard { OnOk result (IsHeard (touched_at self.old places.old) entry
            (touched_at self.new places.new)) }
        ensures only { OnOk result (TouchesOnly (touched_at self.old places.old)
            (touched_at self.new places.new)) }
        ensures refused { IfErr result (HasRefused
            (course_of (with_logged self.old.presentation entry)) self.old self.new) }
        ensures counted { steps.old ≤ steps.new }
        ensures evaluated { OnOk result (IsCounted T.counts HasEvaluatedBehind self.old self.new
            (steps.new - steps.old)) }
    {
        log_may_be_longer();
        reaches_further();
        reached_is_past();
        resolved_is_near();
        self.fault = Some(BookFault::Memory);
        let from = self.past.book().len();
        if let Err(fault) = self.past.hear(entry) {
            self.fault = Some(fault);
            return Err(fault);
        }
        self.past.possible();
        let since = Since {
            past: &self.past,
            from,
            moment: self.moment,
        };
        take_entries(&since, &mut self.table, &mut self.changed, places, steps)?;
        self.fault = None;
        Ok(())
    }

    // Appends the group of what comes first, which is due. A refusal is answered from then on.
    fn happen<L: Ledger>(
        &mut self,
        coming: DueChange,
        places: &mut PlaceSet,
        steps: &mut Steps<L>,
    ) -> Result<(), BookFault>
        requires sound { self.old.fault ≡ None }
        requires first { first_at self.old ≡ Some (coming_meant coming) }
        requires due { coming.key.value ≤ℤ pos self.old.presentation.now }
        ensures next { OnOk result (IsNext (touched_at self.old places.old)
            (touched_at self.new places.new)) }
        ensures only { OnOk result (TouchesOnly (touched_at self.old places.old)
            (touched_at self.new places.new)) }
        ensures refused { IfErr result (HasRefused (course_of self.old.presentation) self.old
            self.new) }
        ensures counted { steps.old ≤ steps.new }
        ensures evaluated { OnOk result (IsCounted T.counts HasEvaluatedBehind self.old self.new
            (steps.new - steps.old)) }
    {
        first_is_of_element();
        resolved_is_near();
        reached_is_past();
        self.fault = Some(BookFault::Memory);
        let from = self.past.book().len();
        fill_group(&self.past, self.moment, coming, &mut self.group)?;
        if let Err(fault) = append_all(&mut self.past, &self.group) {
            self.fault = Some(fault);
            return Err(fault);
        }
        self.past.possible();
        let since = Since {
            past: &self.past,
            from,
            moment: self.moment,
        };
        take_entries(&since, &mut self.table, &mut self.changed, places, steps)?;
        self.fault = None;
        Ok(())
    }
}
