//! The live table: only what may have changed is evaluated after a happening.

ghost use Rattle.std.specs.Prelude.{◌≡◌, ◌↔◌, ◌<◌, ◌≤◌, ◌+◌, ◌-◌, ℕ, Some, true, false, drop, length, slice_get, OnOk, IfOk, IfSome, IsTrue};
ghost use Rattle.smil_model.specs.declared.document.Node.{Node as AnyNode};
ghost use Rattle.smil_model.specs.document.Document.{elements, node_at};
ghost use Rattle.smil_model.specs.document.Closure.{has};
ghost use Rattle.smil_model.specs.document.Dependencies.{has_implicit_duration};
ghost use Rattle.smil_model.specs.diary.Lawful.{has_element};
ghost use Rattle.smil_model.specs.interval.Current.{current_interval};
ghost use Rattle.smil_model.specs.reach.Bounds.{reaches};
ghost use Rattle.smil_laws.specs.Near.{IsIntervalNear};
ghost use Rattle.smil_past.specs.Past.{IsPresent, front, history_of};
ghost use Rattle.smil_element.specs.Endings.{ending_by};
ghost use Rattle.smil_cells.specs.CellsState.{fresh};
ghost use Rattle.smil_rounds.specs.declared.current_rows.CurrentRow.{CurrentRow as AnyRow};
ghost use Rattle.smil_rounds.specs.Round.{AreOfElements, IsRowEvaluated};
ghost use Rattle.smil_rounds.specs.Current.{interval_in};
ghost use Rattle.smil_nodes.specs.Endings.{AreKnown, IsEnded, KnowsEnds, ending_in, nobody, put_ending};
ghost use Rattle.smil_nodes.specs.Marked.{GoesBack, IsUpToDate};
ghost use Rattle.smil_nodes.specs.Schedule.{row_put};
ghost use Rattle.smil_cells.specs.Evaluated.{AreChanged};
ghost use Rattle.smil_nodes.specs.Work.{AreDueOnce, HasSame};

use super::concerned::note_concerned;
use super::endings::Endings;
use super::followers::{Effect, put_container, put_ranks};
use super::schedule::Schedule;
use super::sources::Sources;
use super::undo::{Note, Undo};
use smil_cells::{Cells, Since, Table};
use smil_element::{
    DueChange, DueChanges, Intervals, Present, Room, ending_at, is_same_comings, is_same_ending,
    outcome_of,
};
use smil_interval::{Steps, is_same_interval};
use smil_model::{Duplicate, Interval, PlaceSet, Serials};
use smil_past::Past;
use std::alloc::{AllocError, Global};
use std::sync::ledger::Ledger;

/// Cells over the live table.
pub type LiveCells = Cells<LiveTable>;

/// A table that evaluates, after a happening, the elements that it concerns, the container of an
/// element whose ends it may change, those whose begins and ends follow from an element whose
/// interval changed, and the container of one whose kept ending did. How many evaluations that takes
/// at the most is a clause of `refresh`.
pub struct LiveTable {
    schedule: Schedule,
    /// The ends of the time children of each element, by the intervals of the schedule.
    endings: Endings,
    /// The ranks, in the order of the document's graph, of the elements still to be evaluated.
    agenda: PlaceSet,
    /// Where a mark stands, the elements that changed since, as they were there.
    undo: Undo,
    has_mark: bool,
    room: Room,
    alloc: Global,
}

impl Drop for LiveTable {
    // Dropped by a call of its own, not field by field in each function that drops one.
    fn drop(self) {
        let LiveTable {
            schedule: _schedule,
            endings: _endings,
            agenda: _agenda,
            undo: _undo,
            has_mark: _has_mark,
            room: _room,
            alloc: _alloc,
        } = self;
    }
}

impl Table for LiveTable {
    ghost use Rattle.std.specs.Prelude.{true};
    ghost use Rattle.smil_nodes.specs.Marked.{IsMarked, IsUpToDate, stay_up_to_date};

    ghost is_current = { λ t h now. IsUpToDate t.schedule t.endings h now };

    ghost is_marked = { λ t h now. IsMarked t.has_mark t.undo t.schedule t.endings h now };

    ghost has_mark = { λ t. t.has_mark };

    ghost counts = { true };

    fn of<L: Ledger>(
        alloc: Global,
        past: &Past,
        moment: i64,
        steps: &mut Steps<L>,
    ) -> Result<Self, AllocError> {
        let schedule = Schedule::of(alloc, past)?;
        let mut table = LiveTable {
            endings: Endings::of(alloc, past.tree(), &schedule)?,
            undo: Undo::of(alloc, schedule.rows().len())?,
            schedule,
            agenda: PlaceSet::new(alloc),
            has_mark: false,
            room: Room::new(alloc),
            alloc,
        };
        table.evaluate_all(past, moment, steps)?;
        Ok(table)
    }

    // Besides what the trait says, the rows are those of before with the elements that are due
    // evaluated one behind the other, each once and in one step.
    fn refresh<L: Ledger>(
        &mut self,
        since: &Since<'_>,
        changed: &mut Serials,
        steps: &mut Steps<L>,
    ) -> Result<(), AllocError>
        requires moment { IsPresent since.now.past.now since.now.moment }
        requires within { since.now.from ≤ length since.now.past.now.diary }
        requires before { IsUpToDate self.old.schedule self.old.endings
            (front since.now.past.now since.now.from) since.now.moment }
        ensures current { OnOk result (IsUpToDate self.new.schedule self.new.endings
            (history_of since.now.past.now) since.now.moment) }
        ensures changed { OnOk result ((s : ℕ) → has changed.new s ≡ false
            → current_interval (history_of since.now.past.now) since.now.moment s
            ≡ current_interval (front since.now.past.now since.now.from) since.now.moment s) }
        ensures more { OnOk result ((s : ℕ) → has changed.old s ≡ true → has changed.new s ≡ true) }
        ensures back { GoesBack self.old self.new }
        ensures has_mark { self.new.has_mark ≡ self.old.has_mark }
        ensures counted { steps.old ≤ steps.new }
        ensures told { OnOk result (AreChanged changed.old changed.new
            (current_interval (front since.now.past.now since.now.from) since.now.moment)
            (current_interval (history_of since.now.past.now) since.now.moment)) }
        ensures due { OnOk result (AreDueOnce (history_of since.now.past.now) since.now.moment
            since.now.past.now.document.nodes since.now.past.now.log
            (drop since.now.from since.now.past.now.diary) self.old.schedule self.new.schedule
            (current_interval (front since.now.past.now since.now.from) since.now.moment)
            (current_interval (history_of since.now.past.now) since.now.moment)
            (steps.new - steps.old)) }
        ensures most { OnOk result (steps.new - steps.old
            ≤ reaches since.now.past.now.document.nodes since.now.past.now.log
            (drop since.now.from since.now.past.now.diary)) }
        ensures least { OnOk result (fresh since.now.past.now.document.nodes
            (current_interval (front since.now.past.now since.now.from) since.now.moment)
            (current_interval (history_of since.now.past.now) since.now.moment)
            ≤ steps.new - steps.old) }
    {
        let past = since.past;
        let moment = since.moment;
        past.possible();
        let graph = past.graph();
        let order = graph.order();
        self.agenda.clear();
        note_concerned(past, graph, &self.schedule, since.from, &mut self.agenda)?;
        while let Some(rank) = self.agenda.take_first() {
            let who = order[rank];
            let present = Present { past, who, moment };
            let effect = self.evaluate(&present, steps)?;
            if effect.interval {
                changed.push(who)?;
                put_ranks(graph.follower_ranks(rank), &mut self.agenda)?;
                put_container(past.tree(), graph, who, effect.ending, &mut self.agenda)?;
            }
        }
        Ok(())
    }

    fn interval(&self, who: u32) -> Option<Interval> {
        self.schedule.interval(who)
    }

    fn first(&self) -> Option<DueChange> {
        self.schedule.first()
    }

    fn copy(&self) -> Result<Self, AllocError> {
        Ok(LiveTable {
            schedule: self.schedule.copy()?,
            endings: self.endings.copy()?,
            agenda: PlaceSet::new(self.alloc),
            undo: Undo::of(self.alloc, self.schedule.rows().len())?,
            has_mark: false,
            room: Room::new(self.alloc),
            alloc: self.alloc,
        })
    }

    fn mark(&mut self) {
        self.undo.clear();
        self.has_mark = true;
    }

    fn back(&mut self) {
        while let Some(noted) = self.undo.take_last() {
            put_back(&mut self.schedule, &mut self.endings, noted);
        }
        self.has_mark = false;
    }

    fn forget(&mut self) {
        self.undo.clear();
        self.has_mark = false;
    }

    ghost stays = { λ t h k m n same is. stay_up_to_date t.schedule t.endings h k m n same is };
}

impl LiveTable {
    // Evaluates all elements, each once.
    fn evaluate_all<L: Ledger>(
        &mut self,
        past: &Past,
        moment: i64,
        steps: &mut Steps<L>,
    ) -> Result<(), AllocError>
        requires moment { IsPresent past.now moment }
        requires of_elements { AreOfElements past.now.document.nodes self.old.schedule }
        requires known { AreKnown (history_of past.now) (interval_in self.old.schedule) nobody
            self.old.endings }
        ensures current { OnOk result (IsUpToDate self.new.schedule self.new.endings
            (history_of past.now) moment) }
        ensures has_mark { self.new.has_mark ≡ self.old.has_mark }
        ensures counted { steps.old ≤ steps.new }
        ensures steps { OnOk result (steps.new ≡ steps.old
            + length (elements past.now.document.nodes)) }
        ensures most { steps.new ≤ steps.old + length (elements past.now.document.nodes) }
    {
        past.possible();
        for who in past.graph().order() {
            let present = Present {
                past,
                who: *who,
                moment,
            };
            self.evaluate(&present, steps)?;
        }
        Ok(())
    }

    // Evaluates an element, where the ends of its time children are right if its duration is
    // implicit. The answer is what changes of it.
    fn evaluate<L: Ledger>(
        &mut self,
        present: &Present<'_>,
        steps: &mut Steps<L>,
    ) -> Result<Effect, AllocError>
        requires element { has_element present.now.past.now.document.nodes present.now.who ≡ true }
        requires moment { IsPresent present.now.past.now present.now.moment }
        requires of_elements { AreOfElements present.now.past.now.document.nodes
            self.old.schedule }
        requires known { (e : AnyNode)
            → node_at (elements present.now.past.now.document.nodes) present.now.who ≡ Some e
            → has_implicit_duration e ≡ true
            → KnowsEnds self.old.schedule self.old.endings (history_of present.now.past.now)
            present.now.who }
        ensures taken { OnOk result (IsRowEvaluated (history_of present.now.past.now)
            present.now.moment present.now.who self.old.schedule self.new.schedule) }
        ensures ended { OnOk result (IsEnded (history_of present.now.past.now) present.now.who
            self.new.schedule self.old.endings self.new.endings) }
        ensures same { IfOk result (λ effect. (effect.interval ≡ false)
            ↔ HasSame present.now.who self.old.schedule self.new.schedule) }
        ensures ending { IfOk result (λ effect. effect.ending ≡ false
            → self.new.endings ≡ self.old.endings) }
        ensures agenda { self.new.agenda ≡ self.old.agenda }
        ensures back { GoesBack self.old self.new }
        ensures has_mark { self.new.has_mark ≡ self.old.has_mark }
        ensures counted { steps.old ≤ steps.new }
        ensures steps { OnOk result (steps.new ≡ steps.old + 1) }
        ensures most { steps.new ≤ steps.old + 1 }
    {
        let who = present.who;
        present.past.possible();
        let index = self.schedule.index_of(who).unwrap();
        let sources = Sources {
            schedule: &self.schedule,
            endings: &self.endings,
            index,
        };
        let made = outcome_of(present, index as u32, &sources, &mut self.room, steps)?;
        let changes = self.replace(index, made.interval, &made.comings)?;
        let ends = self.put_ending(index, present, made.interval)?;
        Ok(Effect {
            interval: changes,
            ending: ends,
        })
    }

    // Puts an interval, and what comes by it, in the row at an index; where a mark stands, what was
    // there is noted. Nothing is done where that is there already. The answer is whether the
    // interval is another than before.
    fn replace(
        &mut self,
        index: usize,
        interval: Option<Interval>,
        comings: &DueChanges,
    ) -> Result<bool, AllocError>
        requires index { index < length self.old.schedule }
        requires near { IfSome interval IsIntervalNear }
        ensures put { OnOk result (self.new.schedule
            ≡ row_put self.old.schedule index interval comings.now) }
        ensures changes { IfOk result (λ changes. (row : AnyRow)
            → slice_get self.old.schedule index ≡ Some row
            → (changes ≡ false) ↔ (row.interval ≡ interval)) }
        ensures endings { self.new.endings ≡ self.old.endings }
        ensures back { GoesBack self.old self.new }
        ensures agenda { self.new.agenda ≡ self.old.agenda }
        ensures has_mark { self.new.has_mark ≡ self.old.has_mark }
    {
        let changes = !is_same_interval(self.schedule.row(index).interval, interval);
        if !changes && self.is_there(index, comings) {
            return Ok(false);
        }
        if self.has_mark {
            self.undo
                .note(index, self.schedule.row(index), &self.endings)?;
        }
        self.schedule.put(index, interval, comings);
        Ok(changes)
    }

    // Whether this comes by the row at an index.
    fn is_there(&self, index: usize, comings: &DueChanges) -> bool
        requires { index < length self.now.schedule }
        ensures { (row : AnyRow) → slice_get self.now.schedule index ≡ Some row
            → (IsTrue result ↔ (row.comings ≡ comings.now)) }
    {
        is_same_comings(&self.schedule.row(index).comings, comings)
    }

    // Puts the ending of an element with an index, by its interval, where that is kept; where a
    // mark stands, what was there is noted. Nothing is done where it is there already. The answer is
    // whether another was kept.
    #[inline(always)]
    fn put_ending(
        &mut self,
        index: usize,
        present: &Present<'_>,
        interval: Option<Interval>,
    ) -> Result<bool, AllocError>
        requires element { has_element present.now.past.now.document.nodes present.now.who ≡ true }
        requires here { slice_get (elements present.now.past.now.document.nodes) index
            ≡ node_at (elements present.now.past.now.document.nodes) present.now.who }
        requires index { index < length self.old.schedule }
        ensures ended { OnOk result (self.new.endings ≡ put_ending self.old.endings index
            (ending_by (history_of present.now.past.now) interval present.now.who)) }
        ensures stays { IfOk result (λ changes. changes ≡ false
            → self.new.endings ≡ self.old.endings) }
        ensures rows { self.new.schedule ≡ self.old.schedule }
        ensures back { GoesBack self.old self.new }
        ensures agenda { self.new.agenda ≡ self.old.agenda }
        ensures has_mark { self.new.has_mark ≡ self.old.has_mark }
    {
        if !self.endings.keeps(index) {
            return Ok(false);
        }
        let ending = ending_at(present.past, present.who, index, interval);
        if is_same_ending(self.endings.ending(index), ending) {
            return Ok(false);
        }
        if self.has_mark {
            self.undo
                .note(index, self.schedule.row(index), &self.endings)?;
        }
        self.endings.put(index, ending);
        Ok(true)
    }
}

// Puts back what was noted of an element; where there is no row with its index nothing changes.
fn put_back(schedule: &mut Schedule, endings: &mut Endings, noted: Note)
    requires { IfSome noted.interval IsIntervalNear }
    ensures rows { schedule.new ≡ row_put schedule.old noted.index noted.interval noted.comings }
    ensures ends { endings.new ≡ put_ending endings.old noted.index noted.ending }
{
    if noted.index < schedule.rows().len() {
        schedule.put(noted.index, noted.interval, &noted.comings);
    }
    endings.put(noted.index, noted.ending);
}
