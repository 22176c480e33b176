//! The plays of all elements of a document.

ghost use Rattle.std.specs.Prelude.{◌≡◌, ◌<◌, ℕ, List, [], Some, None, IfOk, length, map, option_copied, slice_get};
ghost use Rattle.std.specs.FinMap.{get};
ghost use Rattle.smil_model.specs.declared.document.Node.{Node as AnyNode};
ghost use Rattle.smil_model.specs.document.Document.{elements, serials, time_children};
ghost use Rattle.smil_instances.specs.Spread.{IsIndex};
ghost use Rattle.smil_model.specs.document.Valid.{IsNumberedTree};
ghost use Rattle.smil_model.specs.diary.Diary.{History, is_active, up_to};
ghost use Rattle.smil_model.specs.diary.Lawful.{IsLawful};
ghost use Rattle.smil_past.specs.declared.plays.TheConstants.{IDLE};
ghost use Rattle.smil_model.specs.Times.{IsMoment};
ghost use Rattle.smil_laws.specs.Near.{HasNear};
ghost use Rattle.smil_past.specs.Played.{TakesIn, all_played, played, played_at};
ghost use Rattle.smil_past.specs.Rows.{AreChildrenTaken, AreAfterParent, IsOwnTaken, IsAfterParent, idle_row, reset_row, row_of};
ghost use Rattle.smil_instances.specs.Contribution.{AreClocksAt};
ghost use Rattle.smil_model.specs.reach.Reach.{subject_of};
ghost use Rattle.smil_past.specs.Followed.{IsEntryAfter, MayBeTaken, may_wait};
ghost use Rattle.smil_past.specs.Queues.{MayStand};
ghost use Rattle.smil_past.specs.declared.plays.facts.PlayFacts.{PlayFacts as AnyPlayed};

pub mod facts;
mod row;

use super::places::element_place;
pub use facts::{PastInterval, PlayFacts};
use row::{OwnEntry, may_wait, own_row, turn_child};
use smil_instances::{DocumentHistory, subject};
use smil_model::{Duplicate, Entry, Log, SerialTable, Step, Time};
use smil_stretch::Clocks;
use smil_tree::Tree;
use std::alloc::{AllocError, Global};
use std::marker::Model;
use std::rc::Rc;

// What is kept of an element to which nothing has happened yet.
const IDLE: PlayFacts = PlayFacts {
    begun: None,
    shown_begun: None,
    first: 0,
    start: 0,
    first_finished: None,
    last_finished: None,
    shown_deferred: None,
    passed: None,
    length: Time::Unresolved,
    paused: false,
    iteration: 0,
    finished: 0,
    began_since_birth: false,
};

/// What a diary says of the plays of each element, seen as the list of it in document order.
pub struct Plays {
    places: Rc<SerialTable>,
    rows: Vec<(u32, PlayFacts)>,
}

impl Drop for Plays {
    // Dropped by a call of its own, not field by field in each function that drops one.
    fn drop(self) {
        let Plays {
            places: _places,
            rows: _rows,
        } = self;
    }
}

impl Model for Plays {
    ghost use Rattle.std.specs.Prelude.{List, ℕ};
    ghost use Rattle.std.specs.FinMap.{get};
    ghost use Rattle.smil_instances.specs.Spread.{IsIndex};
    ghost use Rattle.smil_past.specs.Rows.{keys_of};
    ghost use Rattle.smil_past.specs.declared.plays.facts.PlayFacts.{PlayFacts as AnyPlayed};

    ghost Value = { List (ℕ × AnyPlayed) };

    ghost view = { λ a. a.rows.items };

    ghost invariant = { λ a. IsIndex (keys_of a.rows.items) (get a.places.value) };
}

impl Duplicate for Plays {
    fn copy(&self) -> Result<Self, AllocError> {
        Ok(Plays {
            places: self.places.clone()?,
            rows: Vec::from_slice(*self.rows.allocator(), &self.rows)?,
        })
    }
}

impl Plays {
    /// The plays of the elements of a document to which nothing has happened yet, with the places
    /// of these elements; unless memory runs out.
    pub fn new(alloc: Global, tree: &Tree, places: Rc<SerialTable>) -> Result<Plays, AllocError>
        requires { IsIndex (serials (elements tree.now.nodes)) (get places.value) }
        ensures { (h : History) → h.nodes ≡ tree.now.nodes
            → IfOk result (λ plays. plays ≡ all_played (up_to h [])) }
    {
        let rows = idle_rows(alloc, tree.elements())?;
        Ok(Plays { places, rows })
    }

    /// Takes in an entry that may follow what has happened so far, by the document, the log, and
    /// the clocks before the entry, of fewer than `DIARY_ENTRIES` entries. The entry's number, if
    /// it has one, is from -10^12 to 10^12. It takes no memory, and touches the entry's element
    /// and, at a begin, a repeat, an end or a cut, its time children: an end leaves none of them
    /// deferred. It gives whether the element may stand in the queue of its time parent before the
    /// entry.
    pub(crate) fn follow(
        &mut self,
        history: &DocumentHistory<'_>,
        clocks: &Clocks,
        entry: Entry,
    ) -> bool
        requires follows { MayBeTaken entry history.now.tree.now clocks.now history.now.log.now }
        requires near { HasNear entry.step }
        ensures taken { (h : History)
            → IsEntryAfter h entry history.now.tree.now clocks.now history.now.log.now
            → TakesIn h entry self.old self.new }
        ensures waits { (h : History)
            → IsEntryAfter h entry history.now.tree.now clocks.now history.now.log.now
            → self.old ≡ all_played h → MayStand h entry.step result }
    {
        let waits = self.take_own(clocks, history.log, entry);
        self.take_children(history.tree, entry.step);
        waits
    }

    /// Lets the plays be those of the document to which nothing has happened yet. It takes no
    /// memory, and a step for each element.
    pub fn reset(&mut self)
        ensures { (h k : History) → self.old ≡ all_played h → k.nodes ≡ h.nodes
            → self.new ≡ all_played (up_to k []) }
    {
        reset_each(&mut self.rows);
    }

    /// What is kept of an element; None exactly where the document has no such element. It takes no
    /// memory.
    pub fn of(&self, who: u32) -> Option<&PlayFacts>
        ensures { (h : History) → self.now ≡ all_played h
            → option_copied result ≡ played_at h who }
    {
        self.row(who)
    }

    /// What is kept of the element at an index among the elements in document order, from 0. It
    /// takes no look-up, and no memory.
    pub fn at(&self, index: usize) -> &PlayFacts
        requires { index < length self.now }
        ensures { (h : History) (e : AnyNode) → self.now ≡ all_played h
            → slice_get (elements h.nodes) index ≡ Some e → result.now ≡ played h e.serial }
    {
        &self.rows[index].1
    }

    /// Whether an element is active; false where the document has no such element. It takes no
    /// memory.
    pub fn active(&self, who: u32) -> bool
        ensures { (h : History) (next : ℕ) → self.now ≡ all_played h
            → IsNumberedTree (record { nodes = h.nodes; next = next }) → IsLawful h
            → result ≡ is_active h.diary who }
    {
        match self.row(who) {
            Some(row) => row.begun.is_some(),
            None => false,
        }
    }

    // The row of an element.
    fn row(&self, who: u32) -> Option<&PlayFacts>
        ensures { option_copied result ≡ row_of self.now who }
    {
        let place = element_place(&self.places, who)?;
        Some(&self.rows.get(place)?.1)
    }

    // Takes in what an entry makes of its own element; whether that may stand in the queue of its
    // time parent before the entry.
    fn take_own(&mut self, clocks: &Clocks, log: &Log, entry: Entry) -> bool
        requires moment { IsMoment entry.moment }
        requires near { HasNear entry.step }
        ensures taken { (h : History) → AreClocksAt h clocks.now entry.moment → h.log ≡ log.now
            → IsOwnTaken h entry self.old self.new }
        ensures waits { (who : ℕ) (row : AnyPlayed)
            → subject_of log.now entry.step ≡ Some who → row_of self.old who ≡ Some row
            → result ≡ may_wait row entry.step }
    {
        let Some(who) = subject(log, entry.step) else {
            return true;
        };
        let Some(place) = element_place(&self.places, who) else {
            return true;
        };
        let own = OwnEntry {
            who,
            entry,
            clocks,
            log,
        };
        let row = &mut self.rows[place].1;
        let waits = may_wait(row, entry.step);
        own_row(&own, row);
        waits
    }

    // Takes in what a step makes of the time children of its element.
    fn take_children(&mut self, tree: &Tree, step: Step)
        ensures { AreChildrenTaken tree.now.nodes step self.old self.new }
    {
        match step {
            Step::Began { who, .. } => self.turn_children(tree, who, true),
            Step::Repeated { who, .. } => self.turn_children(tree, who, true),
            Step::Ended { who, .. } => self.turn_children(tree, who, false),
            Step::Cut { who } => self.turn_children(tree, who, false),
            Step::Paused { .. } => {}
            Step::Resumed { .. } => {}
            Step::Deferred { .. } => {}
            Step::Passed { .. } => {}
            Step::Logged { .. } => {}
        }
    }

    // Takes in a birth, or else an end, of the time children of an element.
    #[inline(always)]
    fn turn_children(&mut self, tree: &Tree, who: u32, birth: bool)
        ensures { AreAfterParent (time_children tree.now.nodes who) birth self.old self.new }
    {
        for child in tree.time_children(who) {
            self.turn(*child, birth);
        }
    }

    // Takes in a birth, or else an end, of the time parent of an element.
    fn turn(&mut self, who: u32, birth: bool)
        ensures { IsAfterParent who birth self.old self.new }
    {
        let Some(place) = element_place(&self.places, who) else {
            return;
        };
        turn_child(&mut self.rows[place].1, birth);
    }
}

// Lets nothing have happened yet to each element.
fn reset_each(rows: &mut [(u32, PlayFacts)])
    ensures { rows.new ≡ map reset_row rows.old }
{
    for row in rows.iter_mut() {
        row.1 = IDLE;
    }
}

// The rows of elements to which nothing has happened yet.
fn idle_rows(alloc: Global, whos: &[u32]) -> Result<Vec<(u32, PlayFacts)>, AllocError>
    ensures { IfOk result (λ rows. rows.items ≡ map idle_row whos.now) }
{
    let mut rows = Vec::with_capacity(alloc, whos.len())?;
    for who in whos {
        rows.push((*who, IDLE))?;
    }
    Ok(rows)
}
