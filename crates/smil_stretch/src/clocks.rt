//! The clocks of a document.

ghost use Rattle.std.specs.Prelude.{◌≡◌, [], ◌≤ℤ◌, ◌||◌, if◌then◌else◌, true, Some, None, IfOk, IfSome, IsSome, map};
ghost use Rattle.smil_model.specs.document.Document.{node_at};
ghost use Rattle.smil_tree.specs.Outline.{parent_place};
ghost use Rattle.smil_model.specs.document.Valid.{IsNumberedTree};
ghost use Rattle.smil_model.specs.diary.Diary.{History, is_paused as paused_in, up_to, with_entry, last_moment};
ghost use Rattle.smil_model.specs.diary.Lawful.{IsLawful, has_element};
ghost use Rattle.smil_model.specs.diary.Clocks.{run as run_of, outer as outer_of, stands as stands_of, outer_stands as outer_stands_of, to_document as document_time, between as between_clocks};
ghost use Rattle.smil_model.specs.declared.diary.Entry.{Entry as AnyEntry};
ghost use Rattle.smil_model.specs.declared.diary.Step.{Step as AnyStep};
ghost use Rattle.smil_model.specs.declared.diary.Step.TheVariants as step;
ghost use Rattle.smil_stretch.specs.Clocks.{AreClocksOf, IsHistoryOf, IsLawfulFor, MayEndPause, MayFollow, ends_pause};
ghost use Rattle.smil_model.specs.Times.{IsCarried, IsMoment, IsNear};
ghost use Rattle.smil_stretch.specs.NodeClocks.{AllFit, Fits, MayTurn, Turns, clock_at, idle_clock, parent_at, reset_clock};

mod readings;

use super::clock::{Clock, NodeClock, shown_by, stands_by};
use super::refresh::refresh;
pub use readings::ClockReadings;
use smil_diary::Book;
use smil_model::{Duplicate, Entry, SerialTable, Step, first_places};
use smil_tree::Tree;
use std::alloc::{AllocError, Global};
use std::marker::Model;
use std::rc::Rc;

/// The clocks of a document after what has happened so far, seen as the clock of each node in
/// document order. Each answer is for moments from the last entry of the diary on. A clock runs,
/// and is behind document time by what it lost, or stands while its element or one above it is
/// paused.
pub struct Clocks {
    /// The places of the nodes; a copy has the same ones.
    places: Rc<SerialTable>,
    clocks: Vec<NodeClock>,
}

impl Drop for Clocks {
    // Dropped by a call of its own, not field by field in each function that drops one.
    fn drop(self) {
        let Clocks {
            places: _places,
            clocks: _clocks,
        } = self;
    }
}

impl Model for Clocks {
    ghost use Rattle.std.specs.Prelude.{List};
    ghost use Rattle.std.specs.FinMap.{get};
    ghost use Rattle.smil_stretch.specs.declared.clock.NodeClock.{NodeClock as AnyClock};
    ghost use Rattle.smil_stretch.specs.NodeClocks.{AllFit, ArePlacesOf};

    ghost Value = { List AnyClock };

    ghost view = { λ a. a.clocks.items };

    ghost invariant = { λ a.
        ArePlacesOf (get a.places.value) a.clocks.items × AllFit a.clocks.items };
}

impl Duplicate for Clocks {
    fn copy(&self) -> Result<Self, AllocError> {
        Ok(Clocks {
            places: self.places.clone()?,
            clocks: Vec::from_slice(*self.clocks.allocator(), &self.clocks)?,
        })
    }
}

impl Clocks {
    /// The clocks of a document after the entries of its diary, unless memory runs out.
    pub fn of(alloc: Global, tree: &Tree, book: &Book) -> Result<Self, AllocError>
        requires { IsLawfulFor tree.now book.now }
        ensures { (h : History) → IsHistoryOf h tree.now book.now
            → IfOk result (λ clocks. AreClocksOf clocks h) }
    {
        tree.valid();
        let mut clocks = Clocks::new(alloc, tree)?;
        for entry in book.entries() {
            clocks.follow(*entry);
        }
        Ok(clocks)
    }

    /// What the element's own clock shows at a moment from 0 to 10^12. It takes no memory.
    pub fn run(&self, who: u32, moment: i64) -> i64
        requires { IsMoment moment }
        ensures value { (h : History) → AreClocksOf self.now h → last_moment h.diary ≤ℤ moment
            → result ≡ run_of h who moment }
        ensures near { IsNear result }
    {
        shown_by(self.clock(who), moment)
    }

    /// What the clock of the element's time parent shows at a moment from 0 to 10^12, and the
    /// moment itself for the root. It takes no memory.
    pub fn outer(&self, who: u32, moment: i64) -> i64
        requires { IsMoment moment }
        ensures value { (h : History) → AreClocksOf self.now h → last_moment h.diary ≤ℤ moment
            → result ≡ outer_of h who moment }
        ensures near { IsNear result }
    {
        shown_by(self.parent(who), moment)
    }

    /// Whether the element's own clock stands. It takes no memory.
    pub fn stands(&self, who: u32) -> bool
        ensures { (h : History) → AreClocksOf self.now h → result ≡ stands_of h who }
    {
        stands_by(self.clock(who))
    }

    /// Whether the clock of the element's time parent stands. It takes no memory.
    pub fn outer_stands(&self, who: u32) -> bool
        ensures { (h : History) → AreClocksOf self.now h → result ≡ outer_stands_of h who }
    {
        stands_by(self.parent(who))
    }

    /// Takes in that the element, which is active and not paused, is paused at this moment. It
    /// takes no memory, and touches the clocks of the element and of those below it alone.
    pub fn pause(&mut self, who: u32, moment: i64)
        requires { MayFollow self.old (record { moment = moment; step = step.Paused who }) }
        ensures { (h : History) → AreClocksOf self.old h
            → IsLawful (with_entry h (record { moment = moment; step = step.Paused who }))
            → AreClocksOf self.new (with_entry h
            (record { moment = moment; step = step.Paused who })) }
    {
        self.turn(who, true, moment);
    }

    /// Takes in that the element, which is paused, resumes, ends or is cut at this moment. It takes
    /// no memory, and touches the clocks of the element and of those below it alone.
    pub fn resume(&mut self, who: u32, moment: i64)
        requires { MayEndPause self.old who moment }
        ensures { (h : History) (by : AnyStep) → AreClocksOf self.old h → ends_pause who by ≡ true
            → IsLawful (with_entry h (record { moment = moment; step = by }))
            → AreClocksOf self.new (with_entry h (record { moment = moment; step = by })) }
    {
        self.turn(who, false, moment);
    }

    /// Takes in an entry of any kind, which may follow what has happened so far. A pause, and a
    /// resume, an end or a cut of a paused element change clocks; every other entry leaves all as
    /// they are, in a fixed number of steps. It takes no memory, and touches the clocks of the
    /// entry's element and of those below it alone.
    pub fn follow(&mut self, entry: Entry)
        requires { MayFollow self.old entry }
        ensures { (h : History) → AreClocksOf self.old h → IsLawful (with_entry h entry)
            → AreClocksOf self.new (with_entry h entry) }
    {
        match entry.step {
            Step::Paused { who } => self.pause(who, entry.moment),
            Step::Resumed { who } | Step::Ended { who, .. } | Step::Cut { who } => {
                if self.is_paused(who) {
                    self.resume(who, entry.moment);
                }
            }
            _ => {}
        }
    }

    /// Lets the clocks be those of the document to which nothing has happened yet. It takes no
    /// memory, and a step for each node.
    pub fn reset(&mut self)
        ensures { (h k : History) → AreClocksOf self.old h → k.nodes ≡ h.nodes
            → AreClocksOf self.new (up_to k []) }
    {
        reset_each(&mut self.clocks);
    }

    /// A value on the clock of the element's time parent, in document time, at a moment from 0 to
    /// 10^12. The value is from -10^13 to 10^13. It takes no memory.
    pub fn to_document(&self, who: u32, value: i64, moment: i64) -> i64
        requires value { IsCarried value }
        requires moment { IsMoment moment }
        ensures { (h : History) → AreClocksOf self.now h → last_moment h.diary ≤ℤ moment
            → result ≡ document_time h who value moment }
    {
        moment + (value - self.outer(who, moment))
    }

    /// A value on the clock of the time parent of `from`, on that of the time parent of `to`, at a
    /// moment from 0 to 10^12. The value is from -10^13 to 10^13. It takes no memory.
    pub fn between(&self, from: u32, to: u32, value: i64, moment: i64) -> i64
        requires value { IsCarried value }
        requires moment { IsMoment moment }
        ensures { (h : History) → AreClocksOf self.now h → last_moment h.diary ≤ℤ moment
            → result ≡ between_clocks h from to value moment }
    {
        self.outer(to, moment) + (value - self.outer(from, moment))
    }

    /// A value on the clock of the time parent of `from`, on that of the time parent of `to`, at a
    /// moment from 0 to 10^12; None where one of these two clocks stands. The value is from -10^13
    /// to 10^13. It takes no memory.
    pub fn running_between(&self, from: u32, to: u32, value: i64, moment: i64) -> Option<i64>
        requires value { IsCarried value }
        requires moment { IsMoment moment }
        ensures { (h : History) → AreClocksOf self.now h → last_moment h.diary ≤ℤ moment → result
            ≡ (if outer_stands_of h to || outer_stands_of h from then None
            else Some (between_clocks h from to value moment)) }
    {
        let own = self.parent(to);
        let other = self.parent(from);
        if stands_by(own) || stands_by(other) {
            return None;
        }
        Some(shown_by(own, moment) + (value - shown_by(other, moment)))
    }

    // The clocks of a document to which nothing has happened yet.
    fn new(alloc: Global, tree: &Tree) -> Result<Self, AllocError>
        requires { IsNumberedTree tree.now }
        ensures { IfOk result (λ clocks. clocks ≡ map (idle_clock tree.now.nodes) tree.now.nodes) }
    {
        Clocks::indexed(alloc, idle_clocks(alloc, tree)?)
    }

    // These clocks, with the table of their places.
    fn indexed(alloc: Global, clocks: Vec<NodeClock>) -> Result<Self, AllocError>
        requires { AllFit clocks.items }
        ensures { IfOk result (λ made. made ≡ clocks.items) }
    {
        Ok(Clocks {
            places: Rc::new(alloc, first_places(alloc, &clocks)?)?,
            clocks,
        })
    }

    // The clock of a node.
    fn clock(&self, who: u32) -> Option<NodeClock>
        ensures value { result ≡ clock_at self.now who }
        ensures fits { IfSome result (λ n. Fits n.clock) }
    {
        let place = self.places.get(who)?;
        self.clocks.get(place).copied()
    }

    // The clock of the time parent of a node.
    fn parent(&self, who: u32) -> Option<NodeClock>
        ensures value { result ≡ parent_at self.now who }
        ensures fits { IfSome result (λ n. Fits n.clock) }
    {
        let place = self.clock(who)?.parent_place()?;
        self.clocks.get(place).copied()
    }

    // Whether the node is an element that is itself paused.
    fn is_paused(&self, who: u32) -> bool
        ensures { (h : History) → AreClocksOf self.now h → has_element h.nodes who ≡ true
            → result ≡ paused_in h.diary who }
    {
        match self.clock(who) {
            Some(node) => node.paused,
            None => false,
        }
    }

    // Takes in that an element of the document is paused, or no longer is, from this moment on.
    fn turn(&mut self, who: u32, paused: bool, moment: i64)
        requires { MayTurn self.old who paused moment }
        ensures { (h : History) (y : AnyEntry) → AreClocksOf self.old h → IsLawful (with_entry h y)
            → Turns h y who paused → y.moment ≡ moment → AreClocksOf self.new (with_entry h y) }
    {
        let place = self.places.get(who).unwrap();
        self.clocks[place].paused = paused;
        refresh(&mut self.clocks, place, moment);
    }
}

// Lets each clock run and have lost nothing, and no node be paused.
fn reset_each(clocks: &mut [NodeClock])
    ensures { clocks.new ≡ map reset_clock clocks.old }
{
    for node in clocks.iter_mut() {
        node.paused = false;
        node.clock = Clock::Runs { lost: 0 };
    }
}

// The place of the time parent of a node.
fn parent_of(tree: &Tree, serial: u32) -> Option<u32>
    requires { IsSome (node_at tree.now.nodes serial) }
    ensures { result ≡ parent_place tree.now.nodes serial }
{
    tree.valid();
    match tree.parent_place(serial) {
        Some(place) => Some(place as u32),
        None => None,
    }
}

// The clocks of the nodes of a document to which nothing has happened yet: all run, and lost
// nothing.
fn idle_clocks(alloc: Global, tree: &Tree) -> Result<Vec<NodeClock>, AllocError>
    requires { IsNumberedTree tree.now }
    ensures { IfOk result (λ clocks. clocks.items
        ≡ map (idle_clock tree.now.nodes) tree.now.nodes) }
{
    let mut clocks = Vec::with_capacity(alloc, tree.len())?;
    for node in tree.nodes() {
        clocks.push(NodeClock {
            serial: node.serial,
            paused: false,
            parent: parent_of(tree, node.serial),
            clock: Clock::Runs { lost: 0 },
        })?;
    }
    Ok(clocks)
}
