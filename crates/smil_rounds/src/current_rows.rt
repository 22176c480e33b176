//! What is known of each element.

ghost use Rattle.std.specs.Prelude.{◌≡◌, ◌↔◌, IsTrue, ◌==◌, ◌≤◌, ◌+◌, map, slice_set, slice_get, Some, true, IfOk, IfSome, OnOk};
ghost use Rattle.std.specs.List.{position};
ghost use Rattle.smil_model.specs.declared.document.Node.{Node as AnyNode};
ghost use Rattle.smil_model.specs.document.Document.{elements, node_at};
ghost use Rattle.smil_model.specs.document.Dependencies.{has_implicit_duration};
ghost use Rattle.smil_model.specs.diary.Lawful.{has_element};
ghost use Rattle.smil_laws.specs.Near.{IsIntervalNear};
ghost use Rattle.smil_past.specs.Past.{IsPresent, history_of};
ghost use Rattle.smil_rounds.specs.declared.current_rows.CurrentRow.{CurrentRow as AnyRow};
ghost use Rattle.smil_rounds.specs.Round.{IsRowOf};
ghost use Rattle.smil_rounds.specs.Rows.{IsChosen, empty_row, row_without};

use smil_element::{
    Container, Containers, DueChange, DueChanges, Intervals, Present, Room, outcome_of,
    walked_duration,
};
use smil_interval::Steps;
use smil_model::{ChildEnd, Duplicate, HasSerial, Interval, Key, SerialTable, Time};
use smil_past::Past;
use std::alloc::{AllocError, Global};
use std::marker::Model;
use std::rc::Rc;
use std::sync::ledger::Ledger;

/// An element with its interval, in milliseconds on the clock of its time parent, and what comes of
/// it.
#[derive(Clone, Copy)]
pub struct CurrentRow {
    pub serial: u32,
    pub interval: Option<Interval>,
    pub comings: DueChanges,
}

impl HasSerial for CurrentRow {
    ghost serial = { λ row. row.serial };

    fn serial(&self) -> u32 {
        self.serial
    }
}

/// An element at a moment, with its index among the elements.
#[derive(Clone, Copy)]
pub struct IndexedElement<'a> {
    pub present: Present<'a>,
    pub index: usize,
}

/// The elements of a document in document order, each with its interval, whose numbers are from
/// -10^12 to 10^12, and what comes of it; seen as the list of them.
#[derive(Drop)]
pub struct CurrentRows {
    rows: Vec<CurrentRow>,
    /// The places of the elements, which all that is kept of elements shares.
    places: Rc<SerialTable>,
}

impl Model for CurrentRows {
    ghost use Rattle.std.specs.Prelude.{List};
    ghost use Rattle.std.specs.FinMap.{get};
    ghost use Rattle.smil_rounds.specs.Rows.{AreNear, ArePlaces};
    ghost use Rattle.smil_rounds.specs.declared.current_rows.CurrentRow.{CurrentRow as AnyRow};

    ghost Value = { List AnyRow };

    ghost view = { λ a. a.rows.items };

    ghost invariant = { λ a. AreNear a.rows.items × ArePlaces (get a.places.value) a.rows.items };
}

impl Intervals for CurrentRows {
    ghost use Rattle.smil_rounds.specs.Current.{interval_in};

    ghost given = { interval_in };

    fn interval(&self, who: u32) -> Option<Interval> {
        let index = self.places.get(who)?;
        self.rows.get(index)?.interval
    }
}

impl Containers for CurrentRows {
    ghost knows_ends = { λ known h who. Unit {0} };

    fn implicit(
        &self,
        container: &Container<'_>,
        children: &mut Vec<ChildEnd>,
    ) -> Result<Time, AllocError> {
        walked_duration(container, self, children)
    }
}

impl Duplicate for CurrentRows {
    fn copy(&self) -> Result<Self, AllocError> {
        Ok(CurrentRows {
            rows: Vec::from_slice(*self.rows.allocator(), &self.rows)?,
            places: self.places.clone()?,
        })
    }
}

impl CurrentRows {
    /// The elements of a document without intervals, of which nothing comes; unless memory runs
    /// out.
    pub fn of(alloc: Global, past: &Past) -> Result<CurrentRows, AllocError>
        ensures { IfOk result (λ known. known
            ≡ map empty_row (elements past.now.document.nodes)) }
    {
        past.possible();
        Ok(CurrentRows {
            rows: empty_rows(alloc, past.tree().elements())?,
            places: past.syncs().places().clone()?,
        })
    }

    /// The rows. It takes no memory.
    pub fn rows(&self) -> &[CurrentRow]
        ensures { result.now ≡ self.now }
    {
        &self.rows
    }

    /// The index of the row of an element; None exactly where it has none. It takes no memory.
    pub fn index_of(&self, who: u32) -> Option<usize>
        ensures { result ≡ position (λ (r : AnyRow). r.serial == who) self.now }
    {
        self.places.get(who)
    }

    /// Puts a row in the place of the one that its element has. It takes no memory.
    pub fn put(&mut self, place: usize, row: CurrentRow)
        requires place { position (λ (r : AnyRow). r.serial == row.serial) self.old ≡ Some place }
        requires near { IfSome row.interval IsIntervalNear }
        ensures { self.new ≡ slice_set self.old place row }
    {
        self.rows[place] = row;
    }

    /// What comes by a key: of the row at its place the begin or end where that has this key, else
    /// the repeat. It takes no memory.
    pub fn coming(&self, key: Key) -> Option<DueChange>
        ensures { (row : AnyRow) → slice_get self.now key.position ≡ Some row
            → IsChosen key row.comings.moved row.comings.repeat result }
    {
        let row = self.rows.get(key.position as usize)?;
        chosen(key, &row.comings)
    }
}

/// The row of an element, given the intervals of the others; one evaluation is counted. What is
/// kept of the ends of its time children is right where its duration is implicit. Refused where
/// memory runs out, and then at most one evaluation is counted.
pub fn row_of<J: Containers, L: Ledger>(
    element: &IndexedElement<'_>,
    intervals: &J,
    room: &mut Room,
    steps: &mut Steps<L>,
) -> Result<CurrentRow, AllocError>
    requires element { has_element element.now.present.past.now.document.nodes
        element.now.present.who ≡ true }
    requires index { slice_get (elements element.now.present.past.now.document.nodes)
        element.now.index ≡ node_at (elements element.now.present.past.now.document.nodes)
        element.now.present.who }
    requires moment { IsPresent element.now.present.past.now element.now.present.moment }
    requires known { (e : AnyNode) → node_at (elements element.now.present.past.now.document.nodes)
        element.now.present.who ≡ Some e → has_implicit_duration e ≡ true
        → J.knows_ends intervals.now (history_of element.now.present.past.now)
        element.now.present.who }
    ensures row { (e : AnyNode) → node_at (elements element.now.present.past.now.document.nodes)
        element.now.present.who ≡ Some e
        → IfOk result (IsRowOf (history_of element.now.present.past.now) (J.given intervals.now)
        element.now.present.moment element.now.index e) }
    ensures near { IfOk result (λ row. IfSome row.interval IsIntervalNear) }
    ensures steps { OnOk result (steps.new ≡ steps.old + 1) }
    ensures most { steps.new ≤ steps.old + 1 }
    ensures counted { steps.old ≤ steps.new }
{
    element.present.past.possible();
    let index = element.index;
    let made = outcome_of(&element.present, index as u32, intervals, room, steps)?;
    Ok(CurrentRow {
        serial: element.present.who,
        interval: made.interval,
        comings: made.comings,
    })
}

// Of what comes of an element the begin or end where that has this key, else the repeat.
fn chosen(key: Key, comings: &DueChanges) -> Option<DueChange>
    ensures { IsChosen key comings.now.moved comings.now.repeat result }
{
    match comings.moved() {
        Some(moved) if moved.key == key => Some(moved),
        _ => comings.repeat(),
    }
}

// The rows of elements, without intervals.
fn empty_rows(alloc: Global, whos: &[u32]) -> Result<Vec<CurrentRow>, AllocError>
    ensures { IfOk result (λ rows. rows.items ≡ map row_without whos.now) }
{
    let mut rows = Vec::with_capacity(alloc, whos.len())?;
    for who in whos {
        rows.push(CurrentRow {
            serial: *who,
            interval: None,
            comings: DueChanges::nothing(0, *who),
        })?;
    }
    Ok(rows)
}
