//! What the last entry of a diary gives to items.

ghost use Rattle.std.specs.Prelude.{◌≡◌, ◌<◌, ◌&&◌, not, List, [], ◌∷◌, ◌++◌, OnOk, length};
ghost use Rattle.smil_model.specs.declared.diary.Entry.{Entry as AnyEntry};
ghost use Rattle.smil_model.specs.declared.document.Edge.TheVariants as edge;
ghost use Rattle.smil_model.specs.reach.Reach.{subject_of};
ghost use Rattle.smil_model.specs.diary.Diary.{History, is_active};
ghost use Rattle.smil_instances.specs.Before.{IsBefore};
ghost use Rattle.smil_instances.specs.Contribution.{is_edge, is_end_heard, may_give};
ghost use Rattle.smil_instances.specs.Entry.{HasArrived, HasDependents};
ghost use Rattle.smil_instances.specs.Intake.{history_with, default_of, IsCellOf, IsUnstated, given_to as gift, adds_to};

use super::arrival::Arrival;
use super::before::was_active;
use super::contribution::given;
use super::items::{CellItem, ListItem};
use super::source::Source;
use super::steps::subject;
use smil_diary::Book;
use smil_instance_rows::{Add, Cell, InstanceTime};
use smil_model::{Edge, Item, Step};
use std::alloc::AllocError;

/// Puts what the last entry gives to the items of these cells into a list, in their order, in the
/// place of what is there, unless memory runs out.
pub(crate) fn adds_of(
    cells: &[Cell],
    arrival: &Arrival<'_>,
    adds: &mut Vec<Add>,
) -> Result<(), AllocError>
    requires hand { HasArrived arrival.now }
    requires dependents { HasDependents arrival.now }
    ensures { OnOk result ((before : List AnyEntry) (y : AnyEntry)
        → arrival.now.history.book.now ≡ before ++ y ∷ [] → adds.new.items
        ≡ adds_to (history_with arrival.now.history before) y cells.now) }
{
    adds.clear();
    let step = arrival.last_entry().step;
    let on = subject(arrival.history.log, step);
    for cell in cells {
        if let Some(kept) = given_to(*cell, on, step, arrival) {
            adds.push(Add { cell: *cell, kept })?;
        }
    }
    Ok(())
}

// What the last entry, which has this step and is on this element or on none, gives to a cell's
// item.
fn given_to(cell: Cell, on: Option<u32>, step: Step, arrival: &Arrival<'_>) -> Option<InstanceTime>
    requires hand { HasArrived arrival.now }
    requires on { (before : List AnyEntry) (y : AnyEntry)
        → arrival.now.history.book.now ≡ before ++ y ∷ []
        → on ≡ subject_of arrival.now.history.log.now y.step }
    requires step { (before : List AnyEntry) (y : AnyEntry)
        → arrival.now.history.book.now ≡ before ++ y ∷ [] → step ≡ y.step }
    requires dependents { HasDependents arrival.now }
    ensures { (before : List AnyEntry) (y : AnyEntry)
        → arrival.now.history.book.now ≡ before ++ y ∷ []
        → result ≡ gift (history_with arrival.now.history before) y cell }
{
    arrival.history.tree.valid();
    let source = arrival.dependents.source(cell);
    if !may_give(source, on, step) {
        return None;
    }
    let who = arrival.history.tree.element_at(cell.row)?;
    if is_deaf(source, cell.side, who, arrival.history.book) {
        return None;
    }
    given_item(arrival, CellItem { cell, who, source })
}

// Whether an item with this source is one for an event or a key in the end list of an element that
// was not active before the last entry of the book: such an element hears nothing for it.
fn is_deaf(source: Source, side: Edge, who: u32, book: &Book) -> bool
    requires { 0 < length book.now }
    ensures { (h : History) (y : AnyEntry) → IsBefore h y book.now
        → result ≡ (is_end_heard source side && not (is_active h.diary who)) }
{
    match (source, side) {
        (Source::Eventbase { .. } | Source::Key { .. }, Edge::End) => !was_active(book, who),
        _ => false,
    }
}

// Whether an entry with this step, which is on this element or on none, may give something to an
// item with this source.
fn may_give(source: Source, on: Option<u32>, step: Step) -> bool
    ensures { result ≡ may_give on step source }
{
    match source {
        Source::Start => true,
        Source::Syncbase { of, edge } => is_edge(edge, of, step),
        Source::Eventbase { of } => on == Some(of),
        Source::Key { .. } => on.is_none(),
        Source::Nothing => false,
    }
}

// Whether a step is the begin, or an end, of an element.
fn is_edge(edge: Edge, of: u32, step: Step) -> bool
    ensures { result ≡ is_edge edge of step }
{
    match (edge, step) {
        (Edge::Begin, Step::Began { who, .. }) => who == of,
        (Edge::End, Step::Ended { who, .. } | Step::Cut { who }) => who == of,
        _ => false,
    }
}

// What the last entry gives to the item of a cell.
fn given_item(arrival: &Arrival<'_>, own: CellItem) -> Option<InstanceTime>
    requires hand { HasArrived arrival.now }
    requires cell { IsCellOf arrival.now.history.tree.now.nodes own.cell own.who own.source }
    ensures { (before : List AnyEntry) (y : AnyEntry)
        → arrival.now.history.book.now ≡ before ++ y ∷ []
        → result ≡ gift (history_with arrival.now.history before) y own.cell }
{
    let CellItem { cell, who, source } = own;
    let side = cell.side;
    match arrival.history.tree.attrs(who).list(side) {
        Some(items) => {
            let item = items.get(cell.item)?;
            given(arrival, &ListItem { who, side, item }, source)
        }
        None => match side {
            Edge::Begin => given_by_default(arrival, own),
            Edge::End => None,
        },
    }
}

// What the last entry gives to the item of a cell, whose element has no `begin`.
fn given_by_default(arrival: &Arrival<'_>, own: CellItem) -> Option<InstanceTime>
    requires hand { HasArrived arrival.now }
    requires cell { IsCellOf arrival.now.history.tree.now.nodes own.cell own.who own.source }
    requires side { own.cell.side ≡ edge.Begin }
    requires absent { IsUnstated arrival.now.history.tree.now.nodes own.who edge.Begin }
    ensures { (before : List AnyEntry) (y : AnyEntry)
        → arrival.now.history.book.now ≡ before ++ y ∷ []
        → result ≡ gift (history_with arrival.now.history before) y own.cell }
{
    let CellItem { cell, who, source } = own;
    if 0 < cell.item {
        return None;
    }
    let item = default_begin(source);
    let listed = ListItem {
        who,
        side: Edge::Begin,
        item: &item,
    };
    given(arrival, &listed, source)
}

// The item of an element without `begin`, by its source: `indefinite` in an excl, and else the
// offset 0.
fn default_begin(source: Source) -> Item
    ensures { result ≡ default_of source }
{
    match source {
        Source::Nothing => Item::Indefinite,
        _ => Item::Offset { offset: 0 },
    }
}
