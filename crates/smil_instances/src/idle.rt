//! The rows of a document to which nothing has happened yet.

ghost use Rattle.std.specs.Prelude.{◌≡◌, List, [], ◌∷◌, length, map, OnOk, IfOk, Some, None, slice_get};
ghost use Rattle.smil_model.specs.declared.diary.LogEntry.{LogEntry as AnyLogEntry};
ghost use Rattle.smil_model.specs.declared.document.Node.{Node as AnyNode};
ghost use Rattle.smil_model.specs.declared.document.Edge.{Edge as AnyEdge};
ghost use Rattle.smil_model.specs.declared.document.Edge.TheVariants as edge;
ghost use Rattle.smil_model.specs.declared.document.Item.TheVariants as item;
ghost use Rattle.smil_model.specs.document.Document.{Document, elements, serials};
ghost use Rattle.std.specs.FinMap.{get};
ghost use Rattle.smil_instances.specs.Spread.{IsIndex};
ghost use Rattle.smil_model.specs.document.Defaults.{begin_list, end_list};
ghost use Rattle.smil_instance_rows.specs.Cells.{side_of};
ghost use Rattle.smil_instances.specs.SettledTimes.{instances_of, row_of, settled_rows};
ghost use Rattle.smil_instances.specs.Sources.{source_of};
ghost use Rattle.smil_instances.specs.declared.source.Source.TheVariants as from;
ghost use Rattle.smil_instances.specs.Dependents.{AreDependentsOf};
ghost use Rattle.smil_instances.specs.Idle.{IsElementAt, IsListOf, idle_kept, with_items};
ghost use Rattle.smil_instances.specs.Intake.{history_of};

use super::dependents::Dependents;
use super::source::Source;
use smil_instance_rows::{Cell, InstanceRow, InstanceTime, Rows};
use smil_model::{Edge, Item, Items, SerialTable, Time, moved};
use smil_tree::Tree;
use std::alloc::{AllocError, Global};
use std::rc::Rc;

/// The rows of a document to which nothing has happened yet, with the places of its elements.
pub(crate) fn idle_rows(
    alloc: Global,
    tree: &Tree,
    dependents: &Dependents,
    places: Rc<SerialTable>,
) -> Result<Rows, AllocError>
    requires dependents { AreDependentsOf tree.now.nodes dependents.now }
    requires places { IsIndex (serials (elements tree.now.nodes)) (get places.value) }
    ensures { (log : List AnyLogEntry)
        → IfOk result (λ rows. rows ≡ settled_rows (history_of tree.now log [])) }
{
    tree.valid();
    let rows = idle_list(alloc, tree, dependents)?;
    Ok(Rows::of(rows, places))
}

// The rows of the elements of a document to which nothing has happened yet.
fn idle_list(
    alloc: Global,
    tree: &Tree,
    dependents: &Dependents,
) -> Result<Vec<InstanceRow>, AllocError>
    requires { AreDependentsOf tree.now.nodes dependents.now }
    ensures { (log : List AnyLogEntry)
        → IfOk result (λ rows. rows.items ≡ settled_rows (history_of tree.now log [])) }
{
    tree.valid();
    let whos = tree.elements();
    let mut rows = Vec::with_capacity(alloc, whos.len())?;
    for (place, who) in whos.iter().enumerate() {
        let sources = ElementSources { dependents, place };
        let row = idle_row(alloc, tree, &sources, *who)?;
        rows.push(row)?;
    }
    Ok(rows)
}

// What the items of the element at a place among the elements follow from.
#[derive(Clone, Copy)]
struct ElementSources<'a> {
    dependents: &'a Dependents,
    place: usize,
}

// The row of the element that has these sources.
fn idle_row(
    alloc: Global,
    tree: &Tree,
    sources: &ElementSources<'_>,
    serial: u32,
) -> Result<InstanceRow, AllocError>
    requires dependents { AreDependentsOf tree.now.nodes sources.now.dependents.now }
    requires element { IsElementAt tree.now.nodes sources.now.place serial }
    ensures { (log : List AnyLogEntry) (e : AnyNode)
        → slice_get (elements tree.now.nodes) sources.now.place ≡ Some e
        → IfOk result (λ row. row ≡ row_of (history_of tree.now log []) e) }
{
    let mut row = InstanceRow::new(alloc, serial);
    let attrs = tree.attrs(serial);
    push_begins(&mut row, sources, &attrs.begin)?;
    push_ends(&mut row, sources, &attrs.end)?;
    Ok(row)
}

// Appends the items of the begin list of an element, with this `begin`, to a row without begins.
fn push_begins(
    row: &mut InstanceRow,
    sources: &ElementSources<'_>,
    begin: &Option<Items>,
) -> Result<(), AllocError>
    requires { row.old.begins ≡ [] }
    ensures { (document : Document) (log : List AnyLogEntry) (e : AnyNode)
        → AreDependentsOf document.nodes sources.now.dependents.now
        → slice_get (elements document.nodes) sources.now.place ≡ Some e
        → e.attrs.begin ≡ begin.now
        → OnOk result (row.new ≡ with_items row.old edge.Begin
        (map (instances_of (history_of document log []) e edge.Begin)
        (begin_list document.nodes e))) }
{
    match begin {
        Some(items) => push_list(row, sources, Edge::Begin, items),
        None => push_default(row, sources),
    }
}

// Appends the items of the end list of an element, with this `end`, to a row without ends.
fn push_ends(
    row: &mut InstanceRow,
    sources: &ElementSources<'_>,
    end: &Option<Items>,
) -> Result<(), AllocError>
    requires { row.old.ends ≡ [] }
    ensures { (document : Document) (log : List AnyLogEntry) (e : AnyNode)
        → AreDependentsOf document.nodes sources.now.dependents.now
        → slice_get (elements document.nodes) sources.now.place ≡ Some e
        → e.attrs.«end» ≡ end.now
        → OnOk result (row.new ≡ with_items row.old edge.End
        (map (instances_of (history_of document log []) e edge.End) (end_list e))) }
{
    match end {
        Some(items) => push_list(row, sources, Edge::End, items),
        None => Ok(()),
    }
}

// Appends the items of a begin or end list to a row that has none on that side.
fn push_list(
    row: &mut InstanceRow,
    sources: &ElementSources<'_>,
    side: Edge,
    items: &Items,
) -> Result<(), AllocError>
    requires { side_of row.old side ≡ [] }
    ensures { (document : Document) (log : List AnyLogEntry) (e : AnyNode)
        → AreDependentsOf document.nodes sources.now.dependents.now
        → IsListOf document.nodes sources.now.place e side items.now
        → OnOk result (row.new ≡ with_items row.old side
        (map (instances_of (history_of document log []) e side) items.now)) }
{
    for (at, item) in items.slice().iter().enumerate() {
        let source = sources.dependents.source(Cell {
            row: sources.place,
            side,
            item: at,
        });
        let time = idle_time(item, side, source);
        push_item(row, side, at, time)?;
    }
    Ok(())
}

// Appends the item that stands for a begin list where there is none to a row without begins: an
// offset of 0, or `indefinite` in a child of an excl, whose source is nothing.
fn push_default(row: &mut InstanceRow, sources: &ElementSources<'_>) -> Result<(), AllocError>
    requires { row.old.begins ≡ [] }
    ensures { (document : Document) (log : List AnyLogEntry) (e : AnyNode)
        → AreDependentsOf document.nodes sources.now.dependents.now
        → slice_get (elements document.nodes) sources.now.place ≡ Some e → e.attrs.begin ≡ None
        → OnOk result (row.new ≡ with_items row.old edge.Begin
        (map (instances_of (history_of document log []) e edge.Begin)
        (begin_list document.nodes e))) }
{
    let source = sources.dependents.source(Cell {
        row: sources.place,
        side: Edge::Begin,
        item: 0,
    });
    push_item(row, Edge::Begin, 0, time_from_start(source, 0))
}

// Appends an item to a side that has so many, with the time that is known for it before the first
// entry, if any.
fn push_item(
    row: &mut InstanceRow,
    side: Edge,
    item: usize,
    time: Option<Time>,
) -> Result<(), AllocError>
    requires { item ≡ length (side_of row.old side) }
    ensures { OnOk result (row.new ≡ with_items row.old side (idle_kept time ∷ [])) }
{
    row.push_item(side)?;
    match time {
        Some(time) => row.add(side, item, InstanceTime { place: 0, time }),
        None => Ok(()),
    }
}

// The time that is known for an item with this source before the first entry: an offset's from the
// start of the time parent, and an `indefinite` end.
fn idle_time(item: &Item, side: Edge, source: Source) -> Option<Time>
    ensures { (document : Document) (log : List AnyLogEntry) (e : AnyNode)
        → source ≡ source_of document.nodes e.serial item.now
        → instances_of (history_of document log []) e side item.now ≡ idle_kept result }
{
    match (item, side) {
        (Item::Offset { offset }, _) => time_from_start(source, *offset),
        (Item::Indefinite, Edge::End) => Some(Time::Indefinite),
        _ => None,
    }
}

// The time that is known for an offset with this source before the first entry.
fn time_from_start(source: Source, offset: i64) -> Option<Time>
    ensures kept { (document : Document) (log : List AnyLogEntry) (e : AnyNode) (side : AnyEdge)
        → source ≡ source_of document.nodes e.serial (item.Offset offset)
        → instances_of (history_of document log []) e side (item.Offset offset) ≡ idle_kept result }
    ensures nothing { source ≡ from.Nothing → result ≡ None }
{
    match source {
        Source::Start => Some(moved(0, offset)),
        _ => None,
    }
}
