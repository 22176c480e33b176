//! What each element's times follow from, and whose events it hears.

ghost use Rattle.std.specs.Prelude.{◌≡◌, ℕ, List, [], ◌&&◌, ◌||◌, length, slice_get, OnOk, IfOk, bytes_eq};
ghost use Rattle.std.specs.HashMap.{get_by};
ghost use Rattle.smil_model.specs.document.Defaults as defaults;
ghost use Rattle.smil_model.specs.document.Dependencies.{has_implicit_duration};
ghost use Rattle.smil_model.specs.document.Document as model;
ghost use Rattle.smil_graph.specs.Links as links;
ghost use Rattle.smil_model.specs.document.Closure.{has};
ghost use Rattle.smil_graph.specs.Links.{row, AreRows};
ghost use Rattle.smil_graph.specs.Places as places;
ghost use Rattle.smil_graph.specs.Places.{up, leads_to_place, element_follows, feeds_place, IsIndex, IsTable, AreTimeChildren};
ghost use Rattle.smil_graph.specs.Tables.{AreHeads};
ghost use Rattle.smil_model.specs.document.Valid.{IsNumberedTree, IsDistinct};

use super::outline::{TimeTree, is_element, place_at};
use super::row::{empty_rows, push_all, push_one, row_at};
use super::short_list::ShortList;
use super::turned::push_in_each;
use smil_duration::takes_implicit;
use smil_flat_lists::FlatLists;
use smil_model::{Attrs, Bytes, Item, Items, Node};
use smil_tree::Tree;
use std::alloc::{AllocError, Global};
use std::collections::HashMap;

// Where those are found from which the times of an element follow: the time children of each node,
// the child before each node in a seq, and the elements by their ids.
#[derive(Drop)]
struct Index<'a, 'b> {
    children: &'a [ShortList<usize>],
    previous: &'a [Option<usize>],
    ids: &'a HashMap<&'b [u8], usize>,
}

/// For each element the places of those from which its times follow; the row of a priorityClass is
/// empty.
pub fn feeders(
    alloc: Global,
    tree: &TimeTree<'_>,
    previous: &[Option<usize>],
    ids: &HashMap<&[u8], usize>,
) -> Result<FlatLists<usize>, AllocError>
    requires numbered { IsNumberedTree tree.now.doc.now }
    requires parents { IsTable tree.now.doc.now.nodes
        (λ n. model.time_parent tree.now.doc.now.nodes n.serial) tree.now.parents.now }
    requires children { AreTimeChildren tree.now.doc.now.nodes tree.now.parents.now
        tree.now.children.now }
    requires previous { IsTable tree.now.doc.now.nodes
        (λ n. model.previous_in_seq tree.now.doc.now.nodes n.serial) previous.now }
    requires ids { IsIndex tree.now.doc.now.nodes (model.element_named tree.now.doc.now.nodes)
        (λ id. get_by (λ k. bytes_eq id k.now) ids.now) }
    ensures { IfOk result (λ rows. AreRows (length tree.now.doc.now.nodes)
        (feeds_place tree.now.doc.now.nodes) rows) }
{
    let index = Index {
        children: tree.children,
        previous,
        ids,
    };
    feeder_rows(alloc, tree.doc, &index)
}

// The same rows by an index.
fn feeder_rows(
    alloc: Global,
    tree: &Tree,
    index: &Index<'_, '_>,
) -> Result<FlatLists<usize>, AllocError>
    ensures { IfOk result (λ rows. AreRows (length tree.now.nodes)
        (λ j i. element_follows (row index.now.children.now j) (up index.now.previous.now j)
        (λ id. get_by (λ k. bytes_eq id k.now) index.now.ids.now) (slice_get tree.now.nodes j) i)
        rows) }
{
    let mut rows = FlatLists::with_capacity(alloc, tree.len())?;
    for place in 0..tree.len() {
        let node = tree.at(place).unwrap();
        let mut row = ShortList::new(alloc);
        push_feeders(&mut row, index, node, place)?;
        rows.push(row.slice())?;
    }
    Ok(rows)
}

/// For each node the places of the elements that read it, in document order: those whose times
/// follow from its times, and those that hear its events.
pub fn heads(
    alloc: Global,
    tree: &Tree,
    feeders: &FlatLists<usize>,
    ids: &HashMap<&[u8], usize>,
) -> Result<Vec<ShortList<usize>>, AllocError>
    requires distinct { IsDistinct tree.now.nodes }
    requires feeders { AreRows (length tree.now.nodes) (feeds_place tree.now.nodes) feeders.now }
    requires ids { IsIndex tree.now.nodes (model.element_named tree.now.nodes)
        (λ id. get_by (λ k. bytes_eq id k.now) ids.now) }
    ensures { IfOk result (λ rows. AreHeads tree.now.nodes rows.items) }
{
    let mut rows = empty_rows(alloc, tree.len())?;
    for place in 0..tree.len() {
        let node = tree.at(place).unwrap();
        let mut row = ShortList::new(alloc);
        push_all(&mut row, feeders.at(place))?;
        push_heard_by(&mut row, node, ids, place)?;
        push_in_each(&mut rows, row.slice(), place)?;
    }
    Ok(rows)
}

// Appends the places of those from which the times of the element at a place follow; nothing for a
// priorityClass.
fn push_feeders(
    row: &mut ShortList<usize>,
    index: &Index<'_, '_>,
    node: &Node,
    place: usize,
) -> Result<(), AllocError>
    ensures { OnOk result ((i : ℕ)
        → has row.new i ≡ (has row.old i
        || (model.is_element node.now && places.follows (links.row index.now.children.now place)
        (up index.now.previous.now place)
        (λ id. get_by (λ k. bytes_eq id k.now) index.now.ids.now) node.now i))) }
{
    if !is_element(node) {
        return Ok(());
    }
    push_children(row, &node.attrs, row_at(index.children, place))?;
    push_one(row, place_at(index.previous, place))?;
    push_named(row, &node.attrs.begin, index.ids)?;
    push_named(row, &node.attrs.end, index.ids)
}

// Appends the time children where the simple duration is implicit.
fn push_children(
    row: &mut ShortList<usize>,
    attrs: &Attrs,
    time_children: &[usize],
) -> Result<(), AllocError>
    ensures { OnOk result ((i : ℕ)
        → has row.new i ≡ (has row.old i
        || (defaults.takes_implicit attrs.now attrs.now.dur && has time_children.now i))) }
{
    if takes_implicit(attrs) {
        push_all(row, time_children)
    } else {
        Ok(())
    }
}

// Appends the places of those whose events an element hears; nothing for a priorityClass.
fn push_heard_by(
    row: &mut ShortList<usize>,
    node: &Node,
    ids: &HashMap<&[u8], usize>,
    place: usize,
) -> Result<(), AllocError>
    ensures { OnOk result ((i : ℕ)
        → has row.new i ≡ (has row.old i
        || (model.is_element node.now && places.hears
        (λ id. get_by (λ k. bytes_eq id k.now) ids.now) place node.now i))) }
{
    if !is_element(node) {
        return Ok(());
    }
    push_heard(row, &node.attrs.begin, ids, place)?;
    push_heard(row, &node.attrs.end, ids, place)
}

// Appends the places of the elements to whose begins or ends the items refer.
fn push_named(
    row: &mut ShortList<usize>,
    items: &Option<Items>,
    ids: &HashMap<&[u8], usize>,
) -> Result<(), AllocError>
    ensures { OnOk result ((i : ℕ)
        → has row.new i ≡ (has row.old i
        || leads_to_place (places.named_by (λ id. get_by (λ k. bytes_eq id k.now) ids.now))
        (defaults.items_or [] items.now) i)) }
{
    let Some(items) = items else {
        return Ok(());
    };
    for item in items.slice() {
        push_one(row, named_by(ids, item))?;
    }
    Ok(())
}

/// The place of the element to whose begin or end an item refers.
pub fn named_by(ids: &HashMap<&[u8], usize>, item: &Item) -> Option<usize>
    ensures { result ≡ places.named_by (λ id. get_by (λ k. bytes_eq id k.now) ids.now) item.now }
{
    match item {
        Item::Sync { who, .. } => ids.get(who.slice()).copied(),
        _ => None,
    }
}

// Appends the places of the elements whose events or repeats the items of the element at a place
// mean.
fn push_heard(
    row: &mut ShortList<usize>,
    items: &Option<Items>,
    ids: &HashMap<&[u8], usize>,
    place: usize,
) -> Result<(), AllocError>
    ensures { OnOk result ((i : ℕ)
        → has row.new i ≡ (has row.old i
        || leads_to_place (places.source_of (λ id. get_by (λ k. bytes_eq id k.now) ids.now) place)
        (defaults.items_or [] items.now) i)) }
{
    let Some(items) = items else {
        return Ok(());
    };
    for item in items.slice() {
        push_one(row, source_of(ids, item, place))?;
    }
    Ok(())
}

// The place of the element whose event or repeat an item of the element at a place means.
fn source_of(ids: &HashMap<&[u8], usize>, item: &Item, place: usize) -> Option<usize>
    ensures { result ≡ places.source_of (λ id. get_by (λ k. bytes_eq id k.now) ids.now) place
        item.now }
{
    match item {
        Item::Event { who, .. } => target(ids, who, place),
        Item::Repeat { who, .. } => target(ids, who, place),
        _ => None,
    }
}

// The place of the element with this id, or the place itself where there is no id.
fn target(ids: &HashMap<&[u8], usize>, who: &Option<Bytes>, place: usize) -> Option<usize>
    ensures { result ≡ places.target_place (λ id. get_by (λ k. bytes_eq id k.now) ids.now) place
        who.now }
{
    match who {
        Some(id) => ids.get(id.slice()).copied(),
        None => Some(place),
    }
}
