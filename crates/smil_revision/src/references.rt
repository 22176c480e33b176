//! Whether an edit leaves the references of a document as they were.

ghost use Rattle.std.specs.Prelude.{◌≡◌, ◌++◌, List, length, map, Some, IfOk, OnOk};
ghost use Rattle.std.specs.Cmp.Lexicographic.{pointwise};
ghost use Rattle.std.specs.List.{list_all};
ghost use Rattle.smil_model.specs.declared.document.Node.{Node as AnyNode};
ghost use Rattle.smil_model.specs.declared.document.Item.{Item as AnyItem};
ghost use Rattle.smil_model.specs.document.Defaults.{items_of, items_or};
ghost use Rattle.smil_model.specs.document.Dependencies.{is_looped};
ghost use Rattle.smil_model.specs.document.Document.{elements, node_at};
ghost use Rattle.smil_revision.specs.ItemCounts.{counts_at};
ghost use Rattle.smil_revision.specs.References.{is_alike, is_same_id, is_same_serial, keeps_id, keeps_ids, keeps_loops, keeps_loops_of, keeps_references, loops};

use smil_graph::Graph;
use smil_instances::{element_named, element_of};
use smil_model::{Bytes, Edge, Items, Node, Who};
use smil_tree::Tree;
use std::alloc::{AllocError, Global};

/// The graphs of a document before and after an edit of a node, with the serial of that node.
#[derive(Clone, Copy)]
pub struct Revision<'a> {
    pub edited: u32,
    pub old: &'a Graph,
    pub new: &'a Graph,
}

/// The begin or the end list of an element in a graph, with the number of its items.
#[derive(Clone, Copy)]
struct ItemList<'a> {
    graph: &'a Graph,
    serial: u32,
    edge: Edge,
    count: usize,
}

/// Which items of an element are looped references, before and after an edit.
#[derive(Drop)]
struct Marks {
    before: Vec<bool>,
    after: Vec<bool>,
}

/// Whether an edit of a node leaves the references as they were, unless memory runs out: each id of
/// a node names the same element in both documents or none, and the items of each other element
/// that both have are looped in both or in none.
pub fn keeps_references(alloc: Global, revision: Revision<'_>) -> Result<bool, AllocError>
    ensures { IfOk result (λ keeps. keeps ≡ keeps_references revision.entry.edited
        revision.entry.old.now.nodes revision.entry.new.now.nodes) }
{
    if !keeps_all_ids(revision.old.tree(), revision.new.tree())? {
        return Ok(false);
    }
    keeps_loops(alloc, revision)
}

// Whether each id of a node in either document names the same element in both, or none. Where the
// nodes have the same serials, kinds and ids no id is looked up. The document that has a node more
// comes first, in which an id that the other doesn't have stands.
fn keeps_all_ids(old: &Tree, new: &Tree) -> Result<bool, AllocError>
    ensures { IfOk result (λ keeps. keeps ≡ keeps_ids old.now.nodes new.now.nodes) }
{
    if are_alike(old, new) {
        return Ok(true);
    }
    if new.next() > old.next() {
        return Ok(keeps_ids(new, old, new)? && keeps_ids(old, old, new)?);
    }
    Ok(keeps_ids(old, old, new)? && keeps_ids(new, old, new)?)
}

// Whether the nodes of two documents are alike, one after another.
fn are_alike(old: &Tree, new: &Tree) -> bool
    ensures { result ≡ pointwise is_alike old.now.nodes new.now.nodes }
{
    let mut others = new.nodes();
    for node in old.nodes() {
        let Some(other) = others.next() else {
            return false;
        };
        if !is_alike(node, other) {
            return false;
        }
    }
    others.next().is_none()
}

// Whether two nodes have the same serial and id, and are both elements or both not.
fn is_alike(node: &Node, other: &Node) -> bool
    ensures { result ≡ is_alike node.now other.now }
{
    node.serial == other.serial
        && node.kind.is_element() == other.kind.is_element()
        && is_same_id(&node.attrs.id, &other.attrs.id)
}

// Whether two ids are the same, or both absent.
fn is_same_id(one: &Option<Bytes>, other: &Option<Bytes>) -> bool
    ensures { result ≡ is_same_id one.now other.now }
{
    match (one, other) {
        (None, None) => true,
        (Some(one), Some(other)) => one.slice() == other.slice(),
        _ => false,
    }
}

// Whether the id of each node of a document names the same element in both documents, or none.
fn keeps_ids(tree: &Tree, old: &Tree, new: &Tree) -> Result<bool, AllocError>
    ensures { IfOk result (λ keeps. keeps
        ≡ list_all (λ (n : AnyNode). keeps_id old.now.nodes new.now.nodes n.attrs.id)
        tree.now.nodes) }
{
    for node in tree.nodes() {
        if !keeps_id(old, new, &node.attrs.id)? {
            return Ok(false);
        }
    }
    Ok(true)
}

// Whether an id names the same element in both documents, or none.
fn keeps_id(old: &Tree, new: &Tree, id: &Option<Bytes>) -> Result<bool, AllocError>
    ensures { IfOk result (λ keeps. keeps ≡ keeps_id old.now.nodes new.now.nodes id.now) }
{
    let Some(id) = id else {
        return Ok(true);
    };
    let before = element_named(old, id)?;
    let after = element_named(new, id)?;
    Ok(is_same_serial(before, after))
}

// Whether two serials are the same, or both absent.
fn is_same_serial(one: Option<u32>, other: Option<u32>) -> bool
    ensures { result ≡ is_same_serial one other }
{
    match (one, other) {
        (None, None) => true,
        (Some(one), Some(other)) => one == other,
        _ => false,
    }
}

// Whether the items of each other element that both documents have are looped in both or in none.
fn keeps_loops(alloc: Global, revision: Revision<'_>) -> Result<bool, AllocError>
    ensures { IfOk result (λ keeps. keeps ≡ keeps_loops revision.entry.edited
        revision.entry.old.now.nodes revision.entry.new.now.nodes) }
{
    let mut marks = Marks {
        before: Vec::new(alloc),
        after: Vec::new(alloc),
    };
    for node in revision.old.tree().nodes() {
        if node.kind.is_element() && !keeps_loops_of(revision, node.serial, &mut marks)? {
            return Ok(false);
        }
    }
    Ok(true)
}

// Whether the items of an element, unless it is edited or the new document does not have it, are
// looped in both documents or in none. What the marks had is gone.
fn keeps_loops_of(
    revision: Revision<'_>,
    serial: u32,
    marks: &mut Marks,
) -> Result<bool, AllocError>
    ensures { IfOk result (λ keeps. keeps ≡ keeps_loops_of revision.entry.edited
        revision.entry.old.now.nodes revision.entry.new.now.nodes serial) }
{
    if serial == revision.edited || item_counts(revision.new.tree(), serial).is_none() {
        return Ok(true);
    }
    loops(revision.old, serial, &mut marks.before)?;
    loops(revision.new, serial, &mut marks.after)?;
    Ok(marks.before == marks.after)
}

// Makes the marks those of the items of an element that are looped references; none for a serial of
// no element.
fn loops(graph: &Graph, serial: u32, marks: &mut Vec<bool>) -> Result<(), AllocError>
    ensures { OnOk result (marks.new.items
        ≡ loops graph.now.nodes (node_at (elements graph.now.nodes) serial)) }
{
    marks.clear();
    let Some((begins, ends)) = item_counts(graph.tree(), serial) else {
        return Ok(());
    };
    let begin = ItemList {
        graph,
        serial,
        edge: Edge::Begin,
        count: begins,
    };
    push_marks(begin, marks)?;
    let end = ItemList {
        graph,
        serial,
        edge: Edge::End,
        count: ends,
    };
    push_marks(end, marks)?;
    Ok(())
}

// Appends which items of one side of an element are looped references.
fn push_marks(side: ItemList<'_>, marks: &mut Vec<bool>) -> Result<(), AllocError>
    requires counted { (e : AnyNode)
        × (node_at (elements side.graph.now.nodes) side.serial ≡ Some e)
        × (side.count ≡ length (items_of side.graph.now.nodes side.edge e)) }
    ensures { (e : AnyNode) → node_at (elements side.entry.graph.now.nodes) side.entry.serial
        ≡ Some e → OnOk result (marks.new.items ≡ marks.old.items
        ++ map (is_looped side.entry.graph.now.nodes e.serial)
        (items_of side.entry.graph.now.nodes side.entry.edge e)) }
{
    for item in 0..side.count {
        marks.push(side.graph.looped(side.serial, side.edge, item))?;
    }
    Ok(())
}

// How many items the begin and the end list of an element have; None for a serial of no element.
fn item_counts(tree: &Tree, serial: u32) -> Option<(usize, usize)>
    ensures { result ≡ counts_at tree.now.nodes serial }
{
    tree.valid();
    let serial = element_of(tree, &Who::Serial(serial))?;
    let attrs = tree.attrs(serial);
    Some((count_or(&attrs.begin, 1), count_or(&attrs.end, 0)))
}

// How many items a list has, or a number where it is absent.
fn count_or(items: &Option<Items>, without: usize) -> usize
    ensures { (others : List AnyItem) → length others ≡ without
        → result ≡ length (items_or others items.now) }
{
    match items {
        Some(items) => items.len(),
        None => without,
    }
}
