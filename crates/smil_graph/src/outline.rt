//! The tree of a document, by places in document order.

ghost use Rattle.std.specs.Prelude.{◌≡◌, ℕ, ◌<◌, [], ◌∷◌, ◌++◌, Some, None, length, IfOk, IfSome, OnOk, if◌then◌else◌, slice_get};
ghost use Rattle.smil_model.specs.document.Document as model;
ghost use Rattle.smil_model.specs.document.Valid.{IsNumberedTree};
ghost use Rattle.smil_model.specs.reach.Reach.{is_option};
ghost use Rattle.smil_graph.specs.Links.{row, IsRising};
ghost use Rattle.smil_graph.specs.Places.{up, IsTable, before, is_element_at, element_above, previous_of, AreTimeChildren};

use super::row::{empty_rows, push_at, row_at};
use super::short_list::ShortList;
use smil_model::{Kind, Node};
use smil_tree::Tree;
use std::alloc::{AllocError, Global};

/// A document with the places of the time parents and of the time children of its nodes.
#[derive(Drop)]
pub struct TimeTree<'a> {
    pub doc: &'a Tree,
    pub parents: &'a [Option<usize>],
    pub children: &'a [ShortList<usize>],
}

/// Whether a node is an element.
pub fn is_element(node: &Node) -> bool
    ensures { result ≡ model.is_element node.now }
{
    node.kind.is_element()
}

/// For each node the place of its parent.
pub fn parents(alloc: Global, tree: &Tree) -> Result<Vec<Option<usize>>, AllocError>
    requires { IsNumberedTree tree.now }
    ensures { IfOk result (λ table. IsTable tree.now.nodes
        (λ n. model.node_at tree.now.nodes n.parent) table.items) }
{
    let mut parents = Vec::with_capacity(alloc, tree.len())?;
    for place in 0..tree.len() {
        let node = tree.at(place).unwrap();
        parents.push(tree.position(node.parent))?;
    }
    Ok(parents)
}

/// For each node the place of its time parent.
pub fn time_parents(
    alloc: Global,
    tree: &Tree,
    parents: &[Option<usize>],
) -> Result<Vec<Option<usize>>, AllocError>
    requires tree { IsNumberedTree tree.now }
    requires parents { IsTable tree.now.nodes
        (λ n. model.node_at tree.now.nodes n.parent) parents.now }
    ensures { IfOk result (λ table. IsTable tree.now.nodes
        (λ n. model.time_parent tree.now.nodes n.serial) table.items) }
{
    let mut above = Vec::with_capacity(alloc, parents.len())?;
    for parent in parents {
        let next = element_above(tree, *parent, above.as_slice());
        above.push(next)?;
    }
    Ok(above)
}

// The parent, or its time parent where it is a priorityClass.
fn element_above(tree: &Tree, parent: Option<usize>, above: &[Option<usize>]) -> Option<usize>
    ensures { result ≡ element_above tree.now.nodes above.now parent }
{
    match parent {
        Some(place) => {
            if is_element_at(tree, place) {
                Some(place)
            } else {
                place_at(above, place)
            }
        }
        None => None,
    }
}

/// Whether the node at a place is an element.
pub fn is_element_at(tree: &Tree, place: usize) -> bool
    ensures { result ≡ is_element_at tree.now.nodes place }
{
    match tree.at(place) {
        Some(node) => is_element(node),
        None => false,
    }
}

/// What a table has at a place.
pub fn place_at(table: &[Option<usize>], place: usize) -> Option<usize>
    ensures { result ≡ up table.now place }
{
    match table.get(place) {
        Some(entry) => *entry,
        None => None,
    }
}

/// For each node the places of its time children, in document order.
pub fn time_children(
    alloc: Global,
    tree: &Tree,
    time_parents: &[Option<usize>],
) -> Result<Vec<ShortList<usize>>, AllocError>
    requires { IsTable tree.now.nodes (λ n. model.time_parent tree.now.nodes n.serial)
        time_parents.now }
    ensures count { IfOk result (λ rows. length rows.items ≡ length tree.now.nodes) }
    ensures children { IfOk result
        (λ rows. AreTimeChildren tree.now.nodes time_parents.now rows.items) }
{
    let mut rows = empty_rows(alloc, tree.len())?;
    for place in 0..tree.len() {
        let node = tree.at(place).unwrap();
        if is_element(node) {
            push_under(&mut rows, place_at(time_parents, place), place)?;
        }
    }
    Ok(rows)
}

// Appends a place to the row of another, if there is one.
fn push_under(
    rows: &mut Vec<ShortList<usize>>,
    parent: Option<usize>,
    place: usize,
) -> Result<(), AllocError>
    requires { IfSome parent (λ q. q < length rows.old.items) }
    ensures count { OnOk result (length rows.new.items ≡ length rows.old.items) }
    ensures rows { OnOk result ((q : ℕ) → row rows.new.items q
        ≡ (if is_option q parent then row rows.old.items q ++ place ∷ []
        else row rows.old.items q)) }
{
    match parent {
        Some(parent) => push_at(rows, parent, place),
        None => Ok(()),
    }
}

/// For each node the place of the child before it, where its time parent is a seq.
pub fn previous_in_seqs(
    alloc: Global,
    tree: &TimeTree<'_>,
) -> Result<Vec<Option<usize>>, AllocError>
    requires numbered { IsNumberedTree tree.now.doc.now }
    requires parents { IsTable tree.now.doc.now.nodes
        (λ n. model.time_parent tree.now.doc.now.nodes n.serial) tree.now.parents.now }
    requires children { AreTimeChildren tree.now.doc.now.nodes tree.now.parents.now
        tree.now.children.now }
    ensures { IfOk result (λ table. IsTable tree.now.doc.now.nodes
        (λ n. model.previous_in_seq tree.now.doc.now.nodes n.serial) table.items) }
{
    let mut table = Vec::with_capacity(alloc, tree.doc.len())?;
    for (place, parent) in tree.parents.iter().enumerate() {
        let entry = previous_of(tree.doc, *parent, tree.children, place);
        table.push(entry)?;
    }
    Ok(table)
}

// Under a parent that is a seq, the place of the child before this one.
fn previous_of(
    tree: &Tree,
    parent: Option<usize>,
    time_children: &[ShortList<usize>],
    place: usize,
) -> Option<usize>
    requires { (q : ℕ) → IsRising (row time_children.now q) }
    ensures { result ≡ previous_of tree.now.nodes time_children.now place parent }
{
    match parent {
        Some(parent) => {
            if is_seq(tree, parent) {
                one_before(row_at(time_children, parent), place)
            } else {
                None
            }
        }
        None => None,
    }
}

// Whether the node at a place is a seq.
fn is_seq(tree: &Tree, place: usize) -> bool
    ensures { result ≡ model.has_kind model.is_seq_kind (slice_get tree.now.nodes place) }
{
    match tree.at(place) {
        Some(node) => match node.kind {
            Kind::Seq => true,
            _ => false,
        },
        None => false,
    }
}

// The one before a place in a rising row; None for the first, and where the row does not have the
// place.
fn one_before(row: &[usize], place: usize) -> Option<usize>
    requires { IsRising row.now }
    ensures { result ≡ before place None row.now }
{
    match row.binary_search(&place) {
        Ok(0) => None,
        Ok(at) => Some(row[at - 1]),
        Err(_) => None,
    }
}
