//! Where a reach begins: the element, its time parent, its descendants, and in a seq or excl its
//! siblings with theirs.

ghost use Rattle.std.specs.Prelude.{◌≡◌, ◌||◌, length, Some, true, slice_get, IfOk};
ghost use Rattle.smil_model.specs.document.Document as model;
ghost use Rattle.smil_model.specs.document.Valid.{IsNumberedTree};
ghost use Rattle.smil_graph.specs.Tables.{AreNear, top_of, takes_turns};
ghost use Rattle.smil_graph.specs.Places.{up, is_element_at, IsTable, AreTimeChildren};

use super::outline::{TimeTree, place_at};
use super::search::search;
use indexmap::IndexSet;
use smil_model::Kind;
use smil_tree::Tree;
use std::alloc::{AllocError, Global};

/// The places at which the reach of an element begins.
pub fn near(alloc: Global, tree: &TimeTree<'_>, place: usize) -> Result<IndexSet<usize>, AllocError>
    requires numbered { IsNumberedTree tree.now.doc.now }
    requires parents { IsTable tree.now.doc.now.nodes
        (λ n. model.time_parent tree.now.doc.now.nodes n.serial) tree.now.parents.now }
    requires children { AreTimeChildren tree.now.doc.now.nodes tree.now.parents.now
        tree.now.children.now }
    requires count { length tree.now.children.now ≡ length tree.now.doc.now.nodes }
    requires element { is_element_at tree.now.doc.now.nodes place ≡ true }
    ensures { IfOk result (λ found. AreNear tree.now.doc.now.nodes place found.keys) }
{
    let parent = place_at(tree.parents, place);
    let top = top_of(tree.doc, parent, place);
    let mut found = search(alloc, tree.children, &[top])?;
    if let Some(parent) = parent {
        found.insert(parent)?;
    }
    Ok(found)
}

// The time parent where that is a seq or an excl, and else the element itself.
fn top_of(tree: &Tree, parent: Option<usize>, place: usize) -> usize
    ensures { result ≡ top_of tree.now.nodes parent place }
{
    match parent {
        Some(parent) => {
            if takes_turns(tree, parent) {
                parent
            } else {
                place
            }
        }
        None => place,
    }
}

// Whether the node at a place is a seq or an excl.
fn takes_turns(tree: &Tree, place: usize) -> bool
    ensures { result ≡ takes_turns (slice_get tree.now.nodes place) }
{
    match tree.at(place) {
        Some(node) => matches!(&node.kind, Kind::Seq | Kind::Excl),
        None => false,
    }
}
