//! Where a child may stand.

ghost use Rattle.std.specs.Prelude.{◌≡◌, ℕ, suc, ◌&&◌, nat_lt, nat_le, length, Some, IsSome, slice_get};
ghost use Rattle.smil_model.specs.document.Document.{node_at};
ghost use Rattle.smil_model.specs.document.Valid.{may_hold};
ghost use Rattle.smil_tree.specs.Outcomes.{agrees_with_first, place_outcome};

use super::Tree;
use super::family::height;
use crate::fault::TreeFault;
use crate::nodes::Nodes;
use smil_model::{DEPTH, Kind};

// A node under which a child may be put: its kind and its children, among the nodes of its tree.
#[derive(Clone, Copy)]
struct Parent<'a> {
    nodes: &'a Nodes,
    kind: Kind,
    children: &'a [u32],
}

impl Tree {
    /// Whether a child of this kind may be inserted into a node at a place, counted from 1. Refused
    /// where the child would have depth 32 (`TooDeep`), then where the place is not from 1 to the
    /// number of children plus 1 or a node of this kind may not stand there (`BadPlace`). It takes
    /// no memory.
    pub fn may_insert(&self, parent: u32, place: usize, kind: Kind) -> Result<(), TreeFault>
        requires { IsSome (node_at self.now.nodes parent) }
        ensures { result ≡ place_outcome self.now.nodes parent place kind }
    {
        let node = self.nodes.get(parent).unwrap();
        if DEPTH <= height(&self.nodes, node.parent) + 1 {
            return Err(TreeFault::TooDeep);
        }
        let parent = Parent {
            nodes: &self.nodes,
            kind: node.kind,
            children: self.kin.as_ref().children(parent),
        };
        if may_place(&parent, place, kind) {
            Ok(())
        } else {
            Err(TreeFault::BadPlace)
        }
    }
}

// Whether a child of this kind may stand at a place among the children of a node.
fn may_place(parent: &Parent<'_>, place: usize, kind: Kind) -> bool
    requires { (serial : ℕ) → slice_get parent.now.children.now 0 ≡ Some serial
        → IsSome (node_at parent.now.nodes.now serial) }
    ensures { result ≡ (nat_lt 0 place && nat_le place (suc (length parent.now.children.now))
        && may_hold parent.now.kind kind
        && agrees_with_first parent.now.nodes.now (slice_get parent.now.children.now 0) kind) }
{
    has_place(parent.children, place) && parent.kind.may_hold(kind) && agrees(parent, kind)
}

// Whether a place is from 1 to the number of children plus 1.
fn has_place(children: &[u32], place: usize) -> bool
    ensures { result ≡ (nat_lt 0 place && nat_le place (suc (length children.now))) }
{
    0 < place && place - 1 <= children.len()
}

// Whether the first child, if there is one, agrees with a kind in being a priorityClass or not.
fn agrees(parent: &Parent<'_>, kind: Kind) -> bool
    requires { (serial : ℕ) → slice_get parent.now.children.now 0 ≡ Some serial
        → IsSome (node_at parent.now.nodes.now serial) }
    ensures { result
        ≡ agrees_with_first parent.now.nodes.now (slice_get parent.now.children.now 0) kind }
{
    match parent.children.first() {
        Some(child) => parent.nodes.get(*child).unwrap().kind.is_element() == kind.is_element(),
        None => true,
    }
}
