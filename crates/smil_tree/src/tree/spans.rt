//! Where the span of a node ends, which is the node with its descendants, and where a new child
//! stands.

ghost use Rattle.std.specs.Prelude.{◌≡◌, ℕ, ◌+◌, ◌-◌, ◌<◌, None, IsSome, filter, slice_get, slice_range};
ghost use Rattle.smil_model.specs.declared.document.Node.{Node as AnyNode};
ghost use Rattle.smil_model.specs.document.Document.{node_at, descendants, is_within};
ghost use Rattle.smil_model.specs.document.Edits.{child_place, children, place_in};
ghost use Rattle.smil_model.specs.document.Valid.{IsValid};
ghost use Rattle.smil_tree.specs.Kin.{IsKinOf};

use super::Tree;
use crate::kin::Kin;
use crate::nodes::{Nodes, Walk};

impl Tree {
    /// The position of a node, from 0, and the one behind the last of its descendants: from the
    /// first up to the second stand the node and its descendants, and no others. It takes no
    /// memory.
    pub fn span(&self, serial: u32) -> (usize, usize)
        requires { IsSome (node_at self.now.nodes serial) }
        ensures places { result ≡ (
          place_in self.now.nodes serial,
          child_place self.now.nodes serial
              None,
        ) }
        ensures within { slice_range self.now.nodes result.0 result.1
            ≡ filter (λ (n : AnyNode). is_within self.now.nodes serial n.serial) self.now.nodes }
        ensures below { slice_range self.now.nodes (result.0 + 1) result.1
            ≡ descendants self.now.nodes serial }
    {
        let start = self.nodes.position(serial).unwrap();
        (start, self.row(serial).past as usize)
    }

    /// A node and those below it, in document order. It takes no memory.
    pub fn within(&self, serial: u32) -> Walk<'_>
        requires { IsSome (node_at self.now.nodes serial) }
        ensures { result
            ≡ filter (λ (n : AnyNode). is_within self.now.nodes serial n.serial) self.now.nodes }
    {
        let (start, past) = self.span(serial);
        self.nodes.between(start, past)
    }

    /// The nodes below a node, in document order. It takes no memory.
    pub fn below(&self, serial: u32) -> Walk<'_>
        requires { IsSome (node_at self.now.nodes serial) }
        ensures { result ≡ descendants self.now.nodes serial }
    {
        let (start, past) = self.span(serial);
        self.nodes.between(start + 1, past)
    }
}

/// The position behind the last descendant of a node.
pub fn end_of(nodes: &Nodes, kin: &Kin, serial: u32) -> usize
    requires known { IsSome (node_at nodes.now serial) }
    requires kin { IsKinOf kin.now nodes.now }
    requires valid { (next : ℕ) × IsValid (record { nodes = nodes.now; next = next }) }
    ensures { result ≡ child_place nodes.now serial None }
{
    let mut at = serial;
    while let Some(last) = kin.children(at).last() {
        at = *last;
    }
    nodes.position(at).unwrap() + 1
}

/// The position at which a new child of a node comes to stand, to be one of its children at a place
/// counted from 1.
pub fn position_of_child(nodes: &Nodes, kin: &Kin, parent: u32, place: usize) -> usize
    requires counted { 0 < place }
    requires known { IsSome (node_at nodes.now parent) }
    requires kin { IsKinOf kin.now nodes.now }
    requires valid { (next : ℕ) × IsValid (record { nodes = nodes.now; next = next }) }
    ensures { result ≡ child_place nodes.now parent
        (slice_get (children nodes.now parent) (place - 1)) }
{
    match kin.children(parent).get(place - 1) {
        Some(child) => nodes.position(*child).unwrap(),
        None => end_of(nodes, kin, parent),
    }
}
