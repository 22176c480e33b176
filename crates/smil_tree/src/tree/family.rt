//! The elements above and below a node.

ghost use Rattle.std.specs.Prelude.{◌≡◌, ◌<◌, None, Some, IsSome, slice_get, find, length, min, if◌then◌else◌};
ghost use Rattle.smil_model.specs.declared.document.Node.{Node as AnyNode};
ghost use Rattle.smil_model.specs.document.Document.{node_at, lineage, is_class_kind, is_element, serials, serial_of, time_parent, time_children};
ghost use Rattle.smil_model.specs.document.Edits.{children};
ghost use Rattle.smil_model.specs.happening.Queue.{class_of, parent_of};
ghost use Rattle.smil_laws.specs.Edited.{IsOrdered};
ghost use Rattle.smil_tree.specs.Outline.{parent_place};

use super::Tree;
use crate::nodes::Nodes;
use smil_model::{DEPTH, Node};

impl Tree {
    /// The serial of a node's parent; None exactly for the root. It takes no memory.
    pub fn parent(&self, serial: u32) -> Option<u32>
        requires { IsSome (node_at self.now.nodes serial) }
        ensures { result ≡ serial_of (parent_of self.now.nodes (node_at self.now.nodes serial)) }
    {
        let parent = self.nodes.get(serial).unwrap().parent;
        Some(self.nodes.get(parent)?.serial)
    }

    /// The serials of a node's children, priorityClasses included, in document order; none where
    /// there is no such node. It takes no memory.
    pub fn children(&self, serial: u32) -> &[u32]
        ensures { result.now ≡ serials (children self.now.nodes serial) }
    {
        self.kin.as_ref().children(serial)
    }

    /// The serial of the priorityClass that a node is a child of; None exactly where its parent is
    /// none. It takes no memory.
    pub fn class_of(&self, serial: u32) -> Option<u32>
        requires { IsSome (node_at self.now.nodes serial) }
        ensures { result ≡ serial_of (class_of self.now.nodes serial) }
    {
        let parent = self.nodes.get(serial).unwrap().parent;
        class_at(self.nodes.get(parent)?)
    }

    /// The serial of a node's time parent, the nearest element above it; None exactly where there
    /// is none. It takes no memory.
    pub fn time_parent(&self, serial: u32) -> Option<u32>
        requires { IsSome (node_at self.now.nodes serial) }
        ensures { result ≡ serial_of (time_parent self.now.nodes serial) }
    {
        match self.row(serial).parent {
            Some(parent) => Some(parent.serial),
            None => None,
        }
    }

    /// The place of a node's time parent in document order, from 0; None exactly where there is
    /// none. It takes no memory.
    pub fn parent_place(&self, serial: u32) -> Option<usize>
        requires { IsSome (node_at self.now.nodes serial) }
        ensures { result ≡ parent_place self.now.nodes serial }
    {
        self.valid();
        match self.row(serial).parent {
            Some(parent) => Some(parent.place as usize),
            None => None,
        }
    }

    /// The serials of an element's time children, the elements whose time parent it is, in document
    /// order; none for a priorityClass, and where there is no such node. It takes no memory.
    pub fn time_children(&self, serial: u32) -> &[u32]
        ensures { result.now ≡ serials (time_children self.now.nodes serial) }
    {
        match self.nodes.position(serial) {
            Some(place) => self.time_children_at(place),
            None => &[],
        }
    }

    // The serials of the time children of the node at a place.
    fn time_children_at(&self, place: usize) -> &[u32]
        requires { place < length self.now.nodes }
        ensures { (n : AnyNode) × (slice_get self.now.nodes place ≡ Some n)
            × (result.now ≡ serials (time_children self.now.nodes n.serial)) }
    {
        self.outline.time_children(self.outline.row(place).unwrap())
    }

    /// The serial of the time child of a node at a place among its time children, from 0; None
    /// exactly where there are not so many. It takes no memory.
    pub fn time_child(&self, serial: u32, k: usize) -> Option<u32>
        requires { IsSome (node_at self.now.nodes serial) }
        ensures { result ≡ serial_of (slice_get (time_children self.now.nodes serial) k) }
    {
        self.time_children(serial).get(k).copied()
    }
}

// The serial of a node that is a priorityClass.
fn class_at(node: &Node) -> Option<u32>
    ensures { result ≡ (if is_class_kind node.now.kind then Some node.now.serial else None) }
{
    if node.kind.is_element() {
        None
    } else {
        Some(node.serial)
    }
}

/// The serial of the nearest element among a node and those above it.
pub fn element_from(nodes: &Nodes, serial: u32) -> Option<u32>
    requires { IsOrdered nodes.now }
    ensures { result ≡ serial_of (find is_element (lineage nodes.now serial)) }
{
    let mut at = serial;
    while let Some(node) = nodes.get(at) {
        if node.kind.is_element() {
            return Some(node.serial);
        }
        at = node.parent;
    }
    None
}

/// How many nodes there are from a node upwards, as far as the greatest depth.
pub fn height(nodes: &Nodes, serial: u32) -> usize
    requires { IsOrdered nodes.now }
    ensures { result ≡ min (length (lineage nodes.now serial)) DEPTH }
{
    let mut at = serial;
    for height in 0..DEPTH {
        match nodes.get(at) {
            Some(node) => at = node.parent,
            None => return height,
        }
    }
    DEPTH
}
