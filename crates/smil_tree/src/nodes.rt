//! Nodes in document order, found by their serials.

ghost use Rattle.std.specs.Prelude.{◌≡◌, ℕ, ◌+◌, ◌-◌, ◌^◌, ◌<◌, ◌≤◌, ◌==◌, [], length, insert, None, Some, IsSome, IfOk, OnOk, OnErr, if◌then◌else◌, slice_get, slice_range, option_copied};
ghost use Rattle.std.specs.FinMap.{get as place_of};
ghost use Rattle.std.specs.List.{position, list_any};
ghost use Rattle.std.specs.Iterator.{at_most};
ghost use Rattle.std.specs.Map.Iter.{TakesFirst, TakesLast, deref};
ghost use Rattle.smil_model.specs.declared.document.Attrs.{Attrs as AnyAttrs};
ghost use Rattle.smil_model.specs.declared.document.Node.{Node as AnyNode};
ghost use Rattle.smil_model.specs.document.Document.{node_at};
ghost use Rattle.smil_model.specs.document.Edits.{changed_at, with_attr as attrs_with, without_attr as attrs_without};
ghost use Rattle.smil_model.specs.document.Valid.{IsDistinct};
ghost use Rattle.smil_tree.specs.Places.{IsCounted, cut, with_attrs};

use smil_model::{Attr, AttrName, Duplicate, Node, SerialTable, with_attr, without_attr};
use std::alloc::{AllocError, Global};
use std::marker::Model;
use std::rc::Rc;
use std::slice::Iter;

/// A node that copies of the nodes share, seen as the node.
#[derive(Drop)]
pub struct SharedNode {
    node: Rc<Node>,
}

impl Model for SharedNode {
    ghost use Rattle.smil_model.specs.declared.document.Node.{Node};

    ghost Value = { Node };

    ghost view = { λ a. a.node.value };
}

impl Duplicate for SharedNode {
    fn copy(&self) -> Result<Self, AllocError> {
        Ok(SharedNode {
            node: self.node.clone()?,
        })
    }
}

impl SharedNode {
    // A node that nothing shares yet.
    fn new(alloc: Global, node: Node) -> Result<SharedNode, AllocError>
        ensures { IfOk result (λ shared. shared ≡ node) }
    {
        Ok(SharedNode {
            node: Rc::new(alloc, node)?,
        })
    }

    /// The node. It takes no memory.
    pub fn node(&self) -> &Node
        ensures { result.now ≡ self.now }
    {
        self.node.as_ref()
    }
}

/// Nodes, seen as their list in document order, with the place of each among them by its serial.
pub struct Nodes {
    list: Vec<SharedNode>,
    places: SerialTable,
}

impl Drop for Nodes {
    // Dropped by a call of its own, not field by field in each function that drops one.
    fn drop(self) {
        let Nodes {
            list: _list,
            places: _places,
        } = self;
    }
}

impl Model for Nodes {
    ghost use Rattle.std.specs.Prelude.{List};
    ghost use Rattle.smil_model.specs.declared.document.Node.{Node};
    ghost use Rattle.smil_tree.specs.Places.{IsIndexed};

    ghost Value = { List Node };

    ghost view = { λ a. a.list.items };

    ghost invariant = { λ a. IsIndexed a.list.items a.places };
}

impl Duplicate for Nodes {
    fn copy(&self) -> Result<Self, AllocError> {
        let mut list = Vec::with_capacity(*self.list.allocator(), self.list.len())?;
        for node in self.list.as_slice() {
            list.push(node.copy()?)?;
        }
        Ok(Nodes {
            list,
            places: self.places.copy()?,
        })
    }
}

/// The nodes that are left of a walk through nodes in document order, seen as their list.
#[derive(Drop)]
pub struct Walk<'a> {
    nodes: Iter<'a, SharedNode>,
}

impl<'a> Model for Walk<'a> {
    ghost use Rattle.std.specs.Prelude.{List};
    ghost use Rattle.smil_model.specs.declared.document.Node.{Node};

    ghost Value = { List Node };

    ghost view = { λ a. a.nodes.rest.now };
}

impl<'a> Iterator for Walk<'a> {
    type Item = &'a Node;

    ghost next_gives = { TakesFirst deref };

    ghost remaining = { λ s. at_most (length s) };

    fn next(&mut self) -> Option<&'a Node> {
        Some(self.nodes.next()?.node())
    }
}

impl<'a> DoubleEndedIterator for Walk<'a> {
    ghost next_back_gives = { TakesLast deref };

    fn next_back(&mut self) -> Option<&'a Node> {
        Some(self.nodes.next_back()?.node())
    }
}

impl Nodes {
    /// These nodes, whose serials are distinct, each of them moved; unless memory runs out.
    pub fn of(alloc: Global, nodes: Vec<Node>) -> Result<Nodes, AllocError>
        requires few { length nodes.items < 2 ^ 32 - 1 }
        requires apart { IsDistinct nodes.items }
        ensures { IfOk result (λ made. made ≡ nodes.items) }
    {
        let list = shared(alloc, nodes)?;
        let places = places_of(alloc, &list)?;
        Ok(Nodes { list, places })
    }

    /// How many nodes there are. It takes no memory.
    pub fn len(&self) -> usize
        ensures { result ≡ length self.now }
    {
        self.list.len()
    }

    /// The nodes, one after another in document order. It takes no memory.
    pub fn iter(&self) -> Walk<'_>
        ensures { result ≡ self.now }
    {
        Walk {
            nodes: self.list.iter(),
        }
    }

    /// The nodes from a position on up to another, one after another. It takes no memory.
    pub fn between(&self, start: usize, end: usize) -> Walk<'_>
        requires in_order { start ≤ end }
        requires within { end ≤ length self.now }
        ensures { result ≡ slice_range self.now start end }
    {
        Walk {
            nodes: self.list[start..end].iter(),
        }
    }

    /// The node at a place from 0; None exactly where the place is not below the length. It takes
    /// no memory.
    pub fn at(&self, place: usize) -> Option<&Node>
        ensures { option_copied result ≡ slice_get self.now place }
    {
        Some(self.list.get(place)?.node())
    }

    /// The position of the node with a serial; None exactly where there is no such node. It takes
    /// no memory.
    pub fn position(&self, serial: u32) -> Option<usize>
        ensures { result ≡ position (λ (n : AnyNode). n.serial == serial) self.now }
    {
        self.places.get(serial)
    }

    /// The node with a serial; None exactly where there is no such node. It takes no memory.
    pub fn get(&self, serial: u32) -> Option<&Node>
        ensures { option_copied result ≡ node_at self.now serial }
    {
        let place = self.places.get(serial)?;
        self.at(place)
    }

    /// Inserts a node with a new serial at a place. Where memory runs out the nodes are as before.
    pub fn insert(&mut self, place: usize, node: Node) -> Result<(), AllocError>
        requires within { place ≤ length self.old }
        requires few { length self.old + 1 < 2 ^ 32 - 1 }
        requires fresh { node_at self.old node.serial ≡ None }
        ensures ok { OnOk result (self.new ≡ insert self.old place node) }
        ensures err { OnErr result (self.new ≡ self.old) }
    {
        let serial = node.serial;
        let shared = SharedNode::new(*self.list.allocator(), node)?;
        self.list.reserve(1)?;
        self.places.put(serial, place)?;
        self.list.insert(place, shared).unwrap();
        count_from(&mut self.places, &self.list, place);
        Ok(())
    }

    /// Removes the nodes from a place on up to another. It takes no memory.
    pub fn remove(&mut self, place: usize, end: usize)
        requires in_order { place ≤ end }
        requires within { end ≤ length self.old }
        ensures { self.new ≡ cut place end self.old }
    {
        forget_each(&mut self.places, &self.list[place..end]);
        take_out(&mut self.list, place, end);
        count_from(&mut self.places, &self.list, place);
    }

    /// The node with a serial, given an attribute, unless memory runs out. The nodes stay.
    pub fn with_attr(&self, serial: u32, attr: Attr) -> Result<SharedNode, AllocError>
        requires { IsSome (node_at self.now serial) }
        ensures { IfOk result (λ node. (old : AnyNode) → node_at self.now serial ≡ Some old
            → node ≡ with_attrs (λ attrs. attrs_with attrs attr) old) }
    {
        let mut node = self.get(serial).unwrap().copy()?;
        with_attr(&mut node.attrs, attr);
        SharedNode::new(*self.list.allocator(), node)
    }

    /// The node with a serial without an attribute, unless memory runs out. The nodes stay.
    pub fn without_attr(&self, serial: u32, name: AttrName) -> Result<SharedNode, AllocError>
        requires { IsSome (node_at self.now serial) }
        ensures { IfOk result (λ node. (old : AnyNode) → node_at self.now serial ≡ Some old
            → node ≡ with_attrs (λ attrs. attrs_without attrs name) old) }
    {
        let mut node = self.get(serial).unwrap().copy()?;
        without_attr(&mut node.attrs, name);
        SharedNode::new(*self.list.allocator(), node)
    }

    /// Puts a node with other attributes in the place of the one with its serial. It takes no
    /// memory.
    pub fn replace(&mut self, serial: u32, node: SharedNode)
        requires { (change : AnyAttrs → AnyAttrs) × (old : AnyNode)
            × (node_at self.old serial ≡ Some old) × (node ≡ with_attrs change old) }
        ensures { (change : AnyAttrs → AnyAttrs) (old : AnyNode) → node_at self.old serial ≡ Some old
            → node ≡ with_attrs change old → self.new ≡ changed_at change serial self.old }
    {
        let place = self.places.get(serial).unwrap();
        self.list[place] = node;
    }
}

// These nodes, which nothing shares yet.
fn shared(alloc: Global, nodes: Vec<Node>) -> Result<Vec<SharedNode>, AllocError>
    ensures { IfOk result (λ list. list.items ≡ nodes.items) }
{
    let mut list = Vec::with_capacity(alloc, nodes.len())?;
    for node in nodes {
        list.push(SharedNode::new(alloc, node)?)?;
    }
    Ok(list)
}

// The places of the serials of these nodes.
fn places_of(alloc: Global, nodes: &[SharedNode]) -> Result<SerialTable, AllocError>
    requires { IsDistinct nodes.now }
    ensures { IfOk result (λ places. (s : ℕ) → place_of places s
        ≡ position (λ (n : AnyNode). n.serial == s) nodes.now) }
{
    let mut places = SerialTable::new(alloc);
    for (place, node) in nodes.iter().enumerate() {
        places.put(node.node().serial, place)?;
    }
    Ok(places)
}

// Gives the serials of the nodes from a place on their places anew. It takes no memory, since each
// serial has a place already.
fn count_from(places: &mut SerialTable, nodes: &[SharedNode], first: usize)
    requires few { length nodes.now < 2 ^ 32 - 1 }
    requires apart { IsDistinct nodes.now }
    requires counted { IsCounted nodes.now places.old first }
    ensures { (s : ℕ) → place_of places.new s
        ≡ position (λ (n : AnyNode). n.serial == s) nodes.now }
{
    for place in first..nodes.len() {
        places.put(nodes[place].node().serial, place).unwrap();
    }
}

// The nodes without those from a place on up to another.
fn take_out(nodes: &mut Vec<SharedNode>, place: usize, end: usize)
    requires in_order { place ≤ end }
    requires within { end ≤ length nodes.old.items }
    ensures { nodes.new.items ≡ cut place end nodes.old.items }
{
    nodes.drain(place..end);
}

// Drops the places of the serials of these nodes.
fn forget_each(places: &mut SerialTable, nodes: &[SharedNode])
    ensures { (s : ℕ) → place_of places.new s
        ≡ (if list_any (λ (n : AnyNode). n.serial == s) nodes.now then None
        else place_of places.old s) }
{
    for node in nodes {
        places.forget(node.node().serial);
    }
}
