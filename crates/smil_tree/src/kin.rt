//! The children and the time children of each node.

ghost use Rattle.std.specs.Prelude.{◌≡◌, ℕ, ◌+◌, ◌≤◌, ◌==◌, Bool, [], ◌∷◌, ◌++◌, IfOk, length, take, filter, insert, slice_get, slice_range, Some, None, if◌then◌else◌, OnOk, OnErr};
ghost use Rattle.std.specs.List.{list_any};
ghost use Rattle.smil_model.specs.declared.document.Node.{Node as AnyNode};
ghost use Rattle.smil_model.specs.document.Document.{is_element, time_parent as time_parent_in, serials, serial_of};
ghost use Rattle.smil_model.specs.document.Edits.{children};
ghost use Rattle.smil_model.specs.document.Valid.{IsDistinct};
ghost use Rattle.smil_model.specs.reach.Reach.{is_option};
ghost use Rattle.smil_model.specs.ListTables.{list_in, list_of};
ghost use Rattle.smil_laws.specs.Edited.{IsOrdered};
ghost use Rattle.smil_tree.specs.Places.{cut};
ghost use Rattle.smil_tree.specs.Kin.{AreListsOf, HasRoom, IsKinOf, IsSubtree, Separates, is_before};

use crate::nodes::Nodes;
use crate::tree::family::element_from;
use smil_model::{Duplicate, Node};
use std::alloc::{AllocError, Global};
use std::collections::HashMap;
use std::marker::Model;

// Lists of serials by a serial; one without a list has the empty one.
type Lists = HashMap<u32, Vec<u32>>;

// A node that comes in, with its place among the nodes.
#[derive(Clone, Copy)]
struct Newcomer<'a> {
    nodes: &'a Nodes,
    node: &'a Node,
    at: usize,
}

// The nodes from a place on up to another.
#[derive(Clone, Copy)]
struct Span<'a> {
    nodes: &'a Nodes,
    start: usize,
    end: usize,
}

/// The serials of the children and of the time children of each node, in document order, seen as
/// two tables of lists.
#[derive(Drop)]
pub struct Kin {
    children: Lists,
    time_children: Lists,
    alloc: Global,
}

impl Model for Kin {
    ghost use Rattle.smil_model.specs.ListTables.{rows};
    ghost use Rattle.smil_tree.specs.Kin.{Families};

    ghost Value = { Families };

    ghost view = { λ a.
        record {
          children = rows a.children.entries;
          time_children = rows a.time_children.entries;
        } };
}

impl Duplicate for Kin {
    fn copy(&self) -> Result<Self, AllocError> {
        Ok(Kin {
            children: self.children.clone()?,
            time_children: self.time_children.clone()?,
            alloc: self.alloc,
        })
    }
}

impl Kin {
    /// The kin of these nodes, unless memory runs out.
    pub fn of(alloc: Global, nodes: &Nodes) -> Result<Kin, AllocError>
        requires { IsOrdered nodes.now }
        ensures { IfOk result (λ kin. IsKinOf kin nodes.now) }
    {
        let mut children = HashMap::new(alloc);
        let mut time_children = HashMap::new(alloc);
        for node in nodes.iter() {
            let time_parent = if_element(node, element_from(nodes, node.parent));
            append(&mut children, Some(node.parent), node.serial, alloc)?;
            append(&mut time_children, time_parent, node.serial, alloc)?;
        }
        Ok(Kin {
            children,
            time_children,
            alloc,
        })
    }

    /// The serials of the nodes with this parent, in document order; the root's parent is 0. It
    /// takes no memory.
    pub fn children(&self, serial: u32) -> &[u32]
        ensures { result.now ≡ list_in self.now.children serial }
    {
        list_at(&self.children, serial)
    }

    /// The serials of an element's time children, in document order; none for a priorityClass, and
    /// where there is no such node. It takes no memory.
    pub fn time_children(&self, serial: u32) -> &[u32]
        ensures { result.now ≡ list_in self.now.time_children serial }
    {
        list_at(&self.time_children, serial)
    }

    /// Takes in the node at a place among these nodes, which has this time parent and no children.
    /// Where memory runs out the kin is still that of the other nodes.
    pub fn grow(
        &mut self,
        nodes: &Nodes,
        time_parent: Option<u32>,
        at: usize,
    ) -> Result<(), AllocError>
        requires kin { IsKinOf self.old (cut at (at + 1) nodes.now) }
        requires ordered { IsOrdered nodes.now }
        requires leaf { (n : AnyNode) × (slice_get nodes.now at ≡ Some n)
            × (children (cut at (at + 1) nodes.now) n.serial ≡ [])
            × (time_parent ≡ serial_of (time_parent_in nodes.now n.serial)) }
        ensures ok { OnOk result (IsKinOf self.new nodes.now) }
        ensures err { OnErr result (IsKinOf self.new (cut at (at + 1) nodes.now)) }
    {
        let node = nodes.at(at).unwrap();
        let parent = Some(node.parent);
        let time_parent = if_element(node, time_parent);
        make_room(&mut self.children, parent, self.alloc)?;
        make_room(&mut self.time_children, time_parent, self.alloc)?;
        let newcomer = Newcomer { nodes, node, at };
        join(&mut self.children, parent, &newcomer);
        join(&mut self.time_children, time_parent, &newcomer);
        Ok(())
    }

    /// Drops the nodes from a place on up to another, which are a node with this time parent
    /// and its descendants. It takes no memory.
    pub fn shrink(&mut self, nodes: &Nodes, time_parent: Option<u32>, start: usize, end: usize)
        requires kin { IsKinOf self.old nodes.now }
        requires ordered { IsOrdered nodes.now }
        requires in_order { start ≤ end }
        requires within { end ≤ length nodes.now }
        requires subtree { (n : AnyNode) × IsSubtree nodes.now start end n
            × (time_parent ≡ serial_of (time_parent_in nodes.now n.serial)) }
        ensures { IsKinOf self.new (cut start end nodes.now) }
    {
        let node = nodes.at(start).unwrap();
        let span = Span { nodes, start, end };
        leave(&mut self.children, Some(node.parent), &span);
        leave(&mut self.time_children, time_parent, &span);
    }
}

// The time parent of a node among whose time children it is; none for a priorityClass.
fn if_element(node: &Node, time_parent: Option<u32>) -> Option<u32>
    ensures { result ≡ (if is_element node.now then time_parent else None) }
{
    if node.kind.is_element() {
        time_parent
    } else {
        None
    }
}

// The list of a serial.
fn list_at(lists: &Lists, serial: u32) -> &[u32]
    ensures { result.now ≡ list_of lists.now.entries serial }
{
    match lists.get(&serial) {
        Some(list) => list,
        None => &[],
    }
}

// Appends a serial to the list of another, if there is one.
fn append(
    lists: &mut Lists,
    owner: Option<u32>,
    serial: u32,
    alloc: Global,
) -> Result<(), AllocError>
    ensures { OnOk result ((s : ℕ) → list_of lists.new.entries s
        ≡ (if is_option s owner then list_of lists.old.entries s ++ serial ∷ [] else list_of
        lists.old.entries s)) }
{
    match owner {
        Some(owner) => append_to(lists, owner, serial, alloc),
        None => Ok(()),
    }
}

// Appends a serial to the list of another.
fn append_to(lists: &mut Lists, owner: u32, serial: u32, alloc: Global) -> Result<(), AllocError>
    ensures { OnOk result ((s : ℕ) → list_of lists.new.entries s
        ≡ (if owner == s then list_of lists.old.entries s ++ serial ∷ [] else list_of
        lists.old.entries s)) }
{
    if let Some(list) = lists.get_mut(&owner) {
        list.push(serial)?;
        return Ok(());
    }
    let mut list = Vec::new(alloc);
    list.push(serial)?;
    lists.insert(owner, list)?;
    Ok(())
}

// Makes room for one more in the list of a serial, if there is one.
fn make_room(lists: &mut Lists, owner: Option<u32>, alloc: Global) -> Result<(), AllocError>
    ensures same { (s : ℕ) → list_of lists.new.entries s ≡ list_of lists.old.entries s }
    ensures ok { OnOk result (HasRoom owner lists.new.entries) }
{
    match owner {
        Some(owner) => reserve(lists, owner, alloc),
        None => Ok(()),
    }
}

// Makes room for one more in the list of a serial.
fn reserve(lists: &mut Lists, owner: u32, alloc: Global) -> Result<(), AllocError>
    ensures same { (s : ℕ) → list_of lists.new.entries s ≡ list_of lists.old.entries s }
    ensures ok { OnOk result (HasRoom (Some owner) lists.new.entries) }
{
    if let Some(list) = lists.get_mut(&owner) {
        return list.reserve(1);
    }
    lists.insert(owner, Vec::with_capacity(alloc, 1)?)?;
    Ok(())
}

// Puts a node that comes in into the list of a serial, if there is one.
fn join(lists: &mut Lists, owner: Option<u32>, newcomer: &Newcomer<'_>)
    requires room { HasRoom owner lists.old.entries }
    requires distinct { IsDistinct newcomer.now.nodes.now }
    requires there { slice_get newcomer.now.nodes.now newcomer.now.at ≡ Some newcomer.now.node.now }
    ensures { (t : ℕ → AnyNode → Bool)
        → AreListsOf t lists.old.entries
        (cut newcomer.now.at (newcomer.now.at + 1) newcomer.now.nodes.now)
        → ((s : ℕ) → t s newcomer.now.node.now ≡ is_option s owner)
        → AreListsOf t lists.new.entries newcomer.now.nodes.now }
{
    if let Some(owner) = owner {
        let index = count_before(newcomer.nodes, list_at(lists, owner), newcomer.at);
        put(lists, owner, index, newcomer.node.serial);
    }
}

// Puts a serial at an index into the list of another, which has room.
fn put(lists: &mut Lists, owner: u32, index: usize, serial: u32)
    requires room { HasRoom (Some owner) lists.old.entries }
    requires within { index ≤ length (list_of lists.old.entries owner) }
    ensures { (s : ℕ) → list_of lists.new.entries s
        ≡ (if owner == s then insert (list_of lists.old.entries s) index serial else list_of
        lists.old.entries s) }
{
    let list = lists.get_mut(&owner).unwrap();
    list.insert(index, serial).unwrap();
}

// Drops the nodes of a span, in the list of a serial, if there is one, and of their own lists.
fn leave(lists: &mut Lists, owner: Option<u32>, span: &Span<'_>)
    requires distinct { IsDistinct span.now.nodes.now }
    requires in_order { span.now.start ≤ span.now.end }
    requires within { span.now.end ≤ length span.now.nodes.now }
    requires lists { (t : ℕ → AnyNode → Bool) × AreListsOf t lists.old.entries span.now.nodes.now }
    ensures { (t : ℕ → AnyNode → Bool) → AreListsOf t lists.old.entries span.now.nodes.now
        → Separates t owner span.now.start span.now.end span.now.nodes.now
        → AreListsOf t lists.new.entries
        (cut span.now.start span.now.end span.now.nodes.now) }
{
    if let Some(owner) = owner {
        let list = list_at(lists, owner);
        let first = count_before(span.nodes, list, span.start);
        let past = count_before(span.nodes, list, span.end);
        take_out(lists, owner, first, past);
    }
    forget(lists, span);
}

// Takes what stands from one index on up to another out of the list of a serial.
fn take_out(lists: &mut Lists, owner: u32, first: usize, past: usize)
    requires in_order { first ≤ past }
    requires within { past ≤ length (list_of lists.old.entries owner) }
    ensures { (s : ℕ) → list_of lists.new.entries s
        ≡ (if owner == s then cut first past (list_of lists.old.entries s) else list_of
        lists.old.entries s) }
{
    if let Some(list) = lists.get_mut(&owner) {
        cut(list, first, past);
    }
}

// The list without what stands from one index on up to another.
fn cut(list: &mut Vec<u32>, first: usize, past: usize)
    requires in_order { first ≤ past }
    requires within { past ≤ length list.old.items }
    ensures { list.new.items ≡ cut first past list.old.items }
{
    list.drain(first..past);
}

// Drops the lists of the nodes of a span.
fn forget(lists: &mut Lists, span: &Span<'_>)
    requires in_order { span.now.start ≤ span.now.end }
    requires within { span.now.end ≤ length span.now.nodes.now }
    ensures { (s : ℕ) → list_of lists.new.entries s
        ≡ (if list_any (λ (n : AnyNode). n.serial == s)
        (slice_range span.now.nodes.now span.now.start span.now.end) then []
        else list_of lists.old.entries s) }
{
    for node in span.nodes.between(span.start, span.end) {
        lists.remove(&node.serial);
    }
}

// How many of these serials, in document order, stand before a place, from which on some nodes may
// be left out.
fn count_before(nodes: &Nodes, list: &[u32], at: usize) -> usize
    requires { IsDistinct nodes.now }
    ensures within { result ≤ length list.now }
    ensures count { (t : AnyNode → Bool) (past : ℕ) → at ≤ past
        → list.now ≡ serials (filter t (cut at past nodes.now))
        → result ≡ length (filter t (take at nodes.now)) }
{
    list.partition_point(|serial| is_before(nodes, *serial, at))
}

// Whether a node stands before a place.
fn is_before(nodes: &Nodes, serial: u32, at: usize) -> bool
    ensures { result ≡ is_before nodes.now at serial }
{
    match nodes.position(serial) {
        Some(place) => place < at,
        None => false,
    }
}
