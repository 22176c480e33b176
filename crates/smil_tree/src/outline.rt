//! What is read most of each node, in document order.

ghost use Rattle.std.specs.Prelude.{◌≡◌, ℕ, ◌+◌, ◌<◌, ◌≤◌, List, [], ◌∷◌, ◌++◌, length, Some, if◌then◌else◌, IfOk, OnOk, vec_capacity, slice_get, option_copied, unwrap_or, false};
ghost use Rattle.smil_model.specs.declared.document.Node.{Node as AnyNode};
ghost use Rattle.smil_model.specs.document.Document.{is_element, serials, time_children};
ghost use Rattle.smil_model.specs.document.Valid.{IsValid};
ghost use Rattle.smil_tree.specs.Kin.{IsKinOf};
ghost use Rattle.smil_tree.specs.Outline.{BeginsOutline, HasChildren, HasRoomFor, IsAbove, IsOutlineOf, IsRowOf, default_fill_from, default_restart_from, fill_by, own, parent_from, reads as reads_attr, reads_name as reads_attr_name, restart_by, children_at};

use super::kin::Kin;
use super::nodes::Nodes;
use super::tree::defaults::{own_fill, own_restart, stated_fill, stated_restart};
use super::tree::spans::end_of;
use smil_model::{Attr, AttrName, Fill, Kind, Node, Restart};
use std::alloc::{AllocError, Global};

/// A node by its place in document order and its serial.
#[derive(Clone, Copy)]
pub struct Placed {
    pub place: u32,
    pub serial: u32,
}

/// What is read most of a node: its kind, its time parent, the place behind its last descendant,
/// where its time children begin and end in the list of those of all nodes, how many elements stand
/// before it, and the restart and the fill that hold, with those that hold where nothing is stated.
#[derive(Clone, Copy)]
pub struct OutlineRow {
    pub kind: Kind,
    pub parent: Option<Placed>,
    pub past: u32,
    pub children_start: u32,
    pub children_end: u32,
    pub index: u32,
    pub restart: Restart,
    pub fill: Fill,
    pub default_restart: Restart,
    pub default_fill: Fill,
}

/// A node's parent: its place and its row.
#[derive(Clone, Copy)]
pub struct Above {
    pub place: u32,
    pub row: OutlineRow,
}

/// A row for each node, the serials of the time children of all nodes, one node's after another's,
/// and the serials of the elements.
#[derive(Drop)]
pub struct Outline {
    rows: Vec<OutlineRow>,
    children: Vec<u32>,
    elements: Vec<u32>,
}

impl Outline {
    /// The outline of no nodes. It takes no memory.
    pub fn new(alloc: Global) -> Outline
        ensures { IsOutlineOf [] result }
    {
        Outline {
            rows: Vec::new(alloc),
            children: Vec::new(alloc),
            elements: Vec::new(alloc),
        }
    }

    /// The same outline, unless memory runs out. The original stays.
    pub fn copy(&self, alloc: Global) -> Result<Outline, AllocError>
        ensures { IfOk result (λ outline. (nodes : List AnyNode) → IsOutlineOf nodes self.now
            → IsOutlineOf nodes outline) }
    {
        let count = self.rows.len();
        Ok(Outline {
            rows: with_room(alloc, &self.rows, count)?,
            children: with_room(alloc, &self.children, count)?,
            elements: with_room(alloc, &self.elements, count)?,
        })
    }

    /// The row of the node at a place, if there is one. It takes no memory.
    pub fn row(&self, place: usize) -> Option<&OutlineRow>
        ensures { option_copied result ≡ slice_get self.now.rows.items place }
    {
        self.rows.get(place)
    }

    /// The serials of the time children of a node, by its row. It takes no memory.
    pub fn time_children(&self, row: &OutlineRow) -> &[u32]
        requires in_order { row.now.children_start ≤ row.now.children_end }
        requires within { row.now.children_end ≤ length self.now.children.items }
        ensures { result.now ≡ children_at self.now.children.items row.now }
    {
        &self.children[row.children_start as usize..row.children_end as usize]
    }

    /// The serials of the elements, in document order. It takes no memory.
    pub fn elements(&self) -> &[u32]
        ensures { result.now ≡ self.now.elements.items }
    {
        &self.elements
    }

    /// The serial of the element at an index among the elements, if there is one. It takes no
    /// memory.
    pub fn element(&self, index: usize) -> Option<u32>
        ensures { result ≡ slice_get self.now.elements.items index }
    {
        self.elements.get(index).copied()
    }

    /// Makes room for the outline of so many nodes. The outline stays, also where memory runs out.
    pub fn reserve(&mut self, count: usize) -> Result<(), AllocError>
        ensures room { OnOk result (HasRoomFor self.new count) }
        ensures same { (nodes : List AnyNode) → IsOutlineOf nodes self.old
            → IsOutlineOf nodes self.new }
    {
        let rows = count.saturating_sub(self.rows.len());
        let children = count.saturating_sub(self.children.len());
        let elements = count.saturating_sub(self.elements.len());
        self.rows.reserve(rows)?;
        self.children.reserve(children)?;
        self.elements.reserve(elements)
    }

    /// Makes the outline that of these nodes, for which there is room. It takes no memory.
    pub fn refresh(&mut self, nodes: &Nodes, kin: &Kin)
        requires room { HasRoomFor self.old (length nodes.now) }
        requires kin { IsKinOf kin.now nodes.now }
        requires valid { (next : ℕ) × IsValid (record { nodes = nodes.now; next = next }) }
        ensures { IsOutlineOf nodes.now self.new }
    {
        self.clear();
        for node in nodes.iter() {
            self.add(nodes, kin, node);
        }
    }

    /// Makes the outline that of these nodes, for which there is room, where it may not be so. It
    /// takes no memory.
    pub fn follow(&mut self, nodes: &Nodes, kin: &Kin, differs: bool)
        requires room { HasRoomFor self.old (length nodes.now) }
        requires kin { IsKinOf kin.now nodes.now }
        requires valid { (next : ℕ) × IsValid (record { nodes = nodes.now; next = next }) }
        requires same { differs ≡ false → IsOutlineOf nodes.now self.old }
        ensures { IsOutlineOf nodes.now self.new }
    {
        if differs {
            self.refresh(nodes, kin);
        }
    }

    // Empties the outline.
    fn clear(&mut self)
        ensures { (nodes : List AnyNode) → HasRoomFor self.old (length nodes)
            → BeginsOutline nodes self.new 0 }
    {
        self.rows.clear();
        self.children.clear();
        self.elements.clear();
    }

    // Adds the row of the node behind those that have rows.
    fn add(&mut self, nodes: &Nodes, kin: &Kin, node: &Node)
        requires begun { BeginsOutline nodes.now self.old (length self.old.rows.items) }
        requires here { slice_get nodes.now (length self.old.rows.items) ≡ Some node.now }
        requires kin { IsKinOf kin.now nodes.now }
        requires valid { (next : ℕ) × IsValid (record { nodes = nodes.now; next = next }) }
        ensures { BeginsOutline nodes.now self.new (length self.old.rows.items + 1) }
    {
        let row = self.row_of(nodes, kin, node);
        self.children
            .extend_from_slice(kin.time_children(node.serial))
            .unwrap();
        add_element(&mut self.elements, node);
        self.rows.push(row).unwrap();
    }

    // The row of the node behind those that have rows.
    fn row_of(&self, nodes: &Nodes, kin: &Kin, node: &Node) -> OutlineRow
        requires begun { BeginsOutline nodes.now self.now (length self.now.rows.items) }
        requires here { slice_get nodes.now (length self.now.rows.items) ≡ Some node.now }
        requires kin { IsKinOf kin.now nodes.now }
        requires valid { (next : ℕ) × IsValid (record { nodes = nodes.now; next = next }) }
        ensures row { IsRowOf nodes.now (length self.now.rows.items) node.now result }
        ensures children { HasChildren nodes.now
            (self.now.children.items ++ serials (time_children nodes.now node.now.serial))
            node.now result }
    {
        let above = self.above(nodes, node);
        let children_start = self.children.len();
        let children_end = children_start + kin.time_children(node.serial).len();
        let default_restart = default_restart(node, above);
        let default_fill = default_fill(node, above);
        OutlineRow {
            kind: node.kind,
            parent: time_parent(above, node.parent),
            past: small(end_of(nodes, kin, node.serial)),
            children_start: small(children_start),
            children_end: small(children_end),
            index: small(self.elements.len()),
            restart: own_restart(&node.attrs).unwrap_or(default_restart),
            fill: own_fill(&node.attrs).unwrap_or(default_fill),
            default_restart,
            default_fill,
        }
    }

    // The place and the row of the parent of the node behind those that have rows, if it has one.
    fn above(&self, nodes: &Nodes, node: &Node) -> Option<Above>
        requires begun { BeginsOutline nodes.now self.now (length self.now.rows.items) }
        requires here { slice_get nodes.now (length self.now.rows.items) ≡ Some node.now }
        requires valid { (next : ℕ) × IsValid (record { nodes = nodes.now; next = next }) }
        ensures { IsAbove nodes.now node.now.parent result }
    {
        let place = nodes.position(node.parent)?;
        let row = *self.row(place).unwrap();
        Some(Above {
            place: small(place),
            row,
        })
    }
}

/// Whether a row is read from an attribute: `restart` and `fill`, and the defaults of both.
pub fn reads(attr: &Attr) -> bool
    ensures { result ≡ reads_attr attr.now }
{
    matches!(
        attr,
        Attr::Restart(_) | Attr::Fill(_) | Attr::RestartDefault(_) | Attr::FillDefault(_)
    )
}

/// The same by the name of the attribute.
pub fn reads_name(name: AttrName) -> bool
    ensures { result ≡ reads_attr_name name }
{
    matches!(
        name,
        AttrName::Restart | AttrName::Fill | AttrName::RestartDefault | AttrName::FillDefault
    )
}

// These items, with room for so many at least.
fn with_room<T: Copy>(alloc: Global, items: &[T], count: usize) -> Result<Vec<T>, AllocError>
    ensures items { IfOk result (λ copy. copy.items ≡ items.now) }
    ensures room { IfOk result (λ copy. count ≤ vec_capacity copy) }
{
    let mut copy = Vec::with_capacity(alloc, count)?;
    copy.extend_from_slice(items)?;
    Ok(copy)
}

// A number of nodes, which are few.
fn small(count: usize) -> u32
    requires { count ≤ 4294967295 }
    ensures { result ≡ count }
{
    count as u32
}

// Adds the serial of a node that is an element.
fn add_element(elements: &mut Vec<u32>, node: &Node)
    requires { length elements.old.items < vec_capacity elements.old }
    ensures items { elements.new.items
        ≡ elements.old.items ++ (if is_element node.now then node.now.serial ∷ [] else []) }
    ensures capacity { vec_capacity elements.old ≤ vec_capacity elements.new }
{
    if node.kind.is_element() {
        elements.push(node.serial).unwrap();
    }
}

// The time parent of a node: its parent, or the time parent of that where it is a priorityClass.
fn time_parent(above: Option<Above>, parent: u32) -> Option<Placed>
    ensures { result ≡ parent_from above parent }
{
    let above = above?;
    if above.row.kind.is_element() {
        Some(Placed {
            place: above.place,
            serial: parent,
        })
    } else {
        above.row.parent
    }
}

// The restart that holds for a node where it states none itself.
fn default_restart(node: &Node, above: Option<Above>) -> Restart
    ensures { result ≡ unwrap_or (own restart_by node.now) (default_restart_from above) }
{
    match (stated_restart(node), above) {
        (Some(stated), _) => stated,
        (None, Some(above)) => above.row.default_restart,
        (None, None) => Restart::Always,
    }
}

// The fill that holds for a node where it states none itself.
fn default_fill(node: &Node, above: Option<Above>) -> Fill
    ensures { result ≡ unwrap_or (own fill_by node.now) (default_fill_from above) }
{
    match (stated_fill(node), above) {
        (Some(stated), _) => stated,
        (None, Some(above)) => above.row.default_fill,
        (None, None) => Fill::Auto,
    }
}
