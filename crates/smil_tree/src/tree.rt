//! A document that is read and edited in place.

pub(crate) mod defaults;
mod edits;
pub(crate) mod family;
mod inserting;
mod placing;
mod removing;
pub(crate) mod spans;

ghost use Rattle.std.specs.Prelude.{◌≡◌, ℕ, ◌<◌, ◌≤◌, ◌==◌, List, [], ◌∷◌, take, length, true, Some, IsSome, IfOk, OnOk, slice_get, option_copied, option_map, sum_by};
ghost use Rattle.std.specs.List.{position as first_place};
ghost use Rattle.smil_model.specs.declared.document.Node.{Node as AnyNode};
ghost use Rattle.smil_model.specs.document.Document.{Document, elements, node_at, serial_of, serials, time_parent as time_parent_of, time_children};
ghost use Rattle.smil_model.specs.document.Edits.{place_in};
ghost use Rattle.smil_model.specs.document.Valid.{IsValid, kind_of, references, references_of};
ghost use Rattle.smil_model.specs.shown.Orders.{node_of};
ghost use Rattle.smil_tree.specs.TreeFields.{IsTableOf};
ghost use Rattle.smil_tree.specs.Outline.{IsRowOf};

use super::ids::{Ids, note_node};
use super::kin::Kin;
use super::nodes::{Nodes, Walk};
use super::outline::{Outline, OutlineRow};
use smil_model::{Attrs, Doc, Duplicate, Kind, Node, REFERENCES, Who, references_in};
use std::alloc::{AllocError, Global};
use std::marker::Model;
use std::rc::Rc;

/// A document that is read and edited in place, seen as the document that it stands for.
pub struct Tree {
    nodes: Nodes,
    next: u32,
    kin: Rc<Kin>,
    ids: Rc<Ids>,
    references: usize,
    outline: Outline,
    alloc: Global,
}

impl Drop for Tree {
    // Dropped by a call of its own, not field by field in each function that drops one.
    fn drop(self) {
        let Tree {
            nodes: _nodes,
            next: _next,
            kin: _kin,
            ids: _ids,
            references: _references,
            outline: _outline,
            alloc: _alloc,
        } = self;
    }
}

impl Model for Tree {
    ghost use Rattle.smil_model.specs.document.Document.{Document};
    ghost use Rattle.smil_tree.specs.TreeFields.{IsKept};

    ghost Value = { Document };

    ghost view = { λ a. record { nodes = a.nodes; next = a.next } };

    ghost invariant = { λ a.
        IsKept a.nodes a.next a.ids.value a.references a.kin.value a.outline };
}

impl Duplicate for Tree {
    fn copy(&self) -> Result<Self, AllocError> {
        Ok(Tree {
            nodes: self.nodes.copy()?,
            next: self.next,
            kin: self.kin.clone()?,
            ids: self.ids.clone()?,
            references: self.references,
            outline: self.outline.copy(self.alloc)?,
            alloc: self.alloc,
        })
    }
}

impl Tree {
    /// The tree of a document, whose nodes are moved and not copied; unless memory runs out.
    pub fn of_doc(alloc: Global, doc: Doc) -> Result<Tree, AllocError>
        requires { IsValid doc }
        ensures { IfOk result (λ tree. tree ≡ doc) }
    {
        made(alloc, doc)
    }

    /// The document that the tree stands for, unless memory runs out.
    pub fn doc_copy(&self) -> Result<Doc, AllocError>
        ensures doc { IfOk result (λ doc. doc ≡ self.now) }
        ensures valid { IfOk result (λ doc. IsValid doc) }
    {
        doc_of(self.alloc, &self.nodes, self.next)
    }

    /// The document is valid: a law for proofs, which costs nothing.
    pub fn valid(&self)
        ensures { IsValid self.now }
    {
        let _kept = &self.next;
    }

    /// The serial of the next node that is inserted. It takes no memory.
    pub fn next(&self) -> u32
        ensures { result ≡ self.now.next }
    {
        self.next
    }

    /// The nodes, in document order. It takes no memory.
    pub fn nodes(&self) -> Walk<'_>
        ensures { result ≡ self.now.nodes }
    {
        self.nodes.iter()
    }

    /// The serial of a node by its id or serial; None exactly where there is no such node. It takes
    /// no memory.
    pub fn find(&self, who: &Who) -> Option<u32>
        ensures { result ≡ serial_of (node_of self.now.nodes who.now) }
    {
        match who {
            Who::Id(id) => self.ids.as_ref().get(id.slice()),
            Who::Serial(serial) => Some(self.nodes.get(*serial)?.serial),
        }
    }

    /// The place of a node in document order, from 0; None exactly where there is no such node. It
    /// takes no memory.
    pub fn position(&self, serial: u32) -> Option<usize>
        ensures { result ≡ first_place (λ (n : AnyNode). n.serial == serial) self.now.nodes }
    {
        self.nodes.position(serial)
    }

    /// How many nodes there are. It takes no memory.
    pub fn len(&self) -> usize
        ensures { result ≡ length self.now.nodes }
    {
        self.nodes.len()
    }

    /// The node at a place in document order, from 0; None exactly where the place is not below the
    /// number of nodes. It takes no memory.
    pub fn at(&self, place: usize) -> Option<&Node>
        ensures { option_copied result ≡ slice_get self.now.nodes place }
    {
        self.nodes.at(place)
    }

    /// The serial of the node at a place in document order, from 0; None exactly where the place is
    /// not below the number of nodes. It takes no memory.
    pub fn serial_at(&self, position: usize) -> Option<u32>
        ensures { result ≡ serial_of (slice_get self.now.nodes position) }
    {
        Some(self.nodes.at(position)?.serial)
    }

    /// The index of an element among the elements in document order, from 0; None exactly where the
    /// serial is no element's. It takes no memory.
    pub fn element_index(&self, serial: u32) -> Option<usize>
        ensures { result ≡ first_place (λ (n : AnyNode). n.serial == serial)
            (elements self.now.nodes) }
    {
        let place = self.nodes.position(serial)?;
        let row = self.outline.row(place).unwrap();
        if row.kind.is_element() {
            Some(row.index as usize)
        } else {
            None
        }
    }

    /// The serial of the element at an index among the elements in document order, from 0; None
    /// exactly where the index is not below the number of elements. It takes no memory.
    pub fn element_at(&self, index: usize) -> Option<u32>
        ensures { result ≡ serial_of (slice_get (elements self.now.nodes) index) }
    {
        let _kept = &self.next;
        self.outline.element(index)
    }

    /// The serials of the elements, in document order. It takes no memory.
    pub fn elements(&self) -> &[u32]
        ensures { result.now ≡ serials (elements self.now.nodes) }
    {
        let _kept = &self.next;
        self.outline.elements()
    }

    /// The kind of a node. It takes no memory.
    pub fn kind(&self, serial: u32) -> Kind
        requires { IsSome (node_at self.now.nodes serial) }
        ensures { Some result ≡ kind_of (node_at self.now.nodes serial) }
    {
        self.row(serial).kind
    }

    /// The attributes of a node. It takes no memory.
    pub fn attrs(&self, serial: u32) -> &Attrs
        requires { IsSome (node_at self.now.nodes serial) }
        ensures { Some result.now ≡ option_map (λ (n : AnyNode). n.attrs)
            (node_at self.now.nodes serial) }
    {
        &self.nodes.get(serial).unwrap().attrs
    }

    // What is read most of a node.
    fn row(&self, serial: u32) -> &OutlineRow
        requires { IsSome (node_at self.now.nodes serial) }
        ensures { (n : AnyNode) × (node_at self.now.nodes serial ≡ Some n)
            × IsRowOf self.now.nodes (place_in self.now.nodes serial) n result.now }
    {
        let place = self.nodes.position(serial).unwrap();
        self.outline.row(place).unwrap()
    }
}

// The document of these nodes.
fn doc_of(alloc: Global, nodes: &Nodes, next: u32) -> Result<Doc, AllocError>
    ensures { IfOk result (λ doc. doc ≡ record { nodes = nodes.now; next = next }) }
{
    let mut doc = Doc::new(alloc, next);
    for node in nodes.iter() {
        doc.push(node.copy()?)?;
    }
    Ok(doc)
}

// The tree of a document.
fn made(alloc: Global, doc: Doc) -> Result<Tree, AllocError>
    requires { IsValid doc }
    ensures { IfOk result (λ tree. tree ≡ doc) }
{
    let next = doc.next();
    let references = references_of(&doc);
    let table = ids_of(alloc, &doc)?;
    let ids = Rc::new(alloc, table)?;
    let nodes = Nodes::of(alloc, doc.into_nodes())?;
    let families = Kin::of(alloc, &nodes)?;
    let mut outline = Outline::new(alloc);
    outline.reserve(nodes.len())?;
    outline.refresh(&nodes, &families);
    let kin = Rc::new(alloc, families)?;
    Ok(Tree {
        nodes,
        next,
        kin,
        ids,
        references,
        outline,
        alloc,
    })
}

// The table from the ids of a document to their nodes' serials.
fn ids_of(alloc: Global, doc: &Doc) -> Result<Ids, AllocError>
    requires { IsValid doc.now }
    ensures { IfOk result (λ table. IsTableOf table doc.now.nodes) }
{
    let mut ids = Ids::with_room(alloc, doc.len())?;
    for node in doc.nodes() {
        note_node(&mut ids, node)?;
    }
    Ok(ids)
}

// How many items of a document refer to an element, an event or an access key.
fn references_of(doc: &Doc) -> usize
    requires { references doc.now.nodes ≤ REFERENCES }
    ensures { result ≡ references doc.now.nodes }
{
    let mut count = 0;
    for node in doc.nodes() {
        count += references_in(&node.attrs);
    }
    count
}
