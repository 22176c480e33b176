//! The nodes of an outline, and what is asked of them at each line.

ghost use Rattle.std.specs.Prelude.{ℕ, ◌≡◌, ◌≤◌, ◌+◌, [], ◌∷◌, ◌++◌, length, unwrap_or, not, ◌||◌, ◌==◌, nat_lt, IfOk, OnOk, OnErr};
ghost use Rattle.smil_model.specs.document.Valid.{references as all_references, references_among};
ghost use Rattle.smil_grammar.specs.Outlines.{has_id as has_id_among};
ghost use Rattle.smil_outline.specs.Branches.{has_place, has_serial};

use super::ids::Ids;
use smil_model::{
    Attrs, Bytes, Doc, Node, REFERENCES, SerialTable, references_in, references_in_list,
};
use std::alloc::{AllocError, Global};
use std::marker::Model;

/// How many nodes there is room for at first.
const ROOM: usize = 64;

/// The nodes so far, seen as their list.
#[derive(Drop)]
pub struct Nodes {
    alloc: Global,
    nodes: Vec<Node>,
    ids: Ids,
    /// The places of the nodes, by serial, where they are kept.
    places: Option<SerialTable>,
    references: usize,
}

impl Model for Nodes {
    ghost use Rattle.std.specs.Prelude.{List};
    ghost use Rattle.smil_model.specs.declared.document.Node.{Node};
    ghost use Rattle.smil_outline.specs.Branches.{IsNoted};

    ghost Value = { List Node };

    ghost view = { λ a. a.nodes.items };

    ghost invariant = { λ a. IsNoted a.nodes.items a.ids a.places a.references };
}

// A node's id, which is empty where it has none.
#[inline(never)]
fn id_of(node: &Node) -> &[u8]
    ensures { result.now ≡ unwrap_or node.now.attrs.id [] }
{
    match &node.attrs.id {
        Some(id) => id.slice(),
        None => b"",
    }
}

// Whether a serial has a place, as each has where no places are kept.
fn has_place(places: &Option<SerialTable>, serial: u32) -> bool
    ensures { result ≡ has_place places.now serial }
{
    match places {
        Some(places) => places.get(serial).is_some(),
        None => true,
    }
}

// Gives a serial a place, where places are kept. Where memory runs out they are as before.
#[tactic(auto, using(crate::proofs::SerialPlaces::placed))]
fn put_place(places: &mut Option<SerialTable>, serial: u32, place: usize) -> Result<(), AllocError>
    ensures ok { OnOk result ((other : ℕ) → has_place places.new other
        ≡ (has_place places.old other || serial == other)) }
    ensures err { OnErr result (places.new ≡ places.old) }
{
    match places {
        Some(places) => places.put(serial, place),
        None => Ok(()),
    }
}

// Whether a node has this serial.
#[cold]
#[inline(never)]
fn is_numbered(nodes: &[Node], serial: u32) -> bool
    ensures { result ≡ has_serial nodes.now serial }
{
    nodes.iter().any(|node| node.serial == serial)
}

impl Nodes {
    /// No nodes, with room for 64; unless memory runs out.
    pub fn new(alloc: Global) -> Result<Nodes, AllocError>
        ensures { IfOk result (λ nodes. nodes ≡ []) }
    {
        Ok(Nodes {
            alloc,
            nodes: Vec::with_capacity(alloc, ROOM)?,
            ids: Ids::new(alloc)?,
            places: None,
            references: 0,
        })
    }

    /// Keeps the places of the nodes from now on, so that serials are found by them.
    pub fn keep_places(&mut self)
        requires { self.old ≡ [] }
        ensures { self.new ≡ self.old }
    {
        self.places = Some(SerialTable::new(self.alloc));
    }

    /// How many nodes there are.
    pub fn len(&self) -> usize
        ensures { result ≡ length self.now }
    {
        self.nodes.len()
    }

    /// Whether a node with these attributes leaves at most 32,000 items that are neither offsets
    /// nor `indefinite`.
    pub fn has_room(&self, attrs: &Attrs) -> bool
        ensures { result ≡ not (nat_lt REFERENCES
            (all_references self.now + references_among attrs.now)) }
    {
        let left = REFERENCES - self.references;
        let begin = references_in_list(&attrs.begin);
        begin <= left && references_in_list(&attrs.end) <= left - begin
    }

    /// Whether a node has this id.
    pub fn has_id(&self, id: &Option<Bytes>) -> bool
        ensures { result ≡ has_id_among self.now id.now }
    {
        match id {
            Some(id) => self.ids.has(id.slice()),
            None => false,
        }
    }

    /// Whether a node has this serial. One without a place is not looked for.
    pub fn has_serial(&self, serial: u32) -> bool
        ensures { result ≡ has_serial self.now serial }
    {
        has_place(&self.places, serial) && is_numbered(&self.nodes, serial)
    }

    /// Appends a node. After a refusal the nodes are as before.
    #[tactic(auto, using(crate::proofs::SerialPlaces::numbered_with))]
    #[inline(never)]
    pub fn push(&mut self, node: Node) -> Result<(), AllocError>
        requires light { all_references self.old + references_among node.attrs ≤ REFERENCES }
        ensures ok { OnOk result (self.new ≡ self.old ++ node ∷ []) }
        ensures err { OnErr result (self.new ≡ self.old) }
    {
        let more = references_in(&node.attrs);
        let id = Vec::from_slice(self.alloc, id_of(&node))?;
        let len = self.nodes.len();
        put_place(&mut self.places, node.serial, len)?;
        self.nodes.push(node)?;
        if self.ids.put(id).is_err() {
            self.nodes.truncate(len);
            return Err(AllocError);
        }
        self.references += more;
        Ok(())
    }

    /// The document of these nodes, which are moved into it, with this next serial.
    pub fn into_doc(self, next: u32) -> Result<Doc, AllocError>
        ensures nodes { IfOk result (λ doc. doc.nodes ≡ self) }
        ensures next { IfOk result (λ doc. doc.next ≡ next) }
    {
        let Nodes { alloc, nodes, .. } = self;
        let mut doc = Doc::new(alloc, next);
        for node in nodes {
            doc.push(node)?;
        }
        Ok(doc)
    }
}
