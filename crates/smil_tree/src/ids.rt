//! The table from ids to serials.

ghost use Rattle.std.specs.Prelude.{◌≡◌, ℕ, List, [], None, Some, IfOk, OnOk, OnErr, if◌then◌else◌};
ghost use Rattle.std.specs.Str.{bytes_eq};
ghost use Rattle.std.specs.Map.{lookup};
ghost use Rattle.smil_tree.specs.TreeFields.{bears};

use indexmap::IndexMap;
use smil_model::{Duplicate, Node};
use std::alloc::{AllocError, Global};
use std::marker::Model;

/// A table from ids to serials, seen as its pairs, which are found by their ids.
#[derive(Drop)]
pub struct Ids {
    serials: IndexMap<Vec<u8>, u32>,
    alloc: Global,
}

impl Model for Ids {
    ghost use Rattle.std.specs.Prelude.{List, ℕ, map};

    ghost Value = { List (List ℕ × ℕ) };

    ghost view = { λ a. map (λ e. (e.0.items, e.1)) a.serials.entries };
}

impl Duplicate for Ids {
    fn copy(&self) -> Result<Self, AllocError> {
        Ok(Ids {
            serials: self.serials.clone()?,
            alloc: self.alloc,
        })
    }
}

impl Ids {
    /// No ids. It takes no memory.
    pub fn new(alloc: Global) -> Ids
        ensures { result ≡ [] }
    {
        Ids {
            serials: IndexMap::new(alloc),
            alloc,
        }
    }

    /// No ids, with room for so many; unless memory runs out.
    pub fn with_room(alloc: Global, room: usize) -> Result<Ids, AllocError>
        ensures { IfOk result (λ ids. ids ≡ []) }
    {
        Ok(Ids {
            serials: IndexMap::with_capacity(alloc, room)?,
            alloc,
        })
    }

    /// The serial that an id leads to; None exactly where the table does not have the id. It takes
    /// no memory.
    pub fn get(&self, id: &[u8]) -> Option<u32>
        ensures { result ≡ lookup (bytes_eq id.now) self.now }
    {
        self.serials.get(id).copied()
    }

    /// Leads an id to a serial. Where memory runs out the table is as before.
    pub fn note(&mut self, id: &[u8], serial: u32) -> Result<(), AllocError>
        ensures ok { OnOk result ((q : List ℕ)
            → lookup (bytes_eq q) self.new
            ≡ (if bytes_eq id.now q then Some serial else lookup (bytes_eq q) self.old)) }
        ensures err { OnErr result (self.new ≡ self.old) }
    {
        let key = Vec::from_slice(self.alloc, id)?;
        self.serials.insert(key, serial)?;
        Ok(())
    }

    /// Takes an id out of the table. It takes no memory.
    pub fn forget(&mut self, id: &[u8])
        ensures { (q : List ℕ) → lookup (bytes_eq q) self.new
            ≡ (if bytes_eq id.now q then None else lookup (bytes_eq q) self.old) }
    {
        self.serials.swap_remove(id);
    }
}

/// Leads the id of a node, if it has one, to its serial. Where memory runs out the table is as
/// before.
pub fn note_node(ids: &mut Ids, node: &Node) -> Result<(), AllocError>
    ensures ok { OnOk result ((q : List ℕ)
        → lookup (bytes_eq q) ids.new ≡ (if bears q node.now then Some node.now.serial else lookup
        (bytes_eq q) ids.old)) }
    ensures err { OnErr result (ids.new ≡ ids.old) }
{
    match &node.attrs.id {
        Some(id) => ids.note(id.slice(), node.serial),
        None => Ok(()),
    }
}

/// Takes the id of a node, if it has one, out of the table. It takes no memory.
pub fn forget_node(ids: &mut Ids, node: &Node)
    ensures { (q : List ℕ) → lookup (bytes_eq q) ids.new
        ≡ (if bears q node.now then None else lookup (bytes_eq q) ids.old) }
{
    if let Some(id) = &node.attrs.id {
        ids.forget(id.slice());
    }
}
