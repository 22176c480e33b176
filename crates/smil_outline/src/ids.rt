//! The ids of an outline's nodes.

ghost use Rattle.std.specs.Prelude.{◌≡◌, ℕ, List, [], ◌||◌, bytes_eq, IfOk, OnOk, OnErr};
ghost use Rattle.smil_outline.specs.Branches.{is_among_ids};

use std::alloc::{AllocError, Global};
use std::collections::HashSet;
use std::marker::Model;

/// How many ids there is room for at first.
const ROOM: usize = 64;

/// Ids, each once, which are found by their hash.
#[derive(Drop)]
pub struct Ids {
    ids: HashSet<Vec<u8>>,
}

impl Model for Ids {
    ghost use Rattle.std.specs.Prelude.{List, ℕ, map};

    ghost Value = { List (List ℕ) };

    ghost view = { λ a. map (λ id. id.items) a.ids.keys };
}

impl Ids {
    /// No ids, with room for 64; unless memory runs out.
    pub fn new(alloc: Global) -> Result<Ids, AllocError>
        ensures { IfOk result (λ ids. ids ≡ []) }
    {
        Ok(Ids {
            ids: HashSet::with_capacity(alloc, ROOM)?,
        })
    }

    /// Whether this id is among them.
    pub fn has(&self, id: &[u8]) -> bool
        ensures { result ≡ is_among_ids self.now id.now }
    {
        self.ids.contains(id)
    }

    /// Puts in an id; one that is there already stays, once. Where memory runs out the ids are as
    /// before.
    pub fn put(&mut self, id: Vec<u8>) -> Result<(), AllocError>
        ensures ok { OnOk result ((other : List ℕ) → is_among_ids self.new other
            ≡ (is_among_ids self.old other || bytes_eq id.items other)) }
        ensures err { OnErr result (self.new ≡ self.old) }
    {
        self.ids.insert(id)?;
        Ok(())
    }
}
