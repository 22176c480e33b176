//! What is due, as an ordered set of keys.

ghost use Rattle.std.specs.Prelude.{◌≡◌, ◌↔◌, ℕ, List, None, OnOk, OnErr, IfSome};
ghost use Rattle.std.specs.List.{All};
ghost use Rattle.std.specs.FinSet as set;
ghost use Rattle.smil_model.specs.declared.happening.Key.{Key};
ghost use Rattle.smil_model.specs.happening.Keys.{least_key};
ghost use Rattle.smil_due.specs.Laws.{HasSerial, IsLeast};

use super::due::Due;
use smil_model::{Duplicate, Key};
use std::alloc::{AllocError, Global};
use std::collections::BTreeSet;
use std::marker::Model;

/// Keys, each once, in the order in which they happen; seen as their set.
#[derive(Drop)]
pub struct DueQueue {
    due: BTreeSet<Due>,
}

impl Model for DueQueue {
    ghost use Rattle.std.specs.FinSet as set;
    ghost use Rattle.smil_model.specs.contracts.happening.Key as key;
    ghost use Rattle.smil_due.specs.Order.{key_cmp};

    ghost Value = { set.FinSet key_cmp };

    ghost coded = { set.code (key.the_row).coded };

    ghost view = { λ queue. set.from_list queue.due.keys };
}

impl DueQueue {
    /// An empty queue. It takes no memory.
    pub fn new(alloc: Global) -> Self
        ensures { result ≡ set.empty }
    {
        DueQueue {
            due: BTreeSet::new(alloc),
        }
    }

    /// Puts in a key; one that is there already stays, once. Where memory runs out the queue is as
    /// before.
    pub fn put(&mut self, key: Key) -> Result<(), AllocError>
        ensures ok { OnOk result (self.new ≡ set.insert self.old key) }
        ensures err { OnErr result (self.new ≡ self.old) }
    {
        self.due.insert(Due { key })?;
        Ok(())
    }

    /// Takes out this key and no other; false exactly where it isn't there. It takes no memory.
    pub fn drop_key(&mut self, key: Key) -> bool
        ensures was { result ≡ set.contains self.old key }
        ensures rest { self.new ≡ set.remove self.old key }
    {
        self.due.remove(&Due { key })
    }

    /// The least key, which happens first; None exactly where the queue is empty. It takes no
    /// memory.
    pub fn least(&self) -> Option<Key>
        ensures none { (result ≡ None) ↔ (self.now ≡ set.empty) }
        ensures least { IfSome result (IsLeast self.now) }
        ensures of_document { (serial_at : ℕ → ℕ) (keys : List Key) → All (HasSerial serial_at) keys
            → self.now ≡ set.from_list keys → result ≡ least_key keys }
    {
        self.due.first().map(|due| due.key)
    }
}

impl Duplicate for DueQueue {
    fn copy(&self) -> Result<Self, AllocError> {
        Ok(DueQueue {
            due: self.due.clone()?,
        })
    }
}
