//! The queue of an excl's paused and deferred children.

ghost use Rattle.std.specs.Prelude.{◌≡◌, ◌<◌, ◌≤◌, nat_le, nat_lt, [], drop, length, slice_get, option_map, IfOk, IfSome, vec_len, vec_capacity};
ghost use Rattle.std.specs.List.{position};
ghost use Rattle.smil_excl.specs.QueueState.{QueueState, paused_before, deferred_after, without, holds};

use super::queued_child::QueuedChild;
use smil_model::Duplicate;
use std::alloc::{AllocError, Global};
use std::marker::Model;

/// The queue of an excl, seen as the children that it holds, the next one first, and the number
/// that it has room for.
#[derive(Drop)]
pub struct Queue {
    held: Vec<QueuedChild>,
    room: usize,
}

impl Model for Queue {
    ghost Value = { QueueState };

    ghost view = { λ q. record { held = q.held.items; room = q.room } };

    ghost invariant = { λ q. (vec_len q.held ≤ q.room) × (q.room ≤ vec_capacity q.held) };
}

impl Duplicate for Queue {
    fn copy(&self) -> Result<Self, AllocError> {
        let alloc = *self.held.allocator();
        if self.room == 0 {
            return Queue::new(alloc, 0);
        }
        let mut held = Vec::with_capacity(alloc, self.room)?;
        held.extend_from_slice(self.held.as_slice())?;
        Ok(Queue {
            held,
            room: self.room,
        })
    }
}

impl Queue {
    /// An empty queue with room for so many children, unless memory runs out.
    pub fn new(alloc: Global, room: usize) -> Result<Self, AllocError>
        ensures { IfOk result (λ queue. queue ≡ record { held = []; room = room }) }
    {
        Ok(Queue {
            held: Vec::with_capacity(alloc, room)?,
            room,
        })
    }

    /// Puts in a paused child, before all of its rank and those of later ones. There is room. It
    /// takes no memory. SMIL 3.0, "The excl element", the pause queue.
    pub fn pause(&mut self, who: u32, rank: u32)
        requires { length self.old.held < self.old.room }
        ensures { self.new ≡ record {
          held = paused_before (record { who = who; rank = rank })
              self.old.held;
          room = self.old.room;
        } }
    {
        let place = first_not_above(&self.held, rank).unwrap_or(self.held.len());
        self.held.insert(place, QueuedChild { who, rank }).unwrap();
    }

    /// Puts in a deferred child, behind all of its rank and before those of later ones. There is
    /// room. It takes no memory. SMIL 3.0, "The excl element", the pause queue.
    pub fn defer(&mut self, who: u32, rank: u32)
        requires { length self.old.held < self.old.room }
        ensures { self.new ≡ record {
          held = deferred_after (record { who = who; rank = rank })
              self.old.held;
          room = self.old.room;
        } }
    {
        let place = first_below(&self.held, rank).unwrap_or(self.held.len());
        self.held.insert(place, QueuedChild { who, rank }).unwrap();
    }

    /// The next child; None exactly where the queue is empty. It takes no memory.
    pub fn first(&self) -> Option<u32>
        ensures { result ≡ option_map (λ first. first.who) (slice_get self.now.held 0) }
    {
        Some(self.held.first()?.who)
    }

    /// Takes out all children. It takes no memory.
    pub fn clear(&mut self)
        ensures { self.new ≡ record { held = []; room = self.old.room } }
    {
        self.held.clear();
    }

    /// Takes out the next child; None exactly where the queue is empty. It takes no memory.
    pub fn take_first(&mut self) -> Option<u32>
        ensures first { result ≡ option_map (λ first. first.who) (slice_get self.old.held 0) }
        ensures rest { self.new ≡ record { held = drop 1 self.old.held; room = self.old.room } }
    {
        if self.held.is_empty() {
            return None;
        }
        Some(self.held.remove(0).who)
    }

    /// Takes out this child; false exactly where it isn't in the queue. It takes no memory.
    pub fn leave(&mut self, who: u32) -> bool
        ensures was { result ≡ holds who self.old.held }
        ensures rest { self.new
            ≡ record { held = without who self.old.held; room = self.old.room } }
    {
        let was = self.holds(who);
        self.held.retain(|other| other.who != who);
        was
    }

    // Whether the queue holds this child.
    fn holds(&self, who: u32) -> bool
        ensures { result ≡ holds who self.now.held }
    {
        self.held.iter().any(|other| other.who == who)
    }
}

// The place of the first child of this rank or a later one.
fn first_not_above(held: &[QueuedChild], rank: u32) -> Option<usize>
    ensures place { result ≡ position (λ other. nat_le rank other.rank) held.now }
    ensures bound { IfSome result (λ place. place < length held.now) }
{
    held.iter().position(|other| rank <= other.rank)
}

// The place of the first child of a rank later than this one.
fn first_below(held: &[QueuedChild], rank: u32) -> Option<usize>
    ensures place { result ≡ position (λ other. nat_lt rank other.rank) held.now }
    ensures bound { IfSome result (λ place. place < length held.now) }
{
    held.iter().position(|other| rank < other.rank)
}
