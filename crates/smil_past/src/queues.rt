//! The queues of a document's excls.

ghost use Rattle.std.specs.Prelude.{◌≡◌, List, [], map, true, IfOk, IsSome, slice_get};
ghost use Rattle.smil_model.specs.declared.diary.LogEntry.{LogEntry as AnyLogEntry};
ghost use Rattle.smil_model.specs.document.Document.{has_kind, is_excl_kind, node_at, serial_of};
ghost use Rattle.smil_model.specs.diary.Diary.{History};
ghost use Rattle.smil_model.specs.happening.Queue.{class_facts, playing_child, queue_of};
ghost use Rattle.smil_model.specs.diary.Diary.{up_to, with_entry};
ghost use Rattle.smil_past.specs.Queues.{AreQueuesOf, IsPastOf, emptied, kept_queues, unplayed};

mod classes;
mod lines;
mod playing;

use classes::{class_at, classes_of};
use lines::{empty_queues, first_at, take_in};
pub use playing::excl_above;
use playing::{first_playing, none_playing, play_on};
use smil_excl::Queue;
use smil_instance_rows::copy_each;
use smil_model::{Class, Duplicate, Entry};
use smil_tree::Tree;
use std::alloc::{AllocError, Global};
use std::marker::Model;

/// The queues of a document's excls, the children that play in them, and the classes of their
/// children; seen as a queue, the children that play and a class for each node, in document order.
/// A node that is no excl has the empty queue, as long as an excl alone pauses and defers, and no
/// child that plays. The children that play in an excl stand in child order: each has its place in
/// the document as its rank.
pub struct Queues {
    queues: Vec<Queue>,
    playing: Vec<Queue>,
    classes: Vec<Class>,
}

impl Drop for Queues {
    // Dropped by a call of its own, not field by field in each function that drops one.
    fn drop(self) {
        let Queues {
            queues: _queues,
            playing: _playing,
            classes: _classes,
        } = self;
    }
}

impl Model for Queues {
    ghost use Rattle.smil_past.specs.Queues.{KeptQueues};

    ghost Value = { KeptQueues };

    ghost view = { λ a. record {
      queues = a.queues.items;
      playing = a.playing.items;
      classes = a.classes.items;
    } };
}

impl Duplicate for Queues {
    fn copy(&self) -> Result<Self, AllocError> {
        let alloc = *self.classes.allocator();
        Ok(Queues {
            queues: copy_each(alloc, &self.queues)?,
            playing: copy_each(alloc, &self.playing)?,
            classes: Vec::from_slice(alloc, &self.classes)?,
        })
    }
}

impl Queues {
    /// The queues of a document to which nothing has happened yet, unless memory runs out: all are
    /// empty, each with room for all time children, and no child plays.
    pub fn new(alloc: Global, tree: &Tree) -> Result<Queues, AllocError>
        ensures { (log : List AnyLogEntry)
            → IfOk result (λ queues. queues ≡ kept_queues (unplayed tree.now.nodes log)) }
    {
        Ok(Queues {
            queues: empty_queues(alloc, tree)?,
            playing: none_playing(alloc, tree)?,
            classes: classes_of(alloc, tree)?,
        })
    }

    /// Takes in an entry, which is lawful after what has happened so far, and before which its
    /// element may stand in the queue of its time parent, or doesn't. It takes no memory, and
    /// touches the queue of the entry's element, that of its time parent where it may stand there,
    /// and the children that play there.
    pub(crate) fn follow(&mut self, tree: &Tree, entry: Entry, waits: bool)
        requires { (h : History) × IsPastOf self.old tree.now entry waits h }
        ensures { (h : History) → IsPastOf self.old tree.now entry waits h
            → self.new ≡ kept_queues (with_entry h entry) }
    {
        take_in(&mut self.queues, &self.classes, tree, entry.step, waits);
        play_on(&mut self.playing, tree, entry.step);
    }

    /// Lets the queues be those of the document to which nothing has happened yet. It takes no
    /// memory, and a step for each node and for each child in a queue.
    pub fn reset(&mut self)
        ensures { (h k : History) → self.old ≡ kept_queues h → k.nodes ≡ h.nodes
            → self.new ≡ kept_queues (up_to k []) }
    {
        clear_each(&mut self.queues);
        clear_each(&mut self.playing);
    }

    /// The next child of the queue of an element; None where it is empty, or there is no such
    /// element. It takes no memory.
    pub fn first(&self, tree: &Tree, excl: u32) -> Option<u32>
        requires known { IsSome (node_at tree.now.nodes excl) }
        requires kept { (h : History) × AreQueuesOf self.now tree.now h }
        ensures { (h : History) → AreQueuesOf self.now tree.now h
            → result ≡ slice_get (queue_of h excl) 0 }
    {
        first_at(&self.queues, tree, excl)
    }

    /// The child that plays in an excl: the first of its time children that is active and not
    /// paused; None exactly where there is none. It takes no memory, and a fixed number of steps.
    pub fn playing(&self, tree: &Tree, excl: u32) -> Option<u32>
        requires { has_kind is_excl_kind (node_at tree.now.nodes excl) ≡ true }
        ensures { (h : History) → AreQueuesOf self.now tree.now h
            → result ≡ serial_of (playing_child h excl) }
    {
        first_playing(&self.playing, tree, excl)
    }

    /// The priority class of a node. It takes no memory.
    pub fn class(&self, tree: &Tree, who: u32) -> Class
        requires known { IsSome (node_at tree.now.nodes who) }
        requires kept { (h : History) × AreQueuesOf self.now tree.now h }
        ensures { result ≡ class_facts tree.now.nodes who }
    {
        class_at(&self.classes, tree, who)
    }
}

// Takes all children out of each queue.
fn clear_each(queues: &mut [Queue])
    ensures { queues.new ≡ map emptied queues.old }
{
    for queue in queues.iter_mut() {
        queue.clear();
    }
}
