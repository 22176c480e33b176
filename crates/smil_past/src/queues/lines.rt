//! The queues of all nodes of a document, in document order.

ghost use Rattle.std.specs.Prelude.{◌≡◌, ℕ, List, [], false, length, IsSome, IfOk, slice_get};
ghost use Rattle.smil_model.specs.document.Document.{node_at, time_children};
ghost use Rattle.smil_model.specs.diary.Diary.{History};
ghost use Rattle.smil_model.specs.happening.Queue.{queue_of, rank as rank_in};
ghost use Rattle.smil_past.specs.Queues.{AreTurned, AreWithout, HasRoom, MayTakeIn, classes_in, with_deferred, without_children, without_child, lines, with_paused, queues_after};

use super::classes::class_at;
use smil_excl::Queue;
use smil_model::{Class, Step};
use smil_tree::Tree;
use std::alloc::{AllocError, Global};

/// The queues of a document to which nothing has happened yet.
pub fn empty_queues(alloc: Global, tree: &Tree) -> Result<Vec<Queue>, AllocError>
    ensures { IfOk result (λ queues. queues.items ≡ lines tree.now.nodes (λ serial. [])) }
{
    let mut queues = Vec::with_capacity(alloc, tree.len())?;
    for node in tree.nodes() {
        queues.push(Queue::new(alloc, time_children_of(tree, node.serial))?)?;
    }
    Ok(queues)
}

// How many time children a node has.
fn time_children_of(tree: &Tree, serial: u32) -> usize
    ensures { result ≡ length (time_children tree.now.nodes serial) }
{
    tree.time_children(serial).len()
}

/// The next child of the queue of a node.
pub fn first_at(queues: &[Queue], tree: &Tree, who: u32) -> Option<u32>
    requires known { IsSome (node_at tree.now.nodes who) }
    requires all { length queues.now ≡ length tree.now.nodes }
    ensures { (queue : ℕ → List ℕ) → queues.now ≡ lines tree.now.nodes queue
        → result ≡ slice_get (queue who) 0 }
{
    let place = tree.position(who).unwrap();
    queues[place].first()
}

/// Takes in a step, which is lawful after what has happened so far, and before which its element
/// may stand in the queue of its time parent, or doesn't.
pub fn take_in(queues: &mut [Queue], classes: &[Class], tree: &Tree, step: Step, waits: bool)
    requires classes { classes.now ≡ classes_in tree.now.nodes }
    requires may { (h : History) × MayTakeIn queues.old tree.now.nodes step waits h }
    ensures { (h : History) → MayTakeIn queues.old tree.now.nodes step waits h → queues.new
        ≡ lines tree.now.nodes (queues_after tree.now.nodes (queue_of h) step) }
{
    match step {
        Step::Began { who, .. } => {
            empty(queues, tree, who);
            leave(queues, tree, who, waits);
        }
        Step::Repeated { who, .. } => empty(queues, tree, who),
        Step::Paused { who } => pause(queues, tree, who, class_at(classes, tree, who).rank),
        Step::Deferred { who, .. } => {
            let rank = class_at(classes, tree, who).rank;
            leave(queues, tree, who, waits);
            defer(queues, tree, who, rank);
        }
        Step::Resumed { who } => leave(queues, tree, who, true),
        Step::Ended { who, .. } | Step::Cut { who } => leave(queues, tree, who, waits),
        Step::Passed { .. } | Step::Logged { .. } => {}
    }
}

// Takes all children out of the queue of an element.
fn empty(queues: &mut [Queue], tree: &Tree, who: u32)
    requires all { length queues.old ≡ length tree.now.nodes }
    ensures { AreTurned queues.old queues.new tree.now.nodes (without_children who) }
{
    tree.valid();
    if let Some(place) = tree.position(who) {
        queues[place].clear();
    }
}

// Takes an element out of the queue of its time parent, where it may stand there.
fn leave(queues: &mut [Queue], tree: &Tree, who: u32, waits: bool)
    requires all { length queues.old ≡ length tree.now.nodes }
    requires known { IsSome (node_at tree.now.nodes who) }
    requires outside { waits ≡ false → AreWithout who queues.old }
    ensures { AreTurned queues.old queues.new tree.now.nodes (without_child tree.now.nodes who) }
{
    if !waits {
        return;
    }
    tree.valid();
    if let Some(place) = tree.parent_place(who) {
        queues[place].leave(who);
    }
}

// Puts a paused element into the queue of its time parent, in which there is room.
fn pause(queues: &mut [Queue], tree: &Tree, who: u32, rank: u32)
    requires known { IsSome (node_at tree.now.nodes who) }
    requires rank { rank ≡ rank_in tree.now.nodes who }
    requires room { HasRoom queues.old tree.now.nodes who }
    ensures { AreTurned queues.old queues.new tree.now.nodes (with_paused tree.now.nodes who) }
{
    tree.valid();
    if let Some(place) = tree.parent_place(who) {
        queues[place].pause(who, rank);
    }
}

// Puts a deferred element into the queue of its time parent, in which there is room.
fn defer(queues: &mut [Queue], tree: &Tree, who: u32, rank: u32)
    requires known { IsSome (node_at tree.now.nodes who) }
    requires rank { rank ≡ rank_in tree.now.nodes who }
    requires room { HasRoom queues.old tree.now.nodes who }
    ensures { AreTurned queues.old queues.new tree.now.nodes (with_deferred tree.now.nodes who) }
{
    tree.valid();
    if let Some(place) = tree.parent_place(who) {
        queues[place].defer(who, rank);
    }
}
