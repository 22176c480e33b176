//! The children that play in the excls of a document.

ghost use Rattle.std.specs.Prelude.{◌≡◌, ℕ, Bool, true, false, length, IfOk, IfSome, IsSome, filter, slice_get, if◌then◌else◌};
ghost use Rattle.smil_model.specs.document.Document.{has_kind, is_excl_kind, node_at, serial_of, serials, time_children, time_parent};
ghost use Rattle.smil_model.specs.diary.Diary.{History};
ghost use Rattle.smil_model.specs.happening.Queue.{is_playing_by};
ghost use Rattle.smil_past.specs.Queues.{IsIdle, MayPlay, excl_in, excl_place as excl_place_of, playing_lines, plays_after, with_play, without_play};

use smil_excl::Queue;
use smil_model::{Kind, Node, Step};
use smil_tree::Tree;
use std::alloc::{AllocError, Global};

/// The children that play in a document to which nothing has happened yet: none, with room for all
/// time children of each excl.
pub fn none_playing(alloc: Global, tree: &Tree) -> Result<Vec<Queue>, AllocError>
    ensures { IfOk result (λ playing. playing.items ≡ playing_lines tree.now.nodes
        (λ serial. false)) }
{
    let mut playing = Vec::with_capacity(alloc, tree.len())?;
    for node in tree.nodes() {
        playing.push(Queue::new(alloc, room_in(tree, node))?)?;
    }
    Ok(playing)
}

// How many children may play in a node: the time children of an excl, and none of another.
fn room_in(tree: &Tree, node: &Node) -> usize
    ensures { result ≡ (if is_excl_kind node.now.kind
        then length (time_children tree.now.nodes node.now.serial) else 0) }
{
    if is_excl(node.kind) {
        tree.time_children(node.serial).len()
    } else {
        0
    }
}

/// The first child that plays in an excl.
pub fn first_playing(playing: &[Queue], tree: &Tree, excl: u32) -> Option<u32>
    requires { has_kind is_excl_kind (node_at tree.now.nodes excl) ≡ true }
    ensures { (plays : ℕ → Bool) → playing.now ≡ playing_lines tree.now.nodes plays → result
        ≡ slice_get (filter plays (serials (time_children tree.now.nodes excl))) 0 }
{
    tree.valid();
    let place = tree.position(excl).unwrap();
    playing.get(place)?.first()
}

/// Takes in a step, which is lawful after what has happened so far.
pub fn play_on(playing: &mut [Queue], tree: &Tree, step: Step)
    requires { (h : History) × MayPlay playing.old tree.now.nodes step h }
    ensures { (h : History) → MayPlay playing.old tree.now.nodes step h → playing.new
        ≡ playing_lines tree.now.nodes (plays_after (is_playing_by h.diary) step) }
{
    match step {
        Step::Began { who, .. } | Step::Resumed { who } => enter(playing, tree, who),
        Step::Paused { who } | Step::Ended { who, .. } | Step::Cut { who } => {
            leave(playing, tree, who);
        }
        Step::Repeated { .. } | Step::Deferred { .. } => {}
        Step::Passed { .. } | Step::Logged { .. } => {}
    }
}

// Puts an element that doesn't play among those that play in its excl.
fn enter(playing: &mut [Queue], tree: &Tree, who: u32)
    requires { IsIdle playing.old tree.now.nodes who }
    ensures { (plays : ℕ → Bool) → playing.old ≡ playing_lines tree.now.nodes plays
        → plays who ≡ false → playing.new ≡ playing_lines tree.now.nodes (with_play who plays) }
{
    tree.valid();
    if let Some(place) = excl_place(tree, who) {
        playing[place].defer(who, tree.position(who).unwrap() as u32);
    }
}

// Takes an element out of those that play in its excl.
fn leave(playing: &mut [Queue], tree: &Tree, who: u32)
    requires all { length playing.old ≡ length tree.now.nodes }
    requires known { IsSome (node_at tree.now.nodes who) }
    ensures { (plays : ℕ → Bool) → playing.old ≡ playing_lines tree.now.nodes plays
        → playing.new ≡ playing_lines tree.now.nodes (without_play who plays) }
{
    tree.valid();
    if let Some(place) = excl_place(tree, who) {
        playing[place].leave(who);
    }
}

// The place of the time parent of a node, where it is an excl.
#[inline(always)]
fn excl_place(tree: &Tree, who: u32) -> Option<usize>
    requires { IsSome (node_at tree.now.nodes who) }
    ensures { result ≡ excl_place_of tree.now.nodes who }
{
    tree.position(excl_above(tree, who)?)
}

/// The serial of the time parent of a node where it is an excl; None where it is none. It takes no
/// memory.
pub fn excl_above(tree: &Tree, who: u32) -> Option<u32>
    requires { IsSome (node_at tree.now.nodes who) }
    ensures above { result ≡ serial_of (excl_in (time_parent tree.now.nodes who)) }
    ensures kind { IfSome result (λ excl. has_kind is_excl_kind (node_at tree.now.nodes excl)
        ≡ true) }
{
    tree.valid();
    let parent = tree.time_parent(who)?;
    if is_excl(tree.kind(parent)) {
        Some(parent)
    } else {
        None
    }
}

// Whether a kind is an excl.
fn is_excl(kind: Kind) -> bool
    ensures { result ≡ is_excl_kind kind }
{
    matches!(kind, Kind::Excl)
}
