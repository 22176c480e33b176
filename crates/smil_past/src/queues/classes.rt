//! The priority classes of the nodes of a document.

ghost use Rattle.std.specs.Prelude.{◌≡◌, ℕ, ◌≤◌, ◌==◌, true, length, IsSome, IfOk, unwrap_or};
ghost use Rattle.std.specs.List.{position};
ghost use Rattle.smil_model.specs.document.Document.{has_kind, is_class_kind, node_at};
ghost use Rattle.smil_model.specs.happening.Queue.{class_facts, class_of as class_node, place_of};
ghost use Rattle.smil_past.specs.Queues.{classes_in};

use smil_model::{Act, Class, position_in};
use smil_tree::Tree;
use std::alloc::{AllocError, Global};

/// The classes of all nodes, in document order.
pub fn classes_of(alloc: Global, tree: &Tree) -> Result<Vec<Class>, AllocError>
    ensures { IfOk result (λ classes. classes.items ≡ classes_in tree.now.nodes) }
{
    tree.valid();
    let mut classes = Vec::with_capacity(alloc, tree.len())?;
    for node in tree.nodes() {
        classes.push(class_of(tree, node.serial))?;
    }
    Ok(classes)
}

/// The class of a node, by the classes of all.
pub fn class_at(classes: &[Class], tree: &Tree, who: u32) -> Class
    requires known { IsSome (node_at tree.now.nodes who) }
    requires classes { classes.now ≡ classes_in tree.now.nodes }
    ensures { result ≡ class_facts tree.now.nodes who }
{
    let place = tree.position(who).unwrap();
    classes[place]
}

// The class of a node.
fn class_of(tree: &Tree, serial: u32) -> Class
    requires { IsSome (node_at tree.now.nodes serial) }
    ensures { result ≡ class_facts tree.now.nodes serial }
{
    match tree.class_of(serial) {
        Some(class) => class_by(tree, class),
        None => Class {
            rank: 0,
            peers: Act::Stop,
            higher: Act::Pause,
            lower: Act::Defer,
        },
    }
}

// The class of a node that is in this priorityClass.
fn class_by(tree: &Tree, class: u32) -> Class
    requires known { IsSome (node_at tree.now.nodes class) }
    requires kind { has_kind is_class_kind (node_at tree.now.nodes class) ≡ true }
    ensures { (s : ℕ) → class_node tree.now.nodes s ≡ node_at tree.now.nodes class → result
        ≡ class_facts tree.now.nodes s }
{
    let attrs = tree.attrs(class);
    Class {
        rank: place_among_classes(tree, class),
        peers: attrs.peers.unwrap_or(Act::Stop),
        higher: attrs.higher.unwrap_or(Act::Pause),
        lower: attrs.lower.unwrap_or(Act::Defer),
    }
}

// The place of a priorityClass among those of its excl, from 0.
fn place_among_classes(tree: &Tree, class: u32) -> u32
    requires known { IsSome (node_at tree.now.nodes class) }
    requires kind { has_kind is_class_kind (node_at tree.now.nodes class) ≡ true }
    ensures { result ≡ place_of tree.now.nodes (node_at tree.now.nodes class) }
{
    tree.valid();
    let excl = tree.parent(class).unwrap();
    place_in(tree.children(excl), class) as u32
}

// The place of a serial in a list, and 0 where it isn't there.
fn place_in(list: &[u32], serial: u32) -> usize
    ensures place { result ≡ unwrap_or (position (λ other. other == serial) list.now) 0 }
    ensures bound { result ≤ length list.now }
{
    match position_in(list, serial) {
        Some(place) => place,
        None => 0,
    }
}
