//! Whether two documents are alike in what a graph reads of them.

ghost use Rattle.std.specs.Prelude.{◌≡◌, ◌↔◌, IsTrue, option_map};
ghost use Rattle.smil_graph.specs.Reduced.{all_reduced, reduced, reduced_item, reduced_items};

use smil_duration::takes_implicit;
use smil_model::{Bytes, Edge, Item, Items, Kind, Node};
use smil_tree::Tree;

/// Whether two documents are the same in what a graph reads of them: the serials, parents, kinds
/// and ids of their nodes, whom and which keys their items name, and which simple durations are
/// implicit. It takes no memory, and time for the nodes and their items.
pub fn are_alike(before: &Tree, after: &Tree) -> bool
    ensures { IsTrue result ↔ (all_reduced before.now.nodes ≡ all_reduced after.now.nodes) }
{
    let mut left = after.nodes();
    for node in before.nodes() {
        let Some(other) = left.next() else {
            return false;
        };
        if !is_alike(node, other) {
            return false;
        }
    }
    left.next().is_none()
}

/// Whether two nodes are the same in what a graph reads of them, as `are_alike` says. It takes no
/// memory.
#[inline(always)]
pub fn is_alike(node: &Node, other: &Node) -> bool
    ensures { IsTrue result ↔ (reduced node.now ≡ reduced other.now) }
{
    node.serial == other.serial
        && node.parent == other.parent
        && is_same_kind(node.kind, other.kind)
        && takes_implicit(&node.attrs) == takes_implicit(&other.attrs)
        && is_same_id(&node.attrs.id, &other.attrs.id)
        && are_alike_stated(&node.attrs.begin, &other.attrs.begin)
        && are_alike_stated(&node.attrs.end, &other.attrs.end)
}

// Whether two kinds are the same.
#[inline(always)]
fn is_same_kind(one: Kind, other: Kind) -> bool
    ensures { IsTrue result ↔ (one ≡ other) }
{
    matches!(
        (one, other),
        (Kind::Par, Kind::Par)
            | (Kind::Seq, Kind::Seq)
            | (Kind::Excl, Kind::Excl)
            | (Kind::PriorityClass, Kind::PriorityClass)
            | (Kind::Img, Kind::Img)
            | (Kind::Text, Kind::Text)
            | (Kind::Brush, Kind::Brush)
            | (Kind::Audio, Kind::Audio)
            | (Kind::Video, Kind::Video)
            | (Kind::Animation, Kind::Animation)
            | (Kind::TextStream, Kind::TextStream)
            | (Kind::Ref, Kind::Ref)
            | (Kind::Set, Kind::Set)
    )
}

// Whether two ids are the same, or both absent.
#[inline(always)]
fn is_same_id(one: &Option<Bytes>, other: &Option<Bytes>) -> bool
    ensures { IsTrue result ↔ (one.now ≡ other.now) }
{
    match (one, other) {
        (None, None) => true,
        (Some(one), Some(other)) => one.slice() == other.slice(),
        _ => false,
    }
}

// Whether two lists of items are the same in what a graph reads of them, or both absent.
#[inline(always)]
fn are_alike_stated(one: &Option<Items>, other: &Option<Items>) -> bool
    ensures { IsTrue result
        ↔ (option_map reduced_items one.now ≡ option_map reduced_items other.now) }
{
    match (one, other) {
        (None, None) => true,
        (Some(one), Some(other)) => are_alike_items(one.slice(), other.slice()),
        _ => false,
    }
}

// Whether two lists of items are the same in what a graph reads of them.
#[inline(never)]
fn are_alike_items(ones: &[Item], others: &[Item]) -> bool
    ensures { IsTrue result ↔ (reduced_items ones.now ≡ reduced_items others.now) }
{
    let mut left = others.iter();
    for one in ones {
        let Some(other) = left.next() else {
            return false;
        };
        if !is_alike_item(one, other) {
            return false;
        }
    }
    left.next().is_none()
}

// Whether two items are the same in what a graph reads of them.
fn is_alike_item(one: &Item, other: &Item) -> bool
    ensures { IsTrue result ↔ (reduced_item one.now ≡ reduced_item other.now) }
{
    match (one, other) {
        (Item::Offset { .. }, Item::Offset { .. }) => true,
        (
            Item::Sync { who, edge, .. },
            Item::Sync {
                who: other,
                edge: side,
                ..
            },
        ) => who.slice() == other.slice() && is_same_edge(*edge, *side),
        (Item::Event { who, .. }, Item::Event { who: other, .. }) => is_same_id(who, other),
        (Item::Repeat { who, .. }, Item::Repeat { who: other, .. }) => is_same_id(who, other),
        (Item::Key { key, .. }, Item::Key { key: other, .. }) => key == other,
        (Item::Indefinite, Item::Indefinite) => true,
        _ => false,
    }
}

// Whether two edges are the same.
fn is_same_edge(one: Edge, other: Edge) -> bool
    ensures { IsTrue result ↔ (one ≡ other) }
{
    matches!(
        (one, other),
        (Edge::Begin, Edge::Begin) | (Edge::End, Edge::End)
    )
}
