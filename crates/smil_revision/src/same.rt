//! Whether an edit leaves the attributes of a node as they were.

ghost use Rattle.std.specs.Prelude.{◌≡◌, ◌↔◌, Some, IsTrue, option_copied};
ghost use Rattle.smil_model.specs.declared.document.Node.{Node as AnyNode};
ghost use Rattle.smil_model.specs.document.Document.{node_at};
ghost use Rattle.smil_graph.specs.Reduced.{reduced};

use smil_graph::is_alike;
use smil_model::{
    Act, Attrs, Bytes, Count, Dur, Edge, Endsync, Fill, FillDefault, Item, Items, Node, Restart,
    RestartDefault, Texts,
};
use smil_tree::Tree;

/// Whether two documents both have a node of this serial, with the same attributes. It takes no
/// memory.
pub fn have_same_attrs(before: &Tree, after: &Tree, serial: u32) -> bool
    ensures { IsTrue result ↔ ((old : AnyNode) × (new : AnyNode)
        × (node_at before.now.nodes serial ≡ Some old)
        × (node_at after.now.nodes serial ≡ Some new) × (new.attrs ≡ old.attrs)) }
{
    match (node_in(before, serial), node_in(after, serial)) {
        (Some(old), Some(new)) => are_same(&new.attrs, &old.attrs),
        _ => false,
    }
}

/// Whether two documents both have a node of this serial, with the same attributes but for plain
/// texts. It takes no memory.
pub fn agree_but_for_texts(before: &Tree, after: &Tree, serial: u32) -> bool
    ensures { IsTrue result ↔ ((old : AnyNode) × (new : AnyNode)
        × (node_at before.now.nodes serial ≡ Some old)
        × (node_at after.now.nodes serial ≡ Some new)
        × (new.attrs ≡ record old.attrs { texts = new.attrs.texts })) }
{
    match (node_in(before, serial), node_in(after, serial)) {
        (Some(old), Some(new)) => are_same_but_for_texts(&new.attrs, &old.attrs),
        _ => false,
    }
}

/// Whether two documents both have a node of this serial, the same in what a graph reads of it. It
/// takes no memory.
pub fn are_alike_at(before: &Tree, after: &Tree, serial: u32) -> bool
    ensures { IsTrue result ↔ ((old : AnyNode) × (new : AnyNode)
        × (node_at before.now.nodes serial ≡ Some old)
        × (node_at after.now.nodes serial ≡ Some new) × (reduced old ≡ reduced new)) }
{
    match (node_in(before, serial), node_in(after, serial)) {
        (Some(old), Some(new)) => is_alike(old, new),
        _ => false,
    }
}

// The node of a serial, if there is one.
fn node_in(tree: &Tree, serial: u32) -> Option<&Node>
    ensures { option_copied result ≡ node_at tree.now.nodes serial }
{
    let place = tree.position(serial)?;
    tree.at(place)
}

// Whether all attributes are the same.
fn are_same(one: &Attrs, other: &Attrs) -> bool
    ensures { IsTrue result ↔ (one.now ≡ other.now) }
{
    are_same_but_for_texts(one, other) && are_same_texts(&one.texts, &other.texts)
}

// Whether all attributes but plain texts are the same.
fn are_same_but_for_texts(one: &Attrs, other: &Attrs) -> bool
    ensures { IsTrue result ↔ (one.now ≡ record other.now { texts = one.now.texts }) }
{
    is_same_text(&one.id, &other.id)
        && are_same_lists(&one.begin, &other.begin)
        && are_same_lists(&one.end, &other.end)
        && is_same_dur(one.dur, other.dur)
        && one.min == other.min
        && one.max == other.max
        && is_same_count(one.repeat_count, other.repeat_count)
        && one.repeat_dur == other.repeat_dur
        && is_same_restart(one.restart, other.restart)
        && is_same_fill(one.fill, other.fill)
        && is_same_restart_default(one.restart_default, other.restart_default)
        && is_same_fill_default(one.fill_default, other.fill_default)
        && is_same_endsync(&one.endsync, &other.endsync)
        && is_same_act(one.peers, other.peers)
        && is_same_act(one.higher, other.higher)
        && is_same_act(one.lower, other.lower)
}

// Whether all plain texts are the same.
fn are_same_texts(one: &Texts, other: &Texts) -> bool
    ensures { IsTrue result ↔ (one.now ≡ other.now) }
{
    is_same_text(&one.src, &other.src)
        && is_same_text(&one.region, &other.region)
        && is_same_text(&one.alt, &other.alt)
        && is_same_text(&one.title, &other.title)
        && is_same_text(&one.target_element, &other.target_element)
        && is_same_text(&one.attribute_name, &other.attribute_name)
        && is_same_text(&one.to, &other.to)
}

// Whether two texts are the same, or both absent.
fn is_same_text(one: &Option<Bytes>, other: &Option<Bytes>) -> bool
    ensures { IsTrue result ↔ (one.now ≡ other.now) }
{
    match (one, other) {
        (None, None) => true,
        (Some(one), Some(other)) => one.slice() == other.slice(),
        _ => false,
    }
}

// Whether two lists of items are the same, or both absent.
fn are_same_lists(one: &Option<Items>, other: &Option<Items>) -> bool
    ensures { IsTrue result ↔ (one.now ≡ other.now) }
{
    match (one, other) {
        (None, None) => true,
        (Some(one), Some(other)) => are_same_items(one.slice(), other.slice()),
        _ => false,
    }
}

// Whether items are the same, one after another.
fn are_same_items(ones: &[Item], others: &[Item]) -> bool
    ensures { IsTrue result ↔ (ones.now ≡ others.now) }
{
    let mut left = others.iter();
    for one in ones {
        let Some(other) = left.next() else {
            return false;
        };
        if !is_same_item(one, other) {
            return false;
        }
    }
    left.next().is_none()
}

// Whether two items are the same.
fn is_same_item(one: &Item, other: &Item) -> bool
    ensures { IsTrue result ↔ (one.now ≡ other.now) }
{
    match (one, other) {
        (Item::Offset { offset }, Item::Offset { offset: by }) => offset == by,
        (
            Item::Sync { who, edge, offset },
            Item::Sync {
                who: other,
                edge: side,
                offset: by,
            },
        ) => who.slice() == other.slice() && is_same_edge(*edge, *side) && offset == by,
        (
            Item::Event { who, name, offset },
            Item::Event {
                who: other,
                name: called,
                offset: by,
            },
        ) => is_same_text(who, other) && name.slice() == called.slice() && offset == by,
        (
            Item::Repeat { who, n, offset },
            Item::Repeat {
                who: other,
                n: nth,
                offset: by,
            },
        ) => is_same_text(who, other) && n == nth && offset == by,
        (
            Item::Key { key, offset },
            Item::Key {
                key: other,
                offset: by,
            },
        ) => key == other && offset == by,
        (Item::Indefinite, Item::Indefinite) => true,
        _ => false,
    }
}

// Whether two edges are the same.
fn is_same_edge(one: Edge, other: Edge) -> bool
    ensures { IsTrue result ↔ (one ≡ other) }
{
    matches!(
        (one, other),
        (Edge::Begin, Edge::Begin) | (Edge::End, Edge::End)
    )
}

// Whether two values of `dur` are the same, or both absent.
fn is_same_dur(one: Option<Dur>, other: Option<Dur>) -> bool
    ensures { IsTrue result ↔ (one ≡ other) }
{
    match (one, other) {
        (Some(Dur::Clock(one)), Some(Dur::Clock(other))) => one == other,
        (Some(Dur::Media), Some(Dur::Media))
        | (Some(Dur::Indefinite), Some(Dur::Indefinite))
        | (None, None) => true,
        _ => false,
    }
}

// Whether two values of `repeatCount` are the same, or both absent.
fn is_same_count(one: Option<Count>, other: Option<Count>) -> bool
    ensures { IsTrue result ↔ (one ≡ other) }
{
    match (one, other) {
        (Some(Count::Thousandths(one)), Some(Count::Thousandths(other))) => one == other,
        (Some(Count::Indefinite), Some(Count::Indefinite)) | (None, None) => true,
        _ => false,
    }
}

// Whether two values of `restart` are the same, or both absent.
fn is_same_restart(one: Option<Restart>, other: Option<Restart>) -> bool
    ensures { IsTrue result ↔ (one ≡ other) }
{
    matches!(
        (one, other),
        (Some(Restart::Always), Some(Restart::Always))
            | (Some(Restart::WhenNotActive), Some(Restart::WhenNotActive))
            | (Some(Restart::Never), Some(Restart::Never))
            | (Some(Restart::ByDefault), Some(Restart::ByDefault))
            | (None, None)
    )
}

// Whether two values of `restartDefault` are the same, or both absent.
fn is_same_restart_default(one: Option<RestartDefault>, other: Option<RestartDefault>) -> bool
    ensures { IsTrue result ↔ (one ≡ other) }
{
    matches!(
        (one, other),
        (Some(RestartDefault::Always), Some(RestartDefault::Always))
            | (
                Some(RestartDefault::WhenNotActive),
                Some(RestartDefault::WhenNotActive)
            )
            | (Some(RestartDefault::Never), Some(RestartDefault::Never))
            | (Some(RestartDefault::Inherit), Some(RestartDefault::Inherit))
            | (None, None)
    )
}

// Whether two values of `fill` are the same, or both absent.
fn is_same_fill(one: Option<Fill>, other: Option<Fill>) -> bool
    ensures { IsTrue result ↔ (one ≡ other) }
{
    matches!(
        (one, other),
        (Some(Fill::Remove), Some(Fill::Remove))
            | (Some(Fill::Freeze), Some(Fill::Freeze))
            | (Some(Fill::Hold), Some(Fill::Hold))
            | (Some(Fill::Auto), Some(Fill::Auto))
            | (Some(Fill::ByDefault), Some(Fill::ByDefault))
            | (None, None)
    )
}

// Whether two values of `fillDefault` are the same, or both absent.
fn is_same_fill_default(one: Option<FillDefault>, other: Option<FillDefault>) -> bool
    ensures { IsTrue result ↔ (one ≡ other) }
{
    matches!(
        (one, other),
        (Some(FillDefault::Remove), Some(FillDefault::Remove))
            | (Some(FillDefault::Freeze), Some(FillDefault::Freeze))
            | (Some(FillDefault::Hold), Some(FillDefault::Hold))
            | (Some(FillDefault::Auto), Some(FillDefault::Auto))
            | (Some(FillDefault::Inherit), Some(FillDefault::Inherit))
            | (None, None)
    )
}

// Whether two values of `endsync` are the same, or both absent.
fn is_same_endsync(one: &Option<Endsync>, other: &Option<Endsync>) -> bool
    ensures { IsTrue result ↔ (one.now ≡ other.now) }
{
    match (one, other) {
        (Some(Endsync::Child(one)), Some(Endsync::Child(other))) => one.slice() == other.slice(),
        (Some(Endsync::Last), Some(Endsync::Last))
        | (Some(Endsync::First), Some(Endsync::First))
        | (Some(Endsync::All), Some(Endsync::All))
        | (None, None) => true,
        _ => false,
    }
}

// Whether an excl does the same, or nothing is stated in both.
fn is_same_act(one: Option<Act>, other: Option<Act>) -> bool
    ensures { IsTrue result ↔ (one ≡ other) }
{
    matches!(
        (one, other),
        (Some(Act::Stop), Some(Act::Stop))
            | (Some(Act::Pause), Some(Act::Pause))
            | (Some(Act::Defer), Some(Act::Defer))
            | (Some(Act::Never), Some(Act::Never))
            | (None, None)
    )
}
