//! What evaluation reads of an element's attributes, and where the element stands.

ghost use Rattle.std.specs.Prelude.{◌≡◌, ◌||◌, Some, IsSome};
ghost use Rattle.std.specs.List.{list_any};
ghost use Rattle.smil_model.specs.declared.document.Node.{Node as AnyNode};
ghost use Rattle.smil_model.specs.document.Document.{is_excl_kind, is_seq_kind, node_at, time_children};
ghost use Rattle.smil_model.specs.document.Edits.{place_in};
ghost use Rattle.smil_model.specs.document.Defaults as defaults;
ghost use Rattle.smil_model.specs.interval.Current as model;
ghost use Rattle.smil_past.specs.Makeups.{freezes, is_freeze, keeps_children, makeup_of, parent_index, stated_simple};

use smil_duration::{Bounds, simple, takes_implicit};
use smil_model::{Attrs, EndList, Fill, Item, Items, Kind, Restart, Time};
use smil_tree::Tree;

/// A time parent: its serial, and its index among the elements in document order, from 0.
#[derive(Clone, Copy)]
pub struct ParentIndex {
    pub serial: u32,
    pub index: u32,
}

/// What evaluation reads of the attributes of an element, in milliseconds; its kind, and where it
/// and its time parent stand.
#[derive(Clone, Copy)]
pub struct Makeup {
    /// The time parent; None for the root.
    pub parent: Option<ParentIndex>,
    /// The element's place among the nodes in document order, from 0.
    pub node: u32,
    pub kind: Kind,
    /// The restart that holds: never `ByDefault`.
    pub restart: Restart,
    /// The fill that holds: never `auto`.
    pub fill: Fill,
    pub end_list: EndList,
    /// Whether it is a seq or an excl of whose time children one freezes when it ends.
    pub keeps_children: bool,
    /// The simple duration; None where it is the implicit one.
    pub simple: Option<Time>,
    /// What limits a play.
    pub bounds: Bounds,
}

/// The makeup of an element. It takes no memory.
pub fn makeup_of(tree: &Tree, who: u32) -> Makeup
    requires { IsSome (node_at tree.now.nodes who) }
    ensures { (e : AnyNode) → node_at tree.now.nodes who ≡ Some e
        → result ≡ makeup_of tree.now.nodes e }
{
    let attrs = tree.attrs(who);
    Makeup {
        parent: parent_index(tree, who),
        node: node_place(tree, who),
        kind: tree.kind(who),
        restart: tree.restart_of(who),
        fill: fill_by(attrs, tree.fill_of(who)),
        end_list: end_list(&attrs.end),
        keeps_children: keeps_children(tree, who),
        simple: stated_simple(attrs),
        bounds: Bounds::of_attrs(attrs),
    }
}

// Whether a node is a seq or an excl of whose time children one freezes when it ends.
fn keeps_children(tree: &Tree, who: u32) -> bool
    requires { IsSome (node_at tree.now.nodes who) }
    ensures { (e : AnyNode) → node_at tree.now.nodes who ≡ Some e
        → result ≡ keeps_children tree.now.nodes e }
{
    plays_one(tree.kind(who)) && any_freezes(tree, who)
}

/// Whether of the time children of a node of this kind one plays at a time. It takes no memory.
pub fn plays_one(kind: Kind) -> bool
    ensures { result ≡ (is_seq_kind kind || is_excl_kind kind) }
{
    matches!(kind, Kind::Seq | Kind::Excl)
}

// Whether one of the time children of a node freezes when it ends.
fn any_freezes(tree: &Tree, who: u32) -> bool
    ensures { result ≡ list_any (freezes tree.now.nodes) (time_children tree.now.nodes who) }
{
    tree.valid();
    for child in tree.time_children(who) {
        if freezes(tree, *child) {
            return true;
        }
    }
    false
}

// Whether a node freezes when it ends.
fn freezes(tree: &Tree, who: u32) -> bool
    requires { IsSome (node_at tree.now.nodes who) }
    ensures { (e : AnyNode) → node_at tree.now.nodes who ≡ Some e
        → result ≡ freezes tree.now.nodes e }
{
    is_freeze(fill_by(tree.attrs(who), tree.fill_of(who)))
}

/// Whether this fill keeps an element until it is displaced. It takes no memory.
pub fn is_freeze(fill: Fill) -> bool
    ensures { result ≡ is_freeze fill }
{
    matches!(fill, Fill::Freeze)
}

// The place of a node among the nodes.
fn node_place(tree: &Tree, who: u32) -> u32
    requires { IsSome (node_at tree.now.nodes who) }
    ensures { result ≡ place_in tree.now.nodes who }
{
    tree.valid();
    tree.position(who).unwrap() as u32
}

// The time parent of a node, with its index among the elements.
fn parent_index(tree: &Tree, who: u32) -> Option<ParentIndex>
    requires { IsSome (node_at tree.now.nodes who) }
    ensures { result ≡ parent_index tree.now.nodes who }
{
    tree.valid();
    let serial = tree.time_parent(who)?;
    let index = tree.element_index(serial).unwrap() as u32;
    Some(ParentIndex { serial, index })
}

// The simple duration where it is not the implicit one.
fn stated_simple(attrs: &Attrs) -> Option<Time>
    ensures { result ≡ stated_simple attrs.now }
{
    if takes_implicit(attrs) {
        None
    } else {
        Some(simple(attrs, Time::Unresolved))
    }
}

// What an end list leaves open where it has no usable end instance.
fn end_list(items: &Option<Items>) -> EndList
    ensures { result ≡ model.end_list_of items.now }
{
    match items {
        None => EndList::Absent,
        Some(items) => {
            if hears(items) {
                EndList::Hearing
            } else {
                EndList::Plain
            }
        }
    }
}

// Whether a list has an item that hears.
fn hears(items: &Items) -> bool
    ensures { result ≡ list_any model.is_event_item items.now }
{
    items.slice().iter().any(|item| is_heard(item))
}

// Whether an item is for an event, a repeat or an access key.
fn is_heard(item: &Item) -> bool
    ensures { result ≡ model.is_event_item item.now }
{
    match item {
        Item::Event { .. } | Item::Repeat { .. } | Item::Key { .. } => true,
        Item::Offset { .. } | Item::Sync { .. } | Item::Indefinite => false,
    }
}

// What `auto` means by the other attributes.
fn fill_by(attrs: &Attrs, fill: Fill) -> Fill
    ensures { result ≡ defaults.fill_by attrs.now fill }
{
    match fill {
        Fill::Auto => fill_when_auto(attrs),
        stated => stated,
    }
}

// `auto` freezes where nothing limits the duration.
fn fill_when_auto(attrs: &Attrs) -> Fill
    ensures { result ≡ defaults.fill_when_auto attrs.now }
{
    if attrs.dur.is_some()
        || attrs.end.is_some()
        || attrs.repeat_count.is_some()
        || attrs.repeat_dur.is_some()
    {
        Fill::Remove
    } else {
        Fill::Freeze
    }
}
