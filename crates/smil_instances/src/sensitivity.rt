//! Whether an element hears an event for an item of its lists.

ghost use Rattle.std.specs.Prelude.{◌≡◌, ◌<◌, ◌&&◌, not, ℕ, List, length, true, Some};
ghost use Rattle.std.specs.List.{list_any};
ghost use Rattle.smil_model.specs.declared.diary.Entry.{Entry as AnyEntry};
ghost use Rattle.smil_model.specs.declared.diary.LogEntry.{LogEntry};
ghost use Rattle.smil_model.specs.declared.document.Node.{Node as AnyNode};
ghost use Rattle.smil_model.specs.document.Document.{elements, node_at, target};
ghost use Rattle.smil_model.specs.document.Defaults.{begin_list, restart_of};
ghost use Rattle.smil_model.specs.diary.Diary.{History, is_alive as alive_in};
ghost use Rattle.smil_model.specs.diary.Clocks.{outer_stands};
ghost use Rattle.smil_model.specs.diary.Lawful.{has_element};
ghost use Rattle.smil_model.specs.interval.Instances as instances;
ghost use Rattle.smil_stretch.specs.Clocks.{AreClocksOf};
ghost use Rattle.smil_instances.specs.Before.{IsBefore};
ghost use Rattle.smil_instances.specs.Entry.{IsAtHand, IsEntryOf};
ghost use Rattle.smil_instances.specs.Occurrence.{target_of, is_always};

use super::arrival::Arrival;
use super::before::{was_active, was_alive};
use super::history::DocumentHistory;
use super::items::ListItem;
use smil_model::{Bytes, Edge, Item, Restart};
use smil_tree::Tree;

/// Whether an element hears an event for an item of its begin list or end list, by what had
/// happened before the last entry of the book. The element hears none while its time parent is
/// not active or the clock of its time parent stands. While it is not active it hears its begin
/// items alone. While it is active, one that may always restart hears its begin items, and those
/// end items that are for no event of a begin item, and any other hears its end items alone. An
/// access key is heard as an event is. `of` is the element that an event or repeat item means; a
/// key is on none. It takes no memory. SMIL 3.0, "Event sensitivity".
pub fn hears(arrival: &Arrival<'_>, own: &ListItem<'_>, of: Option<u32>) -> bool
    requires hand { (log : List LogEntry) × IsAtHand arrival.now.history.tree.now
        arrival.now.clocks.now log arrival.now.history.book.now }
    requires element { has_element arrival.now.history.tree.now.nodes own.now.who ≡ true }
    requires means { of
        ≡ target_of arrival.now.history.tree.now.nodes own.now.who own.now.item.now }
    ensures { (h : History) (y : AnyEntry) (e : AnyNode)
        → IsEntryOf h y arrival.now.history.tree.now arrival.now.clocks.now h.log
        arrival.now.history.book.now
        → node_at (elements h.nodes) own.now.who ≡ Some e
        → result ≡ instances.hears h e own.now.side own.now.item.now }
{
    let DocumentHistory { tree, book, .. } = arrival.history;
    is_awake(arrival, own.who) && is_sensitive(tree, was_active(book, own.who), own, of)
}

// Whether an element was alive before the last entry of the book, and the clock of its time parent
// ran.
fn is_awake(arrival: &Arrival<'_>, who: u32) -> bool
    requires some { 0 < length arrival.now.history.book.now }
    requires element { has_element arrival.now.history.tree.now.nodes who ≡ true }
    ensures { (h : History) (y : AnyEntry) → h.nodes ≡ arrival.now.history.tree.now.nodes
        → IsBefore h y arrival.now.history.book.now → AreClocksOf arrival.now.clocks.now h
        → result ≡ (alive_in h who && not (outer_stands h who)) }
{
    let DocumentHistory { tree, book, .. } = arrival.history;
    was_alive(tree, book, who) && !arrival.clocks.outer_stands(who)
}

// Whether an element of a document, which is active or not, is sensitive to events for an item.
fn is_sensitive(tree: &Tree, active: bool, own: &ListItem<'_>, of: Option<u32>) -> bool
    requires element { has_element tree.now.nodes own.now.who ≡ true }
    requires means { of ≡ target_of tree.now.nodes own.now.who own.now.item.now }
    ensures { (e : AnyNode) → node_at (elements tree.now.nodes) own.now.who ≡ Some e
        → result ≡ instances.is_sensitive active (restart_of tree.now.nodes e) own.now.side
        (list_any (instances.is_same_event tree.now.nodes e.serial own.now.item.now)
        (begin_list tree.now.nodes e)) }
{
    match own.side {
        Edge::Begin => !active || always_restarts(tree, own.who),
        Edge::End => active && !(always_restarts(tree, own.who) && is_doubled(tree, own, of)),
    }
}

// Whether an element may always restart.
fn always_restarts(tree: &Tree, who: u32) -> bool
    requires element { has_element tree.now.nodes who ≡ true }
    ensures { (e : AnyNode) → node_at (elements tree.now.nodes) who ≡ Some e
        → result ≡ is_always (restart_of tree.now.nodes e) }
{
    tree.valid();
    let restart = tree.restart_of(who);
    matches!(restart, Restart::Always)
}

// Whether a begin item of an element is for the same event as an item.
fn is_doubled(tree: &Tree, own: &ListItem<'_>, of: Option<u32>) -> bool
    requires element { has_element tree.now.nodes own.now.who ≡ true }
    requires means { of ≡ target_of tree.now.nodes own.now.who own.now.item.now }
    ensures { (e : AnyNode) → node_at (elements tree.now.nodes) own.now.who ≡ Some e
        → result ≡ list_any (instances.is_same_event tree.now.nodes own.now.who own.now.item.now)
        (begin_list tree.now.nodes e) }
{
    tree.valid();
    let Some(begin) = &tree.attrs(own.who).begin else {
        return false;
    };
    for other in begin.slice() {
        if is_same_event(tree, own, of, other) {
            return true;
        }
    }
    false
}

// Whether two items of an element are for the same event of the element `of`, which the first one
// means, or for the same key.
fn is_same_event(tree: &Tree, own: &ListItem<'_>, of: Option<u32>, other: &Item) -> bool
    requires element { has_element tree.now.nodes own.now.who ≡ true }
    requires means { of ≡ target_of tree.now.nodes own.now.who own.now.item.now }
    ensures { result
        ≡ instances.is_same_event tree.now.nodes own.now.who own.now.item.now other.now }
{
    match (own.item, other) {
        (
            Item::Event { name, .. },
            Item::Event {
                who: named,
                name: other_name,
                ..
            },
        ) => means(tree, own.who, named, of) && name.slice() == other_name.slice(),
        (
            Item::Repeat { n, .. },
            Item::Repeat {
                who: named,
                n: m,
                ..
            },
        ) => { means(tree, own.who, named, of) && n == m }
        (Item::Key { key, .. }, Item::Key { key: other_key, .. }) => key == other_key,
        _ => false,
    }
}

// Whether an item of an element means the element `of`, by the id that the item has; none means no
// element.
fn means(tree: &Tree, who: u32, named: &Option<Bytes>, of: Option<u32>) -> bool
    requires { (x : ℕ) → of ≡ Some x → has_element tree.now.nodes x ≡ true }
    ensures { result ≡ instances.same_target of (target tree.now.nodes who named.now) }
{
    let Some(of) = of else {
        return false;
    };
    match named {
        Some(id) => bears(tree, of, id.slice()),
        None => of == who,
    }
}

// Whether an element has this id.
fn bears(tree: &Tree, who: u32, id: &[u8]) -> bool
    requires { has_element tree.now.nodes who ≡ true }
    ensures { result ≡ instances.same_target (Some who) (target tree.now.nodes who (Some id.now)) }
{
    tree.valid();
    match &tree.attrs(who).id {
        Some(own) => own.slice() == id,
        None => false,
    }
}
