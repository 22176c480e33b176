//! Whether the last entry of a book is what an item waits for.

ghost use Rattle.std.specs.Prelude.{◌≡◌, ◌<◌, ℕ, List, length, true, Some, slice_get};
ghost use Rattle.smil_model.specs.declared.diary.Entry.{Entry as AnyEntry};
ghost use Rattle.smil_model.specs.diary.Diary.{History};
ghost use Rattle.smil_model.specs.diary.Lawful.{has_element};
ghost use Rattle.smil_model.specs.interval.Instances.{is_event as event_in, is_log_event, is_press as press_in, is_repeat as repeat_in};
ghost use Rattle.smil_stretch.specs.declared.clock.NodeClock.{NodeClock};
ghost use Rattle.smil_instances.specs.Before.{IsBefore};
ghost use Rattle.smil_instances.specs.Entry.{IsAtHand, IsEntryOf};
ghost use Rattle.smil_instances.specs.Occurrence.{occurs_in};

use super::arrival::Arrival;
use super::before::{last_entry, repeated_iteration};
use super::history::DocumentHistory;
use super::steps;
use smil_diary::Book;
use smil_model::{Happening, Item, Log, LogEntry, Step};
use smil_tree::Tree;

/// Whether the last entry of the book is what an event, repeat or accesskey item waits for: the
/// named event on the element `of`, which the item means, the begin of iteration `n` of it, or a
/// press of the key. False for any other item, and for an event or repeat item that means no
/// element. It takes no memory.
pub fn occurs(arrival: &Arrival<'_>, of: Option<u32>, item: &Item) -> bool
    requires hand { (clocks : List NodeClock) × IsAtHand arrival.now.history.tree.now clocks
        arrival.now.history.log.now arrival.now.history.book.now }
    requires element { (x : ℕ) → of ≡ Some x
        → has_element arrival.now.history.tree.now.nodes x ≡ true }
    ensures { (h : History) (y : AnyEntry) (clocks : List NodeClock)
        → IsEntryOf h y arrival.now.history.tree.now clocks arrival.now.history.log.now
        arrival.now.history.book.now → result ≡ occurs_in h y of item.now }
{
    let DocumentHistory { tree, log, book } = arrival.history;
    match (item, of) {
        (Item::Event { name, .. }, Some(of)) => {
            is_event(log, of, name.slice(), last_entry(book).step)
        }
        (Item::Repeat { n, .. }, Some(of)) => is_repeat(tree, book, of, *n),
        (Item::Key { key, .. }, _) => is_press(log, *key, last_entry(book).step),
        _ => false,
    }
}

// Whether a step is an occurrence of the named event on an element.
fn is_event(log: &Log, of: u32, name: &[u8], step: Step) -> bool
    ensures { result ≡ event_in log.now of name.now step }
{
    match step {
        Step::Logged { place } => is_logged(log, of, name, place as usize),
        Step::Began { who, .. } => who == of && name == b"beginEvent".as_slice(),
        Step::Ended { who, .. } | Step::Cut { who } => who == of && name == b"endEvent".as_slice(),
        Step::Repeated { who, .. } => who == of && name == b"repeatEvent".as_slice(),
        _ => false,
    }
}

// Whether the log entry at a place is the named event on an element.
fn is_logged(log: &Log, of: u32, name: &[u8], place: usize) -> bool
    ensures { result ≡ is_log_event of name.now (slice_get log.now place) }
{
    match log.get(place) {
        Some(
            LogEntry {
                what: Happening::Event { who, name: own },
                ..
            },
        ) => *who == of && own.slice() == name,
        _ => false,
    }
}

// Whether a step is a press of the key.
fn is_press(log: &Log, key: u8, step: Step) -> bool
    ensures { result ≡ press_in log.now key step }
{
    match steps::key(log, step) {
        Some(own) => key == own,
        None => false,
    }
}

// Whether the last entry of the book begins iteration `n` of an element.
fn is_repeat(tree: &Tree, book: &Book, of: u32, n: u32) -> bool
    requires some { 0 < length book.now }
    requires element { has_element tree.now.nodes of ≡ true }
    ensures { (h : History) (y : AnyEntry) → h.nodes ≡ tree.now.nodes → IsBefore h y book.now
        → result ≡ repeat_in h of n y.step }
{
    match last_entry(book).step {
        Step::Repeated { who, .. } if who == of => repeated_iteration(tree, book, of) == n,
        _ => false,
    }
}
