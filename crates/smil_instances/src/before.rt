//! What was before the last entry of a book, by the book with it.

ghost use Rattle.std.specs.Prelude.{◌≡◌, ◌<◌, ℤ, List, [], ◌∷◌, ◌++◌, length, suc, true};
ghost use Rattle.smil_model.specs.declared.diary.Entry.{Entry as AnyEntry};
ghost use Rattle.smil_model.specs.declared.diary.Step.TheVariants.{Repeated};
ghost use Rattle.smil_model.specs.diary.Diary.{History, is_active as active_in, is_alive as alive_in, iteration as iteration_in};
ghost use Rattle.smil_model.specs.diary.Lawful.{has_element};
ghost use Rattle.smil_instances.specs.Before.{IsBefore};

use smil_diary::Book;
use smil_model::{Entry, Step};
use smil_tree::Tree;

/// The last entry of a book that has one. It takes no memory.
pub fn last_entry(book: &Book) -> Entry
    requires { 0 < length book.now }
    ensures { (front : List AnyEntry) (y : AnyEntry) → book.now ≡ front ++ y ∷ [] → result ≡ y }
{
    book.entry(book.len() - 1).unwrap()
}

/// Whether an element was active before the last entry of a book. It takes no memory.
pub fn was_active(book: &Book, who: u32) -> bool
    requires { 0 < length book.now }
    ensures { (h : History) (y : AnyEntry) → IsBefore h y book.now
        → result ≡ active_in h.diary who }
{
    match last_entry(book).step {
        Step::Began { who: other, .. } if other == who => false,
        Step::Ended { who: other, .. } | Step::Cut { who: other } if other == who => true,
        _ => book.active(who),
    }
}

/// Whether an element was alive before the last entry of a book. It takes no memory.
pub fn was_alive(tree: &Tree, book: &Book, who: u32) -> bool
    requires some { 0 < length book.now }
    requires element { has_element tree.now.nodes who ≡ true }
    ensures { (h : History) (y : AnyEntry) → h.nodes ≡ tree.now.nodes → IsBefore h y book.now
        → result ≡ alive_in h who }
{
    match tree.time_parent(who) {
        Some(parent) => was_active(book, parent),
        None => true,
    }
}

/// The number of the iteration that begins with the last entry of a book, a repeat of the element.
/// It takes no memory.
pub fn repeated_iteration(tree: &Tree, book: &Book, who: u32) -> u32
    requires element { has_element tree.now.nodes who ≡ true }
    ensures { (h : History) (moment start : ℤ) → h.nodes ≡ tree.now.nodes
        → book.now ≡ h.diary ++ (record { moment = moment; step = Repeated who start }) ∷ []
        → result ≡ suc (iteration_in h who) }
{
    tree.valid();
    // A repeat is counted where a begin since birth was.
    book.iteration(who, tree.time_parent(who)).max(1)
}
