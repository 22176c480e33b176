//! Items that refer to an element, an event or a key, counted.

ghost use Rattle.std.specs.Prelude.{◌≡◌, ◌<◌, ◌^◌, length, filter};
ghost use Rattle.smil_model.specs.document.Valid.{is_reference, listed_references, references_among};

use super::document::{Attrs, Item, Items};

/// How many items of attributes refer to an element, an event or a key. It takes no memory.
pub fn references_in(attrs: &Attrs) -> usize
    requires { references_among attrs.now < 2 ^ 64 }
    ensures { result ≡ references_among attrs.now }
{
    references_in_list(&attrs.begin) + references_in_list(&attrs.end)
}

/// How many items of a list refer to something; none where the list is absent. It takes no memory.
pub fn references_in_list(items: &Option<Items>) -> usize
    ensures { result ≡ listed_references items.now }
{
    match items {
        Some(items) => references_in_items(items),
        None => 0,
    }
}

/// How many items of a list refer to something. It takes no memory.
pub fn references_in_items(items: &Items) -> usize
    ensures { result ≡ length (filter is_reference items.now) }
{
    items.slice().iter().filter(|item| refers(*item)).count()
}

// Whether an item refers to an element, an event or a key.
fn refers(item: &Item) -> bool
    ensures { result ≡ is_reference item.now }
{
    match item {
        Item::Sync { .. } | Item::Event { .. } | Item::Repeat { .. } | Item::Key { .. } => true,
        Item::Offset { .. } | Item::Indefinite => false,
    }
}
