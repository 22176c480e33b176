//! Which elements wait for which key.

ghost use Rattle.std.specs.Prelude.{◌≡◌, ◌<◌, ℕ, ◌&&◌, [], length, OnOk, IfOk};
ghost use Rattle.std.specs.List.{list_any};
ghost use Rattle.smil_model.specs.document.Defaults.{items_or};
ghost use Rattle.smil_model.specs.document.Document.{is_element};
ghost use Rattle.smil_model.specs.reach.Reach.{is_key_item, is_option};
ghost use Rattle.smil_graph.specs.Links.{row};
ghost use Rattle.smil_graph.specs.Tables.{has_key_item, key_of, AreWaiting, AreWithPlace};

use super::row::push_at;
use super::short_list::ShortList;
use smil_model::{Item, Items, Node};
use smil_tree::Tree;
use std::alloc::{AllocError, Global};

/// For each key, up to the highest one for which there is an item, a row of the places of the
/// elements that have an item for it.
pub fn waiting(alloc: Global, tree: &Tree) -> Result<Vec<ShortList<usize>>, AllocError>
    ensures { IfOk result (λ rows. AreWaiting tree.now.nodes rows.items) }
{
    let mut rows = Vec::new(alloc);
    for place in 0..tree.len() {
        let node = tree.at(place).unwrap();
        push_waits(alloc, &mut rows, node, place)?;
    }
    Ok(rows)
}

// Puts the place of an element into the row of each key for which it has an item; that of a
// priorityClass into none.
fn push_waits(
    alloc: Global,
    rows: &mut Vec<ShortList<usize>>,
    node: &Node,
    place: usize,
) -> Result<(), AllocError>
    ensures { OnOk result (AreWithPlace (λ key. is_element node.now && has_key_item key node.now)
        place rows.old.items rows.new.items) }
{
    if !node.kind.is_element() {
        return Ok(());
    }
    push_keys(alloc, rows, &node.attrs.begin, place)?;
    push_keys(alloc, rows, &node.attrs.end, place)
}

// Puts a place into the row of each key for which there is an item.
fn push_keys(
    alloc: Global,
    rows: &mut Vec<ShortList<usize>>,
    items: &Option<Items>,
    place: usize,
) -> Result<(), AllocError>
    ensures { OnOk result (AreWithPlace (λ key. list_any (is_key_item key) (items_or [] items.now))
        place rows.old.items rows.new.items) }
{
    let Some(items) = items else {
        return Ok(());
    };
    for item in items.slice() {
        push_key(alloc, rows, key_of(item), place)?;
    }
    Ok(())
}

// The key that an item waits for.
fn key_of(item: &Item) -> Option<u8>
    ensures { result ≡ key_of item.now }
{
    match item {
        Item::Key { key, .. } => Some(*key),
        _ => None,
    }
}

// Puts a place into the row of a key, if there is one.
fn push_key(
    alloc: Global,
    rows: &mut Vec<ShortList<usize>>,
    key: Option<u8>,
    place: usize,
) -> Result<(), AllocError>
    ensures { OnOk result
        (AreWithPlace (λ i. is_option i key) place rows.old.items rows.new.items) }
{
    match key {
        Some(key) => {
            add_rows(alloc, rows, key)?;
            push_at(rows, key as usize, place)
        }
        None => Ok(()),
    }
}

// Appends empty rows until there is one for the key.
fn add_rows(alloc: Global, rows: &mut Vec<ShortList<usize>>, key: u8) -> Result<(), AllocError>
    ensures there { OnOk result (key < length rows.new.items) }
    ensures same { OnOk result ((i : ℕ) → row rows.new.items i ≡ row rows.old.items i) }
{
    let missing = (key as usize + 1).saturating_sub(rows.len());
    for _ in 0..missing {
        rows.push(ShortList::new(alloc))?;
    }
    Ok(())
}
