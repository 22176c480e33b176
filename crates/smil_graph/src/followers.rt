//! Which elements follow from which by an item or as the next in a seq.

ghost use Rattle.std.specs.Prelude.{◌≡◌, ℕ, [], ◌&&◌, ◌||◌, OnOk, IfOk, bytes_eq};
ghost use Rattle.std.specs.HashMap.{get_by};
ghost use Rattle.smil_model.specs.document.Closure.{has};
ghost use Rattle.smil_model.specs.document.Defaults as defaults;
ghost use Rattle.smil_model.specs.document.Document as model;
ghost use Rattle.smil_model.specs.document.Valid.{IsDistinct};
ghost use Rattle.smil_graph.specs.Places.{follows_off_level, leads_to_place, named_off_level, IsIndex, IsTable};
ghost use Rattle.smil_graph.specs.Tables.{AreElementLevels, AreFollowers};

use super::feeders::named_by;
use super::looped::{Loops, is_on_level};
use super::outline::{is_element, place_at};
use super::row::{empty_rows, push_one};
use super::short_list::ShortList;
use super::turned::push_in_each;
use smil_model::{Item, Items, Node};
use smil_tree::Tree;
use std::alloc::{AllocError, Global};

/// For each node the places of the elements that follow from it, in document order: the next one in
/// a seq, and those with a reference to it that is not looped.
pub fn followers(
    alloc: Global,
    tree: &Tree,
    previous: &[Option<usize>],
    loops: &Loops<'_, '_>,
) -> Result<Vec<ShortList<usize>>, AllocError>
    requires distinct { IsDistinct tree.now.nodes }
    requires previous { IsTable tree.now.nodes
        (λ n. model.previous_in_seq tree.now.nodes n.serial) previous.now }
    requires ids { IsIndex tree.now.nodes (model.element_named tree.now.nodes)
        (λ id. get_by (λ k. bytes_eq id k.now) loops.now.ids.now) }
    requires levels { AreElementLevels tree.now.nodes loops.now.levels.now }
    ensures { IfOk result (λ rows. AreFollowers tree.now.nodes rows.items) }
{
    let mut rows = empty_rows(alloc, tree.len())?;
    for place in 0..tree.len() {
        let node = tree.at(place).unwrap();
        let mut row = ShortList::new(alloc);
        push_followed(&mut row, place_at(previous, place), node, loops, place)?;
        push_in_each(&mut rows, row.slice(), place)?;
    }
    Ok(rows)
}

// Appends the places of those from which the element at a place follows so; nothing for a
// priorityClass.
fn push_followed(
    row: &mut ShortList<usize>,
    previous: Option<usize>,
    node: &Node,
    loops: &Loops<'_, '_>,
    place: usize,
) -> Result<(), AllocError>
    ensures { OnOk result ((i : ℕ)
        → has row.new i ≡ (has row.old i
        || (model.is_element node.now && follows_off_level loops.now.levels.now
        (λ id. get_by (λ k. bytes_eq id k.now) loops.now.ids.now) previous place node.now i))) }
{
    if !is_element(node) {
        return Ok(());
    }
    push_one(row, previous)?;
    push_unlooped(row, &node.attrs.begin, loops, place)?;
    push_unlooped(row, &node.attrs.end, loops, place)
}

// Appends the places of the elements to whose begins or ends the items of the element at a place
// refer, where these are on another level.
fn push_unlooped(
    row: &mut ShortList<usize>,
    items: &Option<Items>,
    loops: &Loops<'_, '_>,
    place: usize,
) -> Result<(), AllocError>
    ensures { OnOk result ((i : ℕ)
        → has row.new i ≡ (has row.old i
        || leads_to_place (named_off_level loops.now.levels.now
        (λ id. get_by (λ k. bytes_eq id k.now) loops.now.ids.now) place)
        (defaults.items_or [] items.now) i)) }
{
    let Some(items) = items else {
        return Ok(());
    };
    for item in items.slice() {
        push_one(row, named_off_level(loops, item, place))?;
    }
    Ok(())
}

// The place of the element to whose begin or end an item of the element at a place refers, where
// that is on another level.
fn named_off_level(loops: &Loops<'_, '_>, item: &Item, place: usize) -> Option<usize>
    ensures { result ≡ named_off_level loops.now.levels.now
        (λ id. get_by (λ k. bytes_eq id k.now) loops.now.ids.now) place item.now }
{
    let other = named_by(loops.ids, item);
    if is_on_level(loops.levels, place, other) {
        None
    } else {
        other
    }
}
