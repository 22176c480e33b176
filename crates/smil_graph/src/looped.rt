//! Marks of the items that are looped references.

ghost use Rattle.std.specs.Prelude.{◌≡◌, ◌++◌, ℕ, List, [], map, length, slice_get, OnOk, IfOk, bytes_eq, option_copied};
ghost use Rattle.std.specs.HashMap.{get_by};
ghost use Rattle.smil_model.specs.document.Defaults as defaults;
ghost use Rattle.smil_graph.specs.Places as places;
ghost use Rattle.smil_graph.specs.Places.{is_on_level, IsIndex};
ghost use Rattle.smil_graph.specs.Tables.{AreElementLevels, AreMarks};
ghost use Rattle.smil_model.specs.document.Document as model;
ghost use Rattle.smil_model.specs.document.Valid.{IsDistinct};

use super::feeders::named_by;
use super::outline::is_element;
use super::row::number_at;
use super::short_list::ShortList;
use smil_flat_lists::FlatLists;
use smil_model::{Edge, Items};
use smil_tree::Tree;
use std::alloc::{AllocError, Global};
use std::collections::HashMap;

/// What tells looped references: the places of the elements by their ids, and a level for each
/// node.
#[derive(Drop)]
pub struct Loops<'a, 'b> {
    pub ids: &'a HashMap<&'b [u8], usize>,
    pub levels: &'a [usize],
}

/// For each element a mark at each item of one side that is a looped reference: one to an element
/// of the same level.
pub fn looped_marks(
    alloc: Global,
    tree: &Tree,
    loops: &Loops<'_, '_>,
    side: Edge,
) -> Result<FlatLists<bool>, AllocError>
    requires distinct { IsDistinct tree.now.nodes }
    requires ids { IsIndex tree.now.nodes (model.element_named tree.now.nodes)
        (λ id. get_by (λ k. bytes_eq id k.now) loops.now.ids.now) }
    requires levels { AreElementLevels tree.now.nodes loops.now.levels.now }
    ensures { IfOk result (λ rows. AreMarks tree.now.nodes side rows) }
{
    let mut rows = FlatLists::with_capacity(alloc, tree.len())?;
    for place in 0..tree.len() {
        let node = tree.at(place).unwrap();
        let mut row = ShortList::new(alloc);
        if is_element(node) {
            push_marks(&mut row, node.attrs.list(side), loops, place)?;
        }
        rows.push(row.slice())?;
    }
    Ok(rows)
}

// Appends for each item whether it is a reference of the element at a place to one of the same
// level.
fn push_marks(
    row: &mut ShortList<bool>,
    items: Option<&Items>,
    loops: &Loops<'_, '_>,
    place: usize,
) -> Result<(), AllocError>
    ensures { OnOk result (row.new ≡ row.old
        ++ map (λ item. is_on_level loops.now.levels.now place
        (places.named_by (λ id. get_by (λ k. bytes_eq id k.now) loops.now.ids.now) item))
        (defaults.items_or [] (option_copied items.entry))) }
{
    let Some(items) = items else {
        return Ok(());
    };
    for item in items.slice() {
        row.push(is_on_level(loops.levels, place, named_by(loops.ids, item)))?;
    }
    Ok(())
}

/// Whether there is another place, and on the level of this one.
pub fn is_on_level(levels: &[usize], place: usize, other: Option<usize>) -> bool
    ensures { result ≡ is_on_level levels.now place other }
{
    match other {
        Some(other) => number_at(levels, other) == number_at(levels, place),
        None => false,
    }
}
