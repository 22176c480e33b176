//! The places of elements in document order, by id.

ghost use Rattle.std.specs.Prelude.{◌≡◌, ◌==◌, ℕ, List, Some, None, ◌&&◌, if◌then◌else◌, bytes_eq, IfOk, OnOk};
ghost use Rattle.std.specs.HashMap.{get_by};
ghost use Rattle.std.specs.Option.{option_or};
ghost use Rattle.smil_model.specs.document.Document.{element_named, is_element, has_id};
ghost use Rattle.smil_graph.specs.Places.{IsIndex};

use super::outline::is_element;
use smil_model::Node;
use smil_tree::Tree;
use std::alloc::{AllocError, Global};
use std::collections::HashMap;

/// The place of the first element with each id.
pub fn id_places<'a>(alloc: Global, tree: &'a Tree) -> Result<HashMap<&'a [u8], usize>, AllocError>
    ensures { IfOk result (λ places. IsIndex tree.now.nodes (element_named tree.now.nodes)
        (λ id. get_by (λ k. bytes_eq id k.now) places)) }
{
    let mut places = HashMap::with_capacity(alloc, tree.len())?;
    for place in 0..tree.len() {
        let node = tree.at(place).unwrap();
        note_id(&mut places, node, place)?;
    }
    Ok(places)
}

// Notes the place of an element for its id, if it has one that has no place yet.
fn note_id<'a>(
    places: &mut HashMap<&'a [u8], usize>,
    node: &'a Node,
    place: usize,
) -> Result<(), AllocError>
    ensures { OnOk result ((id : List ℕ)
        → get_by (λ k. bytes_eq id k.now) places.new
        ≡ option_or (get_by (λ k. bytes_eq id k.now) places.old)
        (if is_element node.now && has_id id node.now.attrs.id then Some place else None)) }
{
    if is_element(node) {
        if let Some(id) = &node.attrs.id {
            note_first(places, id.slice(), place)?;
        }
    }
    Ok(())
}

// Notes the place of an id, where it has none yet.
fn note_first<'a>(
    places: &mut HashMap<&'a [u8], usize>,
    id: &'a [u8],
    place: usize,
) -> Result<(), AllocError>
    ensures { OnOk result ((q : List ℕ)
        → get_by (λ k. bytes_eq q k.now) places.new
        ≡ option_or (get_by (λ k. bytes_eq q k.now) places.old)
        (if bytes_eq id.now q then Some place else None)) }
{
    if places.contains_key(id) {
        return Ok(());
    }
    places.insert(id, place)?;
    Ok(())
}
