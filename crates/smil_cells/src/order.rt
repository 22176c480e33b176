//! Places of nodes put into a set, and the elements there taken in document order.

ghost use Rattle.std.specs.Prelude.{◌≡◌, ◌==◌, ℕ, ◌++◌, filter, true, OnOk, IsSome, slice_get};
ghost use Rattle.smil_model.specs.document.Document.{elements, node_at, serials};
ghost use Rattle.smil_model.specs.document.Closure.{has};
ghost use Rattle.smil_model.specs.document.Edits.{place_in};
ghost use Rattle.smil_cells.specs.Shown.{ArePut, IsRangePut, OnlyMore, StayIn, elements_at, nodes_of};

use smil_model::{PlaceSet, Serials};
use smil_tree::Tree;
use std::alloc::AllocError;

/// Puts the places of the nodes that are listed in, and no others; a serial of no node is passed
/// over. Refused where memory runs out.
pub fn put_nodes(tree: &Tree, nodes: &Serials, places: &mut PlaceSet) -> Result<(), AllocError>
    ensures more { OnOk result (StayIn places.old places.new) }
    ensures put { OnOk result (ArePut tree.now.nodes nodes.now places.new) }
    ensures only { OnOk result (OnlyMore tree.now.nodes places.old places.new (has nodes.now)) }
{
    for serial in nodes.slice() {
        put_node(tree, *serial, places)?;
    }
    Ok(())
}

// Puts the place of the node with a serial in, where there is one.
fn put_node(tree: &Tree, serial: u32, places: &mut PlaceSet) -> Result<(), AllocError>
    ensures more { OnOk result (StayIn places.old places.new) }
    ensures put { OnOk result (IsSome (node_at tree.now.nodes serial)
        → has places.new (place_in tree.now.nodes serial) ≡ true) }
    ensures only { OnOk result (OnlyMore tree.now.nodes places.old places.new
        (λ (s : ℕ). serial == s)) }
{
    tree.valid();
    match tree.position(serial) {
        Some(place) => places.put(place),
        None => Ok(()),
    }
}

/// Puts the places from one on up to another in, and no others. Refused where memory runs out.
pub fn put_range(places: &mut PlaceSet, start: usize, end: usize) -> Result<(), AllocError>
    ensures { OnOk result (IsRangePut start end places.old places.new) }
{
    for place in start..end {
        places.put(place)?;
    }
    Ok(())
}

/// Takes all places out, and makes a list that of the elements there, in document order. Refused
/// where memory runs out.
pub fn take_elements(
    tree: &Tree,
    places: &mut PlaceSet,
    list: &mut Serials,
) -> Result<(), AllocError>
    ensures taken { OnOk result (list.new ≡ elements_at tree.now.nodes places.old) }
    ensures order { OnOk result (list.new
        ≡ filter (has list.new) (serials (elements tree.now.nodes))) }
{
    tree.valid();
    list.cut_back(0);
    while let Some(place) = places.take_first() {
        push_element(tree, place, list)?;
    }
    Ok(())
}

// Appends the node at a place, where it is an element.
fn push_element(tree: &Tree, place: usize, list: &mut Serials) -> Result<(), AllocError>
    ensures { OnOk result (list.new
        ≡ list.old ++ serials (elements (nodes_of (slice_get tree.now.nodes place)))) }
{
    match tree.at(place) {
        Some(node) if node.kind.is_element() => list.push(node.serial),
        _ => Ok(()),
    }
}
