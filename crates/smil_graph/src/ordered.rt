//! An order of the elements that follows the links.

ghost use Rattle.std.specs.Prelude.{◌≡◌, ◌<◌, ℕ, Some, length, map, filter, slice_index_or, IfOk};
ghost use Rattle.std.specs.List.{range_with_len};
ghost use Rattle.smil_model.specs.document.Document.{time_parent};
ghost use Rattle.smil_model.specs.document.Valid.{IsDistinct};
ghost use Rattle.smil_graph.specs.Graph.{IsGraphOrder};
ghost use Rattle.smil_graph.specs.Tables.{AreElementLevels};
ghost use Rattle.smil_graph.specs.Places.{up, is_element_at, IsTable};
ghost use Rattle.smil_graph.specs.Ranks.{rank_of, height_under, AreHeights};

use super::outline::is_element;
use super::row::number_at;
use super::short_list::ShortList;
use super::tables::serials_at;
use smil_tree::Tree;
use std::alloc::{AllocError, Global};

// What an element is sorted by: first by level, then by height, the lower first, and then by
// place.
#[derive(Clone, Copy, PartialEq, Eq, PartialOrd, Ord)]
struct Rank {
    level: usize,
    height: usize,
    place: usize,
}

/// The serials of the elements by level; on one level children before their time parents, and
/// earlier siblings before later ones.
pub fn ordered(
    alloc: Global,
    tree: &Tree,
    levels: &[usize],
    time_parents: &[Option<usize>],
) -> Result<ShortList<u32>, AllocError>
    requires distinct { IsDistinct tree.now.nodes }
    requires levels { AreElementLevels tree.now.nodes levels.now }
    requires time_parents { IsTable tree.now.nodes (λ n. time_parent tree.now.nodes n.serial)
        time_parents.now }
    ensures { IfOk result (λ order. IsGraphOrder tree.now.nodes order) }
{
    let heights = heights(alloc, time_parents)?;
    let mut ranks = ranks(alloc, tree, levels, heights.as_slice())?;
    ranks.sort_unstable();
    let places = places(alloc, ranks.as_slice())?;
    serials_at(alloc, tree, places.as_slice())
}

// How high each node stands: the root highest, and every other node one below its time parent.
fn heights(alloc: Global, time_parents: &[Option<usize>]) -> Result<Vec<usize>, AllocError>
    requires { (p q : ℕ) → up time_parents.now p ≡ Some q → q < p }
    ensures { IfOk result (λ heights. AreHeights time_parents.now heights.items) }
{
    let mut heights = Vec::with_capacity(alloc, time_parents.len())?;
    for parent in time_parents {
        let height = height_under(heights.as_slice(), *parent, time_parents.len());
        heights.push(height)?;
    }
    Ok(heights)
}

// One below the parent's height, or the top where there is no parent.
fn height_under(heights: &[usize], parent: Option<usize>, top: usize) -> usize
    ensures { result ≡ height_under heights.now top parent }
{
    match parent {
        Some(parent) => number_at(heights, parent).saturating_sub(1),
        None => top,
    }
}

// The ranks of the elements, in document order.
fn ranks(
    alloc: Global,
    tree: &Tree,
    levels: &[usize],
    heights: &[usize],
) -> Result<Vec<Rank>, AllocError>
    ensures { IfOk result (λ ranks. ranks.items
        ≡ map (rank_of levels.now heights.now)
        (filter (is_element_at tree.now.nodes) (range_with_len 0 (length tree.now.nodes)))) }
{
    let mut ranks = Vec::with_capacity(alloc, tree.len())?;
    for place in 0..tree.len() {
        let node = tree.at(place).unwrap();
        if is_element(node) {
            let level = number_at(levels, place);
            let height = number_at(heights, place);
            ranks.push(Rank {
                level,
                height,
                place,
            })?;
        }
    }
    Ok(ranks)
}

// The places of ranks.
fn places(alloc: Global, ranks: &[Rank]) -> Result<Vec<usize>, AllocError>
    ensures { IfOk result (λ places. places.items ≡ map (λ rank. rank.place) ranks.now) }
{
    let mut places = Vec::with_capacity(alloc, ranks.len())?;
    for rank in ranks {
        places.push(rank.place)?;
    }
    Ok(places)
}
