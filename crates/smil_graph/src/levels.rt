//! Levels, which fall along links.

ghost use Rattle.std.specs.Prelude.{◌≡◌, length, IfOk};
ghost use Rattle.smil_graph.specs.Links.{StayBelow, AreLevels};

use super::components::Components;
use smil_flat_lists::FlatLists;
use std::alloc::{AllocError, Global};

/// A level for each place, such that no link rises, and a link that stays on its level can be gone
/// back along links; unless memory runs out. The time is linear in the places and links.
pub fn levels(alloc: Global, rows: &FlatLists<usize>) -> Result<Vec<usize>, AllocError>
    requires { StayBelow (length rows.now) rows.now }
    ensures { IfOk result (λ levels. AreLevels rows.now levels.items) }
{
    let mut components = Components::new(alloc, rows.len())?;
    for place in 0..rows.len() {
        if components.is_new(place) {
            components.open_place(place)?;
            components.follow(rows)?;
        }
    }
    components.levels(alloc)
}
