//! Where an instance time stands among all elements.

use super::item_times::InstanceTime;
use smil_model::Edge;
use std::alloc::Global;
use std::default::MadeWith;

/// An item of an element: the index of the element's row, the side, and the item's index there.
#[derive(Clone, Copy)]
pub struct Cell {
    pub row: usize,
    pub side: Edge,
    pub item: usize,
}

impl MadeWith<Global> for Cell {
    fn made_with(_alloc: Global) -> Cell {
        Cell {
            row: 0,
            side: Edge::Begin,
            item: 0,
        }
    }
}

/// An instance time to be added to an item.
#[derive(Clone, Copy)]
pub struct Add {
    pub cell: Cell,
    pub kept: InstanceTime,
}
