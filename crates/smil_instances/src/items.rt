//! Items of begin and end lists, with the elements to which they belong.

use super::source::Source;
use smil_instance_rows::Cell;
use smil_model::{Edge, Item};

/// An item of the begin or end list of the element with the serial `who`.
#[derive(Clone, Copy)]
pub struct ListItem<'a> {
    pub who: u32,
    pub side: Edge,
    pub item: &'a Item,
}

/// The cell of an item, with the serial of its element and the item's source.
#[derive(Clone, Copy)]
pub struct CellItem {
    pub cell: Cell,
    pub who: u32,
    pub source: Source,
}
