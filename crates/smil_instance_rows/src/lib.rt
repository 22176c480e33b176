//! Rows of instance times: for each element, side and item the times that are kept, and for each
//! side their values in rising order.
#![tactic(auto)]

pub mod adds;
pub mod cell;
mod copies;
pub mod instant;
mod item_lists;
mod item_times;
pub mod notes;
pub mod row;
pub mod rows;
mod short_queue;
mod side;
mod sorted;

pub use adds::{add_each, undo_each};
pub use cell::{Add, Cell};
pub use copies::copy_each;
pub use instant::Instant;
pub use item_times::InstanceTime;
pub use notes::RowNotes;
pub use row::InstanceRow;
pub use rows::Rows;
pub use sorted::put_in;
