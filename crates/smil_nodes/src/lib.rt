//! The live table: after each happening only those elements are evaluated whose interval, or what
//! comes of them, may have changed.
#![tactic(auto)]

mod concerned;
mod due_tree;
mod endings;
mod followers;
pub mod live;
mod schedule;
mod sources;
mod undo;

pub use live::{LiveCells, LiveTable};
