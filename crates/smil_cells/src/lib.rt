//! Cells: a presentation under way, resolved moment by moment, over any table of current intervals.
#![tactic(auto)]

pub mod cells;
mod entries;
mod named;
mod order;
pub mod table;
mod touched;

pub use cells::Cells;
pub use table::{Since, Table};
