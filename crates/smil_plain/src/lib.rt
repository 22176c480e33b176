//! The plain table of current intervals: every element is evaluated after each happening.
#![tactic(auto)]

mod plain;

pub use plain::{PlainCells, PlainTable};
