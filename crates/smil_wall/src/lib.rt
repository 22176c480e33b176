//! Instants of the wall clock, and lines whose items name them, rewritten to offsets from the
//! root's begin.
#![tactic(auto)]

pub mod fault;
pub mod instants;
pub mod items;
pub mod rewriting;
pub mod roots;

pub use fault::{Bad, WallFault};
pub use instants::read_instant;
pub use rewriting::rewrite;
pub use roots::anchor;
