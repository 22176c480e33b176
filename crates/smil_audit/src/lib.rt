//! The audit of a diary: whether it is that of its document, its log and its last moment.
#![tactic(auto)]

mod audit;
mod entries;
pub mod laws;
mod placed;
mod replay;

pub use audit::check;
