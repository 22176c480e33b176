//! The sandwich of set values: which set gives an attribute its value.
#![tactic(auto)]

pub mod laws;
pub mod sandwich;

pub use sandwich::Sandwich;
