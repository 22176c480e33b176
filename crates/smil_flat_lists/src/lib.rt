//! Many lists of values, one behind the other.
#![tactic(auto)]

mod flat_lists;

pub use flat_lists::FlatLists;
