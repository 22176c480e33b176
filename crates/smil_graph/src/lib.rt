//! Which elements' times follow from which, which references are looped, and in what order to take
//! the elements.
#![tactic(auto)]

mod alike;
mod components;
mod feeders;
mod followers;
mod graph;
mod levels;
mod looped;
mod near;
mod ordered;
mod outline;
mod places;
mod row;
mod search;
mod short_list;
mod stack;
mod tables;
mod turned;
mod waiting;

pub use alike::{are_alike, is_alike};
pub use graph::{Graph, Revised};
