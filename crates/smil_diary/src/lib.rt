//! The diary of a presentation, and what it says of each element.
#![tactic(auto)]

pub mod book;
mod element;
pub mod fault;
mod index;
mod places;
mod subject;
mod tally;

pub use book::Book;
pub use fault::BookFault;
pub use places::{is_from, later_of};
pub use smil_model::StepKind;
