//! The instance times that a diary alone gives, kept while entries are appended: what the times of
//! each item follow from, which items an entry concerns, which of these hear it, and what it gives
//! to them.
#![tactic(auto)]

mod additions;
mod arrival;
mod before;
mod carried;
mod contribution;
mod dependents;
mod dependents_row;
mod edge_times;
pub mod elements;
mod fill;
mod fresh;
mod history;
mod idle;
pub mod instances;
mod intake;
mod items;
mod keys;
pub mod laws;
mod noting;
mod occurrence;
mod remainder;
mod sensitivity;
mod source;
mod sources;
mod starts;
mod steps;
mod syncbase;

pub use dependents::Dependents;
pub use history::DocumentHistory;
pub use instances::Instances;
pub use source::Source;
pub use sources::{element_named, element_of, parent_of};
pub use steps::{key, subject};
pub use syncbase::Syncbase;
