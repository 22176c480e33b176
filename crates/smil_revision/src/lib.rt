//! Edits that orders ask for, and whether they leave the references of a document as they were.
#![tactic(auto)]

mod copies;
mod references;
mod same;
mod values;

pub use copies::{with_child, with_value, without_name, without_node};
pub use references::{Revision, keeps_references};
pub use same::{agree_but_for_texts, are_alike_at, have_same_attrs};
pub use values::{Child, LineText, Setting};
