//! Outlines, read line by line and written.
#![tactic(auto)]

mod again;
mod branch;
mod builder;
mod ids;
mod nodes;
mod refusals;
mod writer;

pub use again::{
    attrs_fit, outline_again, outline_lines, outline_valid, outlines_migrate, saved_again,
};
pub use branch::Branch;
pub use builder::Builder;
pub use writer::{put_next, write_doc, write_doc_2};
