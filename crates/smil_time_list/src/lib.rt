//! Begin and end lists, read and written.
#![tactic(auto)]

pub mod again;
pub mod items;
pub mod lists;
pub mod offsets;
pub mod spellings;

pub use lists::read_list;
pub use smil_grammar::{ItemFault, ListFault};
pub use spellings::write_list;
