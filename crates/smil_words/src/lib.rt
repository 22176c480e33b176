//! The words that the program is called with.
#![tactic(auto)]

pub mod mode;

pub use mode::{Mode, Words, read_words};
