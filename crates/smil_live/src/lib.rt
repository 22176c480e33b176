//! Presentations that answer every order, over cells of any table.
#![tactic(auto)]

mod edits;
mod laws;
mod moves;
mod outlines;
mod presentation;
mod replay;
mod screen;
mod tells;
mod viewer;
mod worked;

pub use laws::{records_are_lines, seek_back_keeps_diary};
pub use presentation::{Presentation, PresentationOver};
pub use worked::worked_counts;
