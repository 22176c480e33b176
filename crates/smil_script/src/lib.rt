//! Script lines, as they are read.
#![tactic(auto)]

mod entries;
mod last_order;
mod lines;
mod orders;
mod piece;
mod verbs;
mod words;

pub use entries::{DiaryLine, VALUE_DIGITS, read_diary_line};
pub use last_order::LastOrder;
pub use lines::{ends_load, is_blank, opens_load, read_line};
pub use smil_grammar::Read;
pub use words::{attribute, event_name};
