//! What the readers and writers of all formats share: a cursor over bytes, numbers, runs and texts.
#![tactic(auto)]

pub mod cursor;
pub mod numbers;
pub mod runs;
pub mod texts;
pub mod utf8;
pub mod writers;

pub use cursor::Cursor;
pub use smil_grammar::BadAt;
