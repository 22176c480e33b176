//! The sessions that the program can write for itself.
#![tactic(auto)]

pub mod session;

pub use session::session_bytes;
