//! Laws of wall clock items: what is read in the place of an item that was rewritten, and what time
//! it gives. A function here has no code: its contract is the law.
#![tactic(auto)]

pub mod references;
pub mod rewritten;
