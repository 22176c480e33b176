//! Laws of the plain texts of a document, on which no time depends. A function here has no code:
//! its contract is the law.
#![tactic(auto)]

pub mod laws;
