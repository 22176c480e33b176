//! Laws of whom an entry concerns: all other elements keep their intervals. A function here has no
//! code: its contract is the law.
#![tactic(auto)]

pub mod laws;
