//! Laws of the timing model. A function here has no code: its contract is the law.
#![tactic(auto)]

pub mod courses;
pub mod firsts;
pub mod laws;
pub mod near;
pub mod resolved;
pub mod stays;
