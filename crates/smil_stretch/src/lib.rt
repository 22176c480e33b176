//! The clocks of a document.
#![tactic(auto)]

pub mod clock;
pub mod clocks;
pub mod laws;
mod refresh;

pub use clock::{Clock, NodeClock};
pub use clocks::{ClockReadings, Clocks};
