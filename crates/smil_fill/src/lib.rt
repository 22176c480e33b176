//! What is shown of an element: its view, by its facts.
#![tactic(auto)]

mod states;
mod views;

pub use smil_model::ViewFacts;
pub use views::{CurrentFacts, active_view, unplayed_view, view};
