//! Many presentations, each under its name.
#![tactic(auto)]

pub mod house;
pub mod player;
pub mod screen;

pub use house::House;
pub use player::Player;
pub use screen::{OnScreen, Showing};
