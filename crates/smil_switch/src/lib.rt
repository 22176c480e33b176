//! Content selection: which lines of an outline are kept, by what a viewer prefers.
#![tactic(auto)]

pub mod choice;
pub mod chooser;
pub mod chosen;
pub mod laws;
pub mod preferences;
pub mod test_attributes;

pub use chooser::Chooser;
pub use chosen::Chosen;
pub use laws::choice_is_of_the_tree;
pub use preferences::Preferences;
