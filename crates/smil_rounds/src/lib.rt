//! A round of a resolution: the row of each element, with its current interval and what comes of it;
//! what comes first, by its key; and the group of that, appended.
#![tactic(auto)]

pub mod current_rows;
pub mod groups;
