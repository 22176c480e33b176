//! What is shown of a presentation: views with their lines, intervals of the past, and values set.
#![tactic(auto)]

mod interval_teller;
mod intervals;
mod layers;
mod lines;
mod names;
mod same;
mod sets;
mod view_table;

pub use intervals::{Subject, put_intervals};
pub use lines::{Scene, name_of, put_all_gone, put_differences, put_view, put_views};
pub use sets::Sets;
pub use view_table::{ViewTable, view_in};
