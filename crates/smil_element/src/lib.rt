//! One element of a presentation: its facts, its interval and what comes of it, given the intervals
//! of the others; and the group of entries that a happening appends.
#![tactic(auto)]

pub mod comings;
mod displaced;
pub mod endings;
pub mod evaluation;
pub mod expected;
pub mod facts;
mod frozen;
mod happening;
pub mod intervals;
pub mod outcome;
pub mod present;
mod spent;
pub mod subject;
pub mod view;

pub use comings::{DueChanges, is_same_comings};
pub use endings::{Ending, ending_at, ending_of, is_named, is_same_ending, walked_duration};
pub use evaluation::Room;
pub use happening::{Change, DueChange, Parts, group_of};
pub use intervals::{Container, Containers, Intervals};
pub use outcome::{Outcome, outcome_of};
pub use present::Present;
pub use subject::{Subject, subject_of};
pub use view::view_of;
