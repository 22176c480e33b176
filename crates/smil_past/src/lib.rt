//! What has happened in a presentation so far, with all that is read off it: the plays of elements,
//! the queues of excls, the references that give a time before it has happened, and what evaluation
//! reads of attributes.
#![tactic(auto)]

mod chronicle;
mod document;
mod kept;
pub mod laws;
pub mod makeup;
pub mod past;
mod places;
pub mod plays;
mod queues;
pub mod readings;
pub mod syncs;

pub use makeup::{Makeup, ParentIndex};
pub use past::Past;
pub use plays::{PastInterval, PlayFacts, Plays};
pub use queues::{Queues, excl_above};
pub use readings::Readings;
pub use smil_model::Class;
pub use syncs::{Syncbase, Syncs};
