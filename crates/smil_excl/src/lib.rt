//! SMIL's excl: what is done when another child begins, and the queue of its paused and deferred
//! children.
#![tactic(auto)]

mod decision;
pub mod laws;
mod queue;
mod queued_child;

pub use decision::decide;
pub use queue::Queue;
pub use queued_child::QueuedChild;
pub use smil_model::{Act, Class};
