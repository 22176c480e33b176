//! What is due first: the order of keys, the least of many, and an ordered set of keys.
#![tactic(auto)]

mod due;
mod laws;
mod order;
mod queue;
mod scan;

pub use laws::{
    keys_have_serials, order_is_irreflexive, order_is_total, order_is_transitive, queue_keeps_order,
};
pub use order::comes_before;
pub use queue::DueQueue;
pub use scan::least_scan;
pub use smil_model::Key;
