//! A document that is read and edited in place.
#![tactic(auto)]

mod fault;
mod ids;
mod kin;
mod nodes;
mod outline;
mod references;
mod tree;

pub use fault::TreeFault;
pub use nodes::Walk;
pub use smil_model::{Attr, AttrName};
pub use tree::Tree;
