//! Why an edit is refused.

ghost use Rattle.std.specs.Prelude.{◌≡◌};
ghost use Rattle.smil_tree.specs.declared.fault.TreeFault.TheVariants as tree_fault;

use smil_model::Refusal;
use std::alloc::AllocError;
use thiserror::Error;

/// Why an edit of a tree is refused.
#[derive(Clone, Copy, Debug, PartialEq, Eq, Error)]
pub enum TreeFault {
    /// The node would have depth 32, the root having depth 0.
    #[error("too deep")]
    TooDeep,
    /// The place is not from 1 to the number of children plus 1, or a node of this kind may not
    /// stand there.
    #[error("a node of this kind may not stand there")]
    BadPlace,
    /// Another node has the id.
    #[error("another node has the id")]
    DuplicateId,
    /// There would be more than 8,000 nodes, or no serial is left.
    #[error("too many elements")]
    TooManyElements,
    /// More than 32,000 items would refer to an element, an event or an access key.
    #[error("too many references")]
    TooManyReferences,
    /// The root is to be removed.
    #[error("the root stays")]
    Root,
    /// Memory ran out.
    #[error("out of memory")]
    Memory,
}

impl From<AllocError> for TreeFault {
    ghost from_gives = { λ _ fault. fault ≡ tree_fault.Memory };

    fn from(_: AllocError) -> TreeFault {
        TreeFault::Memory
    }
}

impl From<TreeFault> for Refusal {
    ghost use Rattle.smil_tree.specs.Refusals.{of_tree};

    ghost from_gives = { λ fault refusal. refusal ≡ of_tree fault };

    fn from(fault: TreeFault) -> Self {
        match fault {
            TreeFault::TooDeep => Refusal::TooDeep,
            TreeFault::BadPlace => Refusal::BadPlace,
            TreeFault::DuplicateId => Refusal::DuplicateId,
            TreeFault::TooManyElements => Refusal::TooManyElements,
            TreeFault::TooManyReferences => Refusal::TooManyReferences,
            TreeFault::Root => Refusal::Root,
            TreeFault::Memory => Refusal::Memory,
        }
    }
}
