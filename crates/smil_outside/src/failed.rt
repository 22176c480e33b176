//! The fault of a read or a write.

/// A read or a write failed. The count of faults of the source or the sink says so too.
#[derive(Clone, Copy, Debug, PartialEq, Eq)]
pub struct Failed;
