//! What a queue holds.

/// A child of an excl in its queue.
#[derive(Clone, Copy)]
pub struct QueuedChild {
    /// The serial of the child.
    pub who: u32,
    /// The place of its class among those of the excl, from 0; the first is the highest.
    pub rank: u32,
}
