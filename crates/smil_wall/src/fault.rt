//! What is at fault with instants and wall clock items. Places are counted in bytes from 0.

ghost use Rattle.std.specs.Prelude.{◌≡◌};
ghost use Rattle.smil_wall.specs.declared.fault.WallFault.TheVariants as wall_fault;

use std::alloc::AllocError;

/// A text has no reading as an instant.
#[derive(Clone, Copy)]
pub struct Bad;

/// Why a line isn't rewritten.
#[derive(Clone, Copy)]
pub enum WallFault {
    /// It has a wall clock item, and the root has no id or has a `begin`.
    NoAnchor,
    /// An item has no reading, or lies more than 10^12 milliseconds from the start.
    BadValue { place: usize },
    /// An item is a time without a date.
    Unsupported { place: usize },
    /// There is no memory for the line.
    Memory,
}

impl From<AllocError> for WallFault {
    ghost from_gives = { λ _ fault. fault ≡ wall_fault.Memory };

    fn from(_: AllocError) -> WallFault {
        WallFault::Memory
    }
}
