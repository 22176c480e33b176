//! Copies where there is memory.

ghost use Rattle.std.specs.Prelude.{◌≡◌, IfOk};

use std::alloc::AllocError;

/// A value that can be copied where there is memory.
pub trait Duplicate: Drop {
    /// A copy, which is the same value, unless memory runs out. The original stays.
    fn copy(&self) -> Result<Self, AllocError>
        ensures { IfOk result (λ copy. copy ≡ self.now) };
}

impl<T: Copy> Duplicate for T {
    fn copy(&self) -> Result<Self, AllocError> {
        Ok(*self)
    }
}

/// A copy of a value that may be absent, unless memory runs out. The original stays.
pub fn copy_of<T: Duplicate>(value: &Option<T>) -> Result<Option<T>, AllocError>
    ensures { IfOk result (λ copy. copy ≡ value.now) }
{
    match value {
        Some(value) => Ok(Some(value.copy()?)),
        None => Ok(None),
    }
}
