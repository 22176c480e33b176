//! What bytes are read from.

ghost use Rattle.std.specs.Prelude.{◌≡◌, ℕ, ◌≤◌, List, Option, length, IsOk, IfOk, OnOk, OnErr};
ghost use Rattle.std.specs.Io.KnownBytes.{ReadConsumes};
ghost use Rattle.smil_outside.specs.Faults.{HasRisen};

use crate::failed::Failed;

/// Bytes that are read piece by piece, where each read may fail.
pub trait Source {
    /// The bytes that are left, where the source tells them.
    ghost rest: { Self → Option (List ℕ) };

    /// How often reading has failed. Only a failed read raises it, and at the largest `u64` it
    /// stands still.
    ghost faults: { Self → ℕ };

    /// That no read fails from here on. A source that doesn't tell leaves it out.
    ghost never_fails: { Self → Type 0 } = { λ _. ⊥ };

    /// Puts the next bytes at the front of `buf`, and answers how many. `Ok(0)` for a buffer that
    /// isn't empty is the end of the input. What stands in `buf` behind the bytes read, and after a
    /// fault, is unspecified. A failed read takes no bytes.
    fn read(&mut self, buf: &mut [u8]) -> Result<usize, Failed>
        ensures bound { IfOk result (λ n. n ≤ length buf.new) }
        ensures bytes { ReadConsumes (rest self.old) (rest self.new) result buf.new }
        ensures kept { OnOk result (faults self.new ≡ faults self.old) }
        ensures cause { OnErr result (HasRisen (faults self.old) (faults self.new)) }
        ensures sure { never_fails self.old → IsOk result × never_fails self.new };
}
