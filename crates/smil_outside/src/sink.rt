//! What bytes are written to.

ghost use Rattle.std.specs.Prelude.{◌≡◌, ℕ, ◌+◌, ◌<◌, ◌≤◌, List, Option, None, Bool, true, false, length, take, IsOk, IfOk, OnOk, OnErr};
ghost use Rattle.std.specs.Io.KnownBytes.{Appends, WriteAppends};
ghost use Rattle.smil_outside.specs.Faults.{HasRisen};

use crate::failed::Failed;

/// Takes bytes piece by piece, where each write may fail.
pub trait Sink {
    /// The bytes that were taken, where the sink tells them.
    ghost taken: { Self → Option (List ℕ) };

    /// How often writing has failed. Only a failed write raises it, and at the largest `u64` it
    /// stands still.
    ghost faults: { Self → ℕ };

    /// How many bytes are taken from here on without a fault. A sink that doesn't tell leaves it
    /// out.
    ghost sure_room: { Self → ℕ } = { λ _. 0 };

    /// Whether it may keep bytes back until `hand_on`. A sink that doesn't leaves it out.
    ghost keeps_back: { Bool } = { false };

    /// Takes the first bytes of `piece`, and answers how many: at least one where there is one. A
    /// failed write takes no bytes.
    fn write(&mut self, piece: &[u8]) -> Result<usize, Failed>
        ensures bound { IfOk result (λ n. n ≤ length piece.now) }
        ensures progress { IfOk result (λ n. 0 < length piece.now → 0 < n) }
        ensures bytes { WriteAppends (taken self.old) (taken self.new) result piece.now }
        ensures kept { OnOk result (faults self.new ≡ faults self.old) }
        ensures cause { OnErr result (HasRisen (faults self.old) (faults self.new)) }
        ensures sure { 0 < length piece.now → length piece.now ≤ sure_room self.old → IsOk result }
        ensures room { IfOk result (λ n. sure_room self.old ≤ sure_room self.new + n) };

    /// Hands on what it has kept back. It takes no bytes, and fails only where it may keep some
    /// back.
    fn hand_on(&mut self) -> Result<(), Failed>
        ensures bytes { OnOk result (taken self.new ≡ taken self.old) }
        ensures room { OnOk result (sure_room self.old ≤ sure_room self.new) }
        ensures kept { OnOk result (faults self.new ≡ faults self.old) }
        ensures cause { OnErr result (HasRisen (faults self.old) (faults self.new)) }
        ensures err { OnErr result (keeps_back ≡ true) };

    /// A sink that may keep bytes back tells none, and is sure of no room: a law for proofs.
    ghost unsure: { (s : Self) → keeps_back ≡ true → (taken s ≡ None) × (sure_room s ≡ 0) };
}

/// Writes all the bytes, piece by piece. After a fault the sink has taken a part from the front of
/// them, and not all.
pub fn write_all<K: Sink>(sink: &mut K, bytes: &[u8]) -> Result<(), Failed>
    ensures ok { OnOk result (Appends (K.taken sink.old) (K.taken sink.new) bytes.now) }
    ensures err { OnErr result ((n : ℕ) × (n < length bytes.now)
        × Appends (K.taken sink.old) (K.taken sink.new) (take n bytes.now)) }
    ensures kept { OnOk result (K.faults sink.new ≡ K.faults sink.old) }
    ensures cause { OnErr result (HasRisen (K.faults sink.old) (K.faults sink.new)) }
    ensures sure { length bytes.now ≤ K.sure_room sink.old → IsOk result }
    ensures room { OnOk result (K.sure_room sink.old ≤ K.sure_room sink.new + length bytes.now) }
{
    let mut rest = bytes;
    while !rest.is_empty() {
        let n = sink.write(rest)?;
        rest = &rest[n..];
    }
    Ok(())
}

/// Writes all the bytes, and has what was kept back handed on, if there are any bytes. After a fault
/// the sink has taken a part from the front of them, and not all, where it tells what it takes.
pub fn write_out<K: Sink>(sink: &mut K, bytes: &[u8]) -> Result<(), Failed>
    ensures ok { OnOk result (Appends (K.taken sink.old) (K.taken sink.new) bytes.now) }
    ensures err { OnErr result ((n : ℕ) × (n < length bytes.now)
        × Appends (K.taken sink.old) (K.taken sink.new) (take n bytes.now)) }
    ensures kept { OnOk result (K.faults sink.new ≡ K.faults sink.old) }
    ensures cause { OnErr result (HasRisen (K.faults sink.old) (K.faults sink.new)) }
    ensures sure { length bytes.now ≤ K.sure_room sink.old → IsOk result }
    ensures room { OnOk result (K.sure_room sink.old ≤ K.sure_room sink.new + length bytes.now) }
{
    write_all(sink, bytes)?;
    if bytes.is_empty() {
        return Ok(());
    }
    sink.hand_on()
}
