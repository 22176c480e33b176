//! A sink over a writer of std.

ghost use Rattle.std.specs.Prelude.{◌≡◌, ℕ, ◌<◌, ◌≤◌, None, refl, true, length, take, IfOk, OnOk, OnErr};
ghost use Rattle.std.specs.Io.KnownBytes.{Appends, Keeps, WriteAppends};
ghost use Rattle.smil_outside.specs.Faults.{HasRisen};
ghost use Rattle.smil_outside.specs.Std.{more_faults};

use crate::failed::Failed;
use crate::sink::Sink;
use std::io::Write;
use std::marker::Model;

/// Hands bytes to a writer, which may keep them until it is flushed: `hand_on` flushes it. It counts
/// the writer's errors and the writes that take nothing of a piece. As a sink it tells no bytes,
/// since a flush may fail after the writer took some; its own clauses tell those of a writer that
/// tells them.
#[derive(Drop)]
pub struct StdSink<W: Write + Drop> {
    writer: W,
    faults: u64,
}

impl<W: Write + Drop> Model for StdSink<W> {
    ghost use Rattle.smil_outside.specs.Std.{CountedBytes};

    ghost Value = { CountedBytes };

    ghost view = { λ s. record { bytes = W.contents s.writer; faults = s.faults } };
}

impl<W: Write + Drop> StdSink<W> {
    /// A sink over this writer, without a fault so far.
    pub fn new(writer: W) -> StdSink<W>
        ensures { result ≡ record { bytes = W.contents writer; faults = 0 } }
    {
        StdSink { writer, faults: 0 }
    }
}

impl<W: Write + Drop> Sink for StdSink<W> {
    ghost taken = { λ _. None };

    ghost faults = { λ s. s.faults };

    ghost keeps_back = { true };

    fn write(&mut self, piece: &[u8]) -> Result<usize, Failed>
        ensures bound { IfOk result (λ n. n ≤ length piece.now) }
        ensures progress { IfOk result (λ n. 0 < length piece.now → 0 < n) }
        ensures bytes { WriteAppends None None result piece.now }
        ensures taken { IfOk result
            (λ n. Appends self.old.bytes self.new.bytes (take n piece.now)) }
        ensures part { OnErr result ((n : ℕ) × (n ≤ length piece.now)
            × Appends self.old.bytes self.new.bytes (take n piece.now)) }
        ensures kept { OnOk result (self.new.faults ≡ self.old.faults) }
        ensures cause { OnErr result (HasRisen self.old.faults self.new.faults) }
        ensures err { OnErr result (self.new.faults ≡ more_faults self.old.faults) }
    {
        if let Ok(n) = self.writer.write(piece)
            && (n > 0 || piece.is_empty())
        {
            return Ok(n);
        }
        self.faults = self.faults.saturating_add(1);
        Err(Failed)
    }

    fn hand_on(&mut self) -> Result<(), Failed>
        ensures taken { OnOk result (Keeps self.old.bytes self.new.bytes) }
        ensures kept { OnOk result (self.new.faults ≡ self.old.faults) }
        ensures cause { OnErr result (HasRisen self.old.faults self.new.faults) }
        ensures err { OnErr result (self.new.faults ≡ more_faults self.old.faults) }
    {
        match self.writer.flush() {
            Ok(()) => Ok(()),
            Err(_) => {
                self.faults = self.faults.saturating_add(1);
                Err(Failed)
            }
        }
    }

    ghost unsure = { λ s back. (refl, refl) };
}
