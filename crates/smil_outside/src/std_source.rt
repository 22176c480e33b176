//! A source over a reader of std.

ghost use Rattle.std.specs.Prelude.{◌≡◌, ◌≤◌, length, IfOk, OnOk, OnErr};
ghost use Rattle.std.specs.Io.KnownBytes.{ReadConsumes};
ghost use Rattle.smil_outside.specs.Faults.{HasRisen};
ghost use Rattle.smil_outside.specs.Std.{more_faults};

use crate::failed::Failed;
use crate::source::Source;
use std::io::Read;
use std::marker::Model;

/// What a reader gives. It tells the bytes that the reader tells, and counts the reader's errors.
#[derive(Drop)]
pub struct StdSource<R: Read + Drop> {
    reader: R,
    faults: u64,
}

impl<R: Read + Drop> Model for StdSource<R> {
    ghost use Rattle.smil_outside.specs.Std.{CountedBytes};

    ghost Value = { CountedBytes };

    ghost view = { λ s. record { bytes = R.remaining s.reader; faults = s.faults } };
}

impl<R: Read + Drop> StdSource<R> {
    /// A source over this reader, without a fault so far.
    pub fn new(reader: R) -> StdSource<R>
        ensures { result ≡ record { bytes = R.remaining reader; faults = 0 } }
    {
        StdSource { reader, faults: 0 }
    }
}

impl<R: Read + Drop> Source for StdSource<R> {
    ghost rest = { λ s. s.bytes };

    ghost faults = { λ s. s.faults };

    fn read(&mut self, buf: &mut [u8]) -> Result<usize, Failed>
        ensures bound { IfOk result (λ n. n ≤ length buf.new) }
        ensures bytes { ReadConsumes self.old.bytes self.new.bytes result buf.new }
        ensures kept { OnOk result (self.new.faults ≡ self.old.faults) }
        ensures cause { OnErr result (HasRisen self.old.faults self.new.faults) }
        ensures err { OnErr result (self.new.faults ≡ more_faults self.old.faults) }
    {
        match self.reader.read(buf) {
            Ok(n) => Ok(n),
            Err(_) => {
                self.faults = self.faults.saturating_add(1);
                Err(Failed)
            }
        }
    }
}
