//! A sink that tells how much it has taken.

use smil_outside::{Failed, MemSink, Sink};
use std::cell::Cell;

/// A sink over memory that tells after each write how many bytes it has taken.
#[derive(Drop)]
pub struct ReportingSink<'a> {
    pub sink: MemSink,
    pub taken: &'a Cell<usize>,
}

impl Sink for ReportingSink<'_> {
    ghost use Rattle.std.proofs.Common.{rules};
    ghost use Rattle.std.specs.Prelude.{Some};

    ghost taken = { λ s. Some s.sink.taken };

    ghost faults = { λ s. s.sink.plan.faults };

    fn write(&mut self, piece: &[u8]) -> Result<usize, Failed> {
        let len = self.sink.write(piece)?;
        self.taken.set(self.sink.bytes().len());
        Ok(len)
    }

    fn hand_on(&mut self) -> Result<(), Failed> {
        self.sink.hand_on()
    }

    ghost unsure = { Prim.search rules };
}
