//! A source that waits for answers.

use super::turns::{Turn, Turns};
use smil_outside::{Failed, Source};
use std::cell::Cell;

/// Gives a line at a read, if as many bytes of answers were taken as the line says. Otherwise the
/// read fails.
#[derive(Drop)]
pub struct WaitingSource<'a> {
    lines: &'a [Turn],
    answered_at_end: usize,
    // What is left of a line that didn't fit a read.
    left: &'a [u8],
    taken: &'a Cell<usize>,
    faults: u64,
}

impl<'a> WaitingSource<'a> {
    /// The source of an input, which looks up how many bytes were taken.
    pub fn new(turns: &'a Turns, taken: &'a Cell<usize>) -> WaitingSource<'a> {
        WaitingSource {
            lines: turns.lines.slice(),
            answered_at_end: turns.answered,
            left: &[],
            taken,
            faults: 0,
        }
    }
}

impl Source for WaitingSource<'_> {
    ghost use Rattle.std.specs.Prelude.{None};

    ghost rest = { λ _. None };

    ghost faults = { λ s. s.faults };

    fn read(&mut self, buf: &mut [u8]) -> Result<usize, Failed> {
        if self.left.is_empty() {
            let answered = match self.lines.first() {
                Some(turn) => turn.answered,
                None => self.answered_at_end,
            };
            if self.taken.get() != answered {
                self.faults = self.faults.saturating_add(1);
                return Err(Failed);
            }
            if let Some((turn, lines)) = self.lines.split_first() {
                self.left = turn.text.slice();
                self.lines = lines;
            }
        }
        let len = self.left.len().min(buf.len());
        let (piece, left) = self.left.split_at(len);
        buf[..len].copy_from_slice(piece);
        self.left = left;
        Ok(len)
    }
}
