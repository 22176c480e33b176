//! A writer that keeps bytes until it is flushed.

use std::alloc::{AllocError, Global};
use std::io;
use std::io::Write;

// How many bytes are kept at most.
const KEPT_BYTES: usize = 65_536;

/// Keeps the bytes of writes until it is flushed, or until there are too many to keep, and writes
/// them together then. Bytes whose write has failed are not written again, and bytes that are kept
/// when it is dropped are never written.
#[derive(Drop)]
pub struct Batch<W: Write + Drop> {
    writer: W,
    kept: Vec<u8>,
}

impl<W: Write + Drop> Batch<W> {
    /// A writer over this one that keeps nothing yet. It takes the memory for what it keeps.
    pub fn new(alloc: Global, writer: W) -> Result<Batch<W>, AllocError> {
        Ok(Batch {
            writer,
            kept: Vec::with_capacity(alloc, KEPT_BYTES)?,
        })
    }

    // Writes what is kept. Afterwards nothing is, whether it could be written or not.
    fn hand_on(&mut self) -> io::Result<()> {
        let written = self.writer.write_all(&self.kept);
        self.kept.clear();
        written
    }
}

impl<W: Write + Drop> Write for Batch<W> {
    fn write(&mut self, piece: &[u8]) -> io::Result<usize> {
        if piece.len() > KEPT_BYTES.saturating_sub(self.kept.len()) {
            self.hand_on()?;
        }
        if piece.len() > KEPT_BYTES {
            return self.writer.write(piece);
        }
        self.kept.extend_from_slice(piece)?;
        Ok(piece.len())
    }

    fn flush(&mut self) -> io::Result<()> {
        self.hand_on()?;
        self.writer.flush()
    }
}
