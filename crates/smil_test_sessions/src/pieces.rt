//! Input that is read in pieces.

ghost use Rattle.std.specs.Prelude.{◌<◌};

use smil_model::Bytes;
use smil_outside::CHUNK_BYTES;
use smil_test_cases::{Fault, Words, number};
use std::alloc::Global;
use std::num::NonZeroUsize;

/// How many bytes may be written, where no option says so.
pub const ROOM: usize = 65_536;

/// An input in pieces, the room for its transcript, and the reads and writes that fail.
#[derive(Drop)]
pub struct Pieces {
    pub text: Bytes,
    pub chunk: usize,
    pub room: usize,
    pub reads: Vec<u32>,
    pub writes: Vec<u32>,
    ghost gives: { 0 < chunk },
}

impl Pieces {
    /// An empty input, and no call that fails.
    pub fn new(alloc: Global) -> Pieces {
        Pieces {
            text: Bytes::new(alloc),
            chunk: CHUNK_BYTES,
            room: ROOM,
            reads: Vec::new(alloc),
            writes: Vec::new(alloc),
        }
    }

    /// Sets an option.
    pub fn set(&mut self, alloc: Global, name: &str, value: &str) -> Result<(), Fault> {
        match name {
            "chunk" => self.chunk = number::<NonZeroUsize>(value)?.get(),
            "room" => self.room = number(value)?,
            "reads" => self.reads = numbers(alloc, value)?,
            "writes" => self.writes = numbers(alloc, value)?,
            _ => return Err(Fault::Refused),
        }
        Ok(())
    }

    /// Adds a line, with the end that its mark names.
    pub fn add(&mut self, mark: &str, text: &str) -> Result<(), Fault> {
        let line_end = match mark {
            "" => "\n",
            "crlf" => "\r\n",
            "open" => "",
            _ => return Err(Fault::Refused),
        };
        self.text.append(text.as_bytes())?;
        self.text.append(line_end.as_bytes())?;
        Ok(())
    }
}

// Numbers, one at least, with a comma between two: no word of a header is a space.
fn numbers(alloc: Global, word: &str) -> Result<Vec<u32>, Fault> {
    Words::of_word(word).values(alloc, " ", number::<u32>)
}
