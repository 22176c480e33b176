//! Input that is read line by line.

use smil_model::{Bytes, GrowingList};
use smil_test_cases::{Fault, number};
use std::alloc::Global;

/// An input of which each line waits for the answers before it, and so does its end.
#[derive(Drop)]
pub struct Turns {
    pub lines: GrowingList<Turn>,
    /// How many bytes of answers are taken when the input ends.
    pub answered: usize,
}

/// A line with its end.
#[derive(Drop)]
pub struct Turn {
    pub text: Bytes,
    /// How many bytes of answers are taken when the line is given.
    pub answered: usize,
}

impl Turns {
    /// An input without a line.
    pub fn new(alloc: Global) -> Turns {
        Turns {
            lines: GrowingList::new(alloc),
            answered: 0,
        }
    }

    /// Adds a line, whose mark says how many bytes are taken when it is given.
    pub fn add(&mut self, alloc: Global, mark: &str, text: &str) -> Result<(), Fault> {
        let answered = number(mark)?;
        let mut line = Bytes::of(alloc, text.as_bytes())?;
        line.push(b'\n')?;
        self.lines.push(Turn {
            text: line,
            answered,
        })?;
        Ok(())
    }

    /// Ends the input, once so many bytes are taken.
    pub fn end(&mut self, behind: &str) -> Result<(), Fault> {
        self.answered = number(behind)?;
        Ok(())
    }
}
