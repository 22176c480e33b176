//! The text of an answer, made whole before it is written.

ghost use Rattle.std.specs.Prelude.{◌≡◌, ◌↔◌, ◌<◌, ◌≤◌, length, min, IsTrue};
ghost use Rattle.smil_outside.specs.Faults.{last_count};
ghost use Rattle.smil_top.specs.Running.{CountsFaults, Writes, finished, no_text, text_of};
ghost use Rattle.smil_top.specs.Summary.{line_count};

use super::fault::Fault;
use super::last_line::LastLine;
use smil_model::Bytes;
use smil_outside::{Failed, Sink, write_all};
use std::alloc::Global;

/// The most bytes that are counted at a time, so that the count fits a byte.
const CHUNK: usize = 255;

/// The answer to an order: what it tells, and its last line.
#[derive(Drop)]
pub(crate) struct Answer {
    pub told: Bytes,
    pub last: LastLine,
}

impl Answer {
    /// No text, for which no memory is taken.
    pub fn new(alloc: Global) -> Answer
        ensures { result ≡ no_text }
    {
        Answer {
            told: Bytes::new(alloc),
            last: LastLine::none(),
        }
    }

    /// Drops the text, and keeps its memory.
    pub fn clear(&mut self)
        ensures { self.new ≡ no_text }
    {
        self.told.cut_back(0);
        self.last.clear();
    }

    /// Where the order was refused, puts the line of the refusal in place of the text.
    pub fn finish(&mut self, answered: &Result<(), Fault>)
        ensures { self.new ≡ finished answered.now self.old }
    {
        if let Err(fault) = answered {
            self.told.cut_back(0);
            self.last = LastLine::refused(fault.line, &fault.refusal);
        }
    }

    /// Whether there is a text.
    pub fn has_text(&self) -> bool
        ensures { IsTrue result ↔ (0 < length (text_of self.now)) }
    {
        !self.told.slice().is_empty() || !self.last.slice().is_empty()
    }

    /// How many lines the text has, up to the greatest number.
    pub fn lines(&self) -> u64
        ensures { result ≡ min (line_count (text_of self.now)) last_count }
    {
        let told = line_feeds(self.told.slice());
        told.saturating_add(line_feeds(self.last.slice()))
    }

    /// Writes the text, at once where there is memory for it. After a fault the sink has taken a
    /// part from the front of it, and not all.
    pub fn write<K: Sink>(&mut self, sink: &mut K) -> Result<(), Failed>
        ensures answer { self.new ≡ self.old }
        ensures writes { Writes result (K.taken sink.old) (K.taken sink.new) (K.sure_room sink.old)
            (K.sure_room sink.new) (text_of self.old) }
        ensures faults { CountsFaults result (K.faults sink.old) (K.faults sink.new) }
    {
        let len = self.told.len();
        if self.told.append(self.last.slice()).is_err() {
            return self.write_apart(sink);
        }
        let written = write_all(sink, self.told.slice());
        self.told.cut_back(len);
        written
    }

    // Writes what is told, and then the last line.
    fn write_apart<K: Sink>(&self, sink: &mut K) -> Result<(), Failed>
        ensures writes { Writes result (K.taken sink.old) (K.taken sink.new) (K.sure_room sink.old)
            (K.sure_room sink.new) (text_of self.now) }
        ensures faults { CountsFaults result (K.faults sink.old) (K.faults sink.new) }
    {
        write_all(sink, self.told.slice())?;
        write_all(sink, self.last.slice())
    }
}

// How many line feeds stand in a text, which is counted in chunks whose counts fit a byte.
#[inline(never)]
fn line_feeds(text: &[u8]) -> u64
    ensures { result ≡ line_count text.now }
{
    let mut lines = 0;
    let mut rest = text;
    while !rest.is_empty() {
        let (chunk, behind) = rest.split_at(rest.len().min(CHUNK));
        lines += u64::from(line_feeds_in(chunk));
        rest = behind;
    }
    lines
}

// How many line feeds stand in a chunk.
fn line_feeds_in(chunk: &[u8]) -> u8
    requires { length chunk.now ≤ 255 }
    ensures { result ≡ line_count chunk.now }
{
    let mut lines = 0;
    for byte in chunk {
        lines += u8::from(*byte == b'\n');
    }
    lines
}
