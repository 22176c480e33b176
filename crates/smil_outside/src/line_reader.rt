//! The lines of what a source gives.

ghost use Rattle.std.specs.Prelude.{◌≡◌, ◌≢◌, ◌↔◌, ◌⊎◌, ◌+◌, ◌<◌, ◌≤◌, ℕ, [], false, length, take, drop, slice_index, IfOk, IfSome, IsNone, IsTrue};
ghost use Rattle.std.specs.Str.Lines.{strip_carriage_return};
ghost use Rattle.smil_outside.specs.Faults.{HasRisen};
ghost use Rattle.smil_model.specs.document.Words.{line_feed};

use crate::line::{Ending, INPUT_BYTES, Line};
use crate::scan::{Stop, seek_line_end};
use crate::source::Source;
use crate::window::Window;
use smil_model::LINE_BYTES;
use std::alloc::{AllocError, Global};
use std::marker::Model;

/// Reads lines from a source, through a buffer of fixed size.
///
/// A line ends at a line feed, and one carriage return before it is dropped. A last line without a
/// line feed counts if it isn't empty.
#[derive(Drop)]
pub struct LineReader {
    window: Window,
    // How many bytes came.
    taken: usize,
    number: u32,
    closed: Option<Ending>,
}

impl Model for LineReader {
    ghost use Rattle.smil_outside.specs.Reader.{reading_in, IsReader};
    ghost use Rattle.smil_outside.specs.ReaderState.{ReaderState};

    ghost Value = { ReaderState };

    ghost view = { reading_in };

    ghost invariant = { IsReader };
}

impl LineReader {
    ghost use Rattle.smil_outside.specs.ReaderState.{Reads, answer_of, fresh_reading};

    /// A reader that has read nothing. It takes the memory for its buffer.
    pub fn new(alloc: Global) -> Result<LineReader, AllocError>
        ensures { IfOk result (λ reader. reader ≡ fresh_reading) }
    {
        Ok(LineReader {
            window: Window::new(alloc)?,
            taken: 0,
            number: 0,
            closed: None,
        })
    }

    /// The last line, without its line feed and the carriage return before it. It is empty after an
    /// answer other than `Line::Bytes`.
    pub fn bytes(&self) -> &[u8]
        ensures { result.now ≡ self.now.line }
    {
        self.window.line()
    }

    /// The number, from 1, of the last line answered as `Line::Bytes` or `Line::LongLine`, or 0.
    pub fn number(&self) -> u32
        ensures value { result ≡ self.now.number }
        ensures bound { result ≤ INPUT_BYTES }
    {
        self.number
    }

    /// Whether a whole line has come that wasn't answered yet, so that `next` answers it without a
    /// read. It takes no memory.
    pub fn has_line(&self) -> bool
        ensures { IsTrue result ↔ ((at : ℕ) × (at < length self.now.pending)
            × (slice_index self.now.pending at ≡ line_feed)) }
    {
        self.window.line_feed(0).is_some()
    }

    /// The next line, or how the input ended. It takes no memory, and offers the source a room of
    /// at least 4,096 bytes at each read.
    pub fn next<S: Source>(&mut self, source: &mut S) -> Line
        // Once the input has ended, the same answer comes again, and nothing is read.
        ensures again { IfSome self.old.closed (λ ending. (result ≡ answer_of ending)
            × (self.new ≡ record self.old { line = [] }) × (source.new ≡ source.old)) }
        ensures reads { IsNone self.old.closed
            → Reads self.old self.new result (S.rest source.old) (S.rest source.new) }

        // Only a read that failed counts as a fault.
        ensures kept { result ≢ Line.ReadFault → S.faults source.new ≡ S.faults source.old }
        ensures cause { result ≡ Line.ReadFault → IsNone self.old.closed
            → HasRisen (S.faults source.old) (S.faults source.new) }
        ensures sure { S.never_fails source.old → S.never_fails source.new
            × (IsNone self.old.closed → result ≢ Line.ReadFault) }
        ensures bound { self.new.number ≤ INPUT_BYTES }
    {
        self.window.cut(0, 0);
        if let Some(ending) = self.closed {
            return ending.answer();
        }
        let scan = seek_line_end(&mut self.window, &mut self.taken, source);
        match scan.stop {
            Stop::LineFeed(at) => {
                let len = content_len(&self.window.bytes()[..at]);
                self.answer_line(len, at + 1, scan.is_long)
            }
            Stop::InputEnd => {
                let len = self.window.bytes().len();
                if len == 0 {
                    return self.close(Ending::End);
                }
                self.closed = Some(Ending::End);
                self.answer_line(len, len, scan.is_long)
            }
            Stop::InputTooLong => self.close(Ending::InputTooLong),
            Stop::Fault => self.close(Ending::ReadFault),
        }
    }

    // Answers a line of `len` bytes, which covers the first `covers` of those that are pending.
    fn answer_line(&mut self, len: usize, covers: usize, is_long: bool) -> Line
        requires line { len ≤ covers }
        requires some { 0 < covers }
        requires within { covers ≤ length self.old.pending }
        ensures long { IsTrue is_long ⊎ (LINE_BYTES < len) → (result ≡ Line.LongLine)
            × (self.new ≡ record self.old {
              pending = drop covers self.old.pending;
              line = [];
              number = self.old.number + 1;
            }) }
        ensures short { is_long ≡ false → len ≤ LINE_BYTES → (result ≡ Line.Bytes)
            × (self.new ≡ record self.old {
              pending = drop covers self.old.pending;
              line = take len
                  self.old.pending;
              number = self.old.number + 1;
            }) }
        ensures bound { self.new.number ≤ INPUT_BYTES }
    {
        self.number += 1;
        if is_long || len > LINE_BYTES {
            self.window.cut(0, covers);
            return Line::LongLine;
        }
        self.window.cut(len, covers);
        Line::Bytes
    }

    // Ends the reading, and drops what is pending.
    fn close(&mut self, ending: Ending) -> Line
        ensures answer { result ≡ answer_of ending }
        ensures after { self.new
            ≡ record self.old { pending = []; line = []; closed = Some ending } }
    {
        let len = self.window.bytes().len();
        self.window.cut(0, len);
        self.closed = Some(ending);
        ending.answer()
    }
}

// How many bytes a line has, without a carriage return at its end.
fn content_len(line: &[u8]) -> usize
    ensures bound { result ≤ length line.now }
    ensures value { take result line.now ≡ strip_carriage_return line.now }
{
    match line.split_last() {
        Some((b'\r', front)) => front.len(),
        _ => line.len(),
    }
}
