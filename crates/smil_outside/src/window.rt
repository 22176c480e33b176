//! A buffer of fixed size between a source and the lines.

ghost use Rattle.std.specs.Prelude.{◌≡◌, ◌≢◌, ℕ, ◌+◌, ◌-◌, ◌<◌, ◌≤◌, List, [], ◌++◌, length, take, drop, slice_index, slice_range, EachIndex, MatchOption, IsOk, IfOk, OnOk, OnErr};
ghost use Rattle.std.specs.Io.KnownBytes.{Consumes, IsAtEnd, Keeps};
ghost use Rattle.smil_outside.specs.Faults.{HasRisen};
ghost use Rattle.smil_model.specs.document.Words.{line_feed};

use crate::failed::Failed;
use crate::source::Source;
use memchr::memchr;
use std::alloc::{AllocError, Global};
use std::marker::Model;

/// How many bytes the buffer has.
pub(crate) const WINDOW_BYTES: usize = 65_536;

// The least room that a read offers.
const READ_ROOM: usize = 4_096;

/// `buffer[line..line_end]` is the line that was cut last, and `buffer[start..end]` are the bytes
/// behind it.
#[derive(Drop)]
pub(crate) struct Window {
    buffer: Vec<u8>,
    line: usize,
    line_end: usize,
    start: usize,
    end: usize,
}

impl Model for Window {
    ghost use Rattle.smil_outside.specs.Window.{held_in, HeldBytes, IsWindow};

    ghost Value = { HeldBytes };

    ghost view = { held_in };

    ghost invariant = { IsWindow };
}

impl Window {
    /// Neither a line nor bytes. It takes the memory for its buffer.
    pub(crate) fn new(alloc: Global) -> Result<Window, AllocError>
        ensures { IfOk result (λ window. window ≡ record { line = []; bytes = [] }) }
    {
        Ok(Window {
            buffer: vec![in alloc; 0; WINDOW_BYTES]?,
            line: 0,
            line_end: 0,
            start: 0,
            end: 0,
        })
    }

    /// The line that was cut last.
    pub(crate) fn line(&self) -> &[u8]
        ensures { result.now ≡ self.now.line }
    {
        &self.buffer[self.line..self.line_end]
    }

    /// The bytes behind it.
    pub(crate) fn bytes(&self) -> &[u8]
        ensures value { result.now ≡ self.now.bytes }
        ensures bound { length result.now ≤ WINDOW_BYTES }
    {
        &self.buffer[self.start..self.end]
    }

    /// Cuts off a line of `len` bytes, and goes on behind the first `covers` bytes.
    pub(crate) fn cut(&mut self, len: usize, covers: usize)
        requires line { len ≤ covers }
        requires within { covers ≤ length self.old.bytes }
        ensures { self.new
            ≡ record { line = take len self.old.bytes; bytes = drop covers self.old.bytes } }
    {
        self.line = self.start;
        self.line_end = self.start + len;
        self.start += covers;
    }

    /// The place of the first line feed. None stands before the place `from`.
    pub(crate) fn line_feed(&self, from: usize) -> Option<usize>
        requires within { from ≤ length self.now.bytes }
        requires before { (k : ℕ) → k < from → slice_index self.now.bytes k ≢ line_feed }
        ensures { MatchOption result
            (EachIndex self.now.bytes (λ k. slice_index self.now.bytes k ≢ line_feed))
            (λ at. (at < length self.now.bytes) × (slice_index self.now.bytes at ≡ line_feed)
            × ((k : ℕ) → k < at → slice_index self.now.bytes k ≢ line_feed)) }
    {
        let at = memchr(b'\n', &self.bytes()[from..])?;
        Some(from + at)
    }

    /// One read. Of the bytes that came, the first `most` are held.
    pub(crate) fn fill<S: Source>(&mut self, source: &mut S, most: usize) -> Result<usize, Failed>
        requires { length self.old.bytes + READ_ROOM ≤ WINDOW_BYTES }
        ensures bound { IfOk result (λ n. n ≤ WINDOW_BYTES) }
        ensures line { self.new.line ≡ [] }
        ensures bytes { IfOk result (λ n. (came : List ℕ) × (length came ≡ n)
            × Consumes (S.rest source.old) (S.rest source.new) came
            × (self.new.bytes ≡ self.old.bytes ++ take most came)) }
        ensures end { IfOk result (λ n. n ≡ 0 → IsAtEnd (S.rest source.new)) }
        ensures err { OnErr result ((self.new.bytes ≡ self.old.bytes)
            × Keeps (S.rest source.old) (S.rest source.new)) }
        ensures kept { OnOk result (S.faults source.new ≡ S.faults source.old) }
        ensures cause { OnErr result (HasRisen (S.faults source.old) (S.faults source.new)) }
        ensures sure { S.never_fails source.old → IsOk result × S.never_fails source.new }
    {
        let len = self.end - self.start;
        self.start = make_room(&mut self.buffer, self.start, self.end);
        self.end = self.start + len;
        self.line = self.start;
        self.line_end = self.start;
        let n = read_behind(source, &mut self.buffer, self.end)?;
        self.end += n.min(most);
        Ok(n)
    }
}

// Moves the bytes from `start` to `end` to the front, where too little room is left behind them.
fn make_room(buffer: &mut [u8], start: usize, end: usize) -> usize
    requires ordered { start ≤ end }
    requires within { end ≤ length buffer.old }
    requires room { end - start + READ_ROOM ≤ length buffer.old }
    ensures bytes { slice_range buffer.new result (result + (end - start))
        ≡ slice_range buffer.old start end }
    ensures room { result + (end - start) + READ_ROOM ≤ length buffer.new }
{
    if end + READ_ROOM <= buffer.len() {
        return start;
    }
    buffer.copy_within(start..end, 0);
    0
}

// One read into what stands behind the place `at`.
fn read_behind<S: Source>(source: &mut S, buffer: &mut [u8], at: usize) -> Result<usize, Failed>
    requires { at + READ_ROOM ≤ length buffer.old }
    ensures bound { IfOk result (λ n. at + n ≤ length buffer.new) }
    ensures front { take at buffer.new ≡ take at buffer.old }
    ensures bytes { IfOk result (λ n. Consumes (S.rest source.old) (S.rest source.new)
        (slice_range buffer.new at (at + n))) }
    ensures end { IfOk result (λ n. n ≡ 0 → IsAtEnd (S.rest source.new)) }
    ensures err { OnErr result (Keeps (S.rest source.old) (S.rest source.new)) }
    ensures kept { OnOk result (S.faults source.new ≡ S.faults source.old) }
    ensures cause { OnErr result (HasRisen (S.faults source.old) (S.faults source.new)) }
    ensures sure { S.never_fails source.old → IsOk result × S.never_fails source.new }
{
    source.read(&mut buffer[at..])
}
