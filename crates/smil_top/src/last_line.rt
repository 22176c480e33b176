//! The last line of the answer to an order.

ghost use Rattle.std.specs.Prelude.{◌≡◌, ◌≤◌, ◌+◌, ◌++◌, [], length};
ghost use Rattle.smil_model.specs.declared.limits.TheConstants.{NAME_BYTES};
ghost use Rattle.smil_model.specs.shown.Lines.{closed_line, ok_line, refusal_line};
ghost use Rattle.smil_report.specs.Words.{checked_line};
ghost use Rattle.smil_report.specs.declared.last_lines.TheConstants.{LAST_LINE_BYTES as the_most};
ghost use Rattle.smil_top.specs.Answers.{preferred_line};
ghost use Rattle.smil_top.specs.Summary.{count_line};

use itoa::Buffer;
use smil_model::Refusal;
use smil_report::{LAST_LINE_BYTES, REFUSAL_BYTES, put_checked, put_closed, put_ok, put_refusal};
use std::marker::Model;

/// A line for which no memory is taken, or none yet; seen as its bytes.
#[derive(Drop)]
pub(crate) struct LastLine {
    buf: [u8; LAST_LINE_BYTES],
    len: usize,
}

impl Model for LastLine {
    ghost use Rattle.std.specs.Prelude.{List, ℕ, take, ◌≤◌};
    ghost use Rattle.smil_report.specs.declared.last_lines.TheConstants.{LAST_LINE_BYTES as the_most};

    ghost Value = { List ℕ };

    ghost view = { λ l. take l.len l.buf };

    ghost invariant = { λ l. l.len ≤ the_most };
}

impl LastLine {
    /// No line.
    pub fn none() -> LastLine
        ensures { result ≡ [] }
    {
        LastLine {
            buf: [0; LAST_LINE_BYTES],
            len: 0,
        }
    }

    /// Leaves no line.
    pub fn clear(&mut self)
        ensures { self.new ≡ [] }
    {
        self.len = 0;
    }

    /// The line of an order, whose first line has this number, to the presentation of this name,
    /// which is at this moment.
    pub fn ok(line: u32, name: &[u8], now: i64) -> LastLine
        requires { length name.now ≤ NAME_BYTES }
        ensures { result ≡ ok_line line name.now now }
    {
        let mut made = LastLine::none();
        made.put_ok(line, name, now);
        made
    }

    /// Puts the line of an order in place of the one before: its first line has this number, and
    /// the presentation of this name is at this moment.
    pub fn put_ok(&mut self, line: u32, name: &[u8], now: i64)
        requires { length name.now ≤ NAME_BYTES }
        ensures { self.new ≡ ok_line line name.now now }
    {
        self.len = put_ok(&mut self.buf, line, name, now);
    }

    /// The line of an order at this line that closed the presentation of this name.
    pub fn closed(line: u32, name: &[u8]) -> LastLine
        requires { length name.now ≤ NAME_BYTES }
        ensures { result ≡ closed_line line name.now }
    {
        let mut buf = [0; LAST_LINE_BYTES];
        let len = put_closed(&mut buf, line, name);
        LastLine { buf, len }
    }

    /// The line of a load under this name that was only read.
    pub fn checked(line: u32, name: &[u8]) -> LastLine
        requires { length name.now ≤ NAME_BYTES }
        ensures { result ≡ checked_line line name.now }
    {
        let mut buf = [0; LAST_LINE_BYTES];
        let len = put_checked(&mut buf, line, name);
        LastLine { buf, len }
    }

    /// The line of an order at this line that prefers a value.
    pub fn preferred(line: u32) -> LastLine
        ensures { result ≡ preferred_line line }
    {
        LastLine::checked(line, b"prefer")
    }

    /// The line of a verdict: a word of at most 3 bytes, and a number.
    pub fn counted(word: &[u8], number: usize) -> LastLine
        requires { length word.now ≤ 3 }
        ensures { result ≡ count_line word.now number }
    {
        let mut digits = Buffer::new();
        let mut line = LastLine::none();
        line.put(word);
        line.put(b" ");
        line.put(digits.format(number).as_bytes());
        line.put(b"\n");
        line
    }

    // Appends bytes, for which there is room.
    fn put(&mut self, bytes: &[u8])
        requires { length self.old + length bytes.now ≤ the_most }
        ensures { self.new ≡ self.old ++ bytes.now }
    {
        let end = self.len + bytes.len();
        self.buf[self.len..end].copy_from_slice(bytes);
        self.len = end;
    }

    /// The line of a refused order, whose fault stands at the line with this number.
    #[cold]
    pub fn refused(line: u32, refusal: &Refusal) -> LastLine
        ensures { result ≡ refusal_line line refusal.now }
    {
        let mut front = [0; REFUSAL_BYTES];
        let len = put_refusal(&mut front, line, refusal);
        let mut buf = [0; LAST_LINE_BYTES];
        buf[..len].copy_from_slice(&front[..len]);
        LastLine { buf, len }
    }

    /// Its bytes.
    pub fn slice(&self) -> &[u8]
        ensures { result.now ≡ self.now }
    {
        &self.buf[..self.len]
    }
}
