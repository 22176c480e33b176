//! The last line of an order's answer, written without memory.

ghost use Rattle.std.specs.Prelude.{◌≡◌, ◌+◌, ◌≤◌, ◌++◌, ◌∷◌, length, take, drop, codes, decimal};
ghost use Rattle.smil_model.specs.declared.limits.TheConstants.{NAME_BYTES};
ghost use Rattle.smil_model.specs.document.Words.{space};
ghost use Rattle.smil_model.specs.shown.Lines.{closed_line, line_of, ok_line, refusal_line};
ghost use Rattle.smil_report.specs.Words.{cause_words, checked_line};

use super::buffers::{put, put_number, put_signed};
use smil_model::Refusal;

/// The room that the line of a refused order takes at most, in bytes.
pub const REFUSAL_BYTES: usize = 64;

/// The room that the last line of an accepted order takes at most, in bytes.
pub const LAST_LINE_BYTES: usize = 80;

// Writes a refusal's word, its column where it has one, and the line feed.
#[tactic(auto, using(crate::proofs::BufferPlaces::drop_later))]
fn put_cause(buf: &mut [u8], at: usize, refusal: Refusal) -> usize
    requires { at + 34 ≤ length buf.old }
    ensures place { result ≡ at + length (line_of (cause_words refusal)) }
    ensures written { take result buf.new ≡ take at buf.old ++ line_of (cause_words refusal) }
    ensures rest { drop result buf.new ≡ drop result buf.old }
{
    let at = put(buf, at, refusal.word().as_bytes());
    match refusal.column() {
        Some(column) => {
            let at = put(buf, at, b" ");
            let at = put_number(buf, at, column);
            put(buf, at, b"\n")
        }
        None => put(buf, at, b"\n"),
    }
}

/// Writes the line of a refused order, `! LINE WORD` and ` COLUMN` where the refusal has one, at
/// the front of the buffer, and gives its length. `line` is the number of the line where the fault
/// stands. The bytes behind it stay as they were.
#[tactic(auto, using(crate::proofs::BufferPlaces::drop_later))]
pub fn put_refusal(buf: &mut [u8; REFUSAL_BYTES], line: u32, refusal: &Refusal) -> usize
    ensures len { result ≡ length (refusal_line line refusal.now) }
    ensures within { result ≤ REFUSAL_BYTES }
    ensures written { take result buf.new ≡ refusal_line line refusal.now }
    ensures rest { drop result buf.new ≡ drop result buf.old }
{
    let at = put(buf, 0, b"! ");
    let at = put_number(buf, at, line);
    let at = put(buf, at, b" ");
    put_cause(buf, at, *refusal)
}

// Writes `ok LINE NAME` at the front of a buffer, and gives the place behind it.
#[tactic(auto, using(crate::proofs::BufferPlaces::drop_later))]
fn put_accepted(buf: &mut [u8], line: u32, name: &[u8]) -> usize
    requires { 14 + length name.now ≤ length buf.old }
    ensures place { result ≡ 4 + length (decimal line) + length name.now }
    ensures short { result ≤ 14 + length name.now }
    ensures written { take result buf.new ≡ codes "ok " ++ decimal line ++ space ∷ name.now }
    ensures rest { drop result buf.new ≡ drop result buf.old }
{
    let at = put(buf, 0, b"ok ");
    let at = put_number(buf, at, line);
    let at = put(buf, at, b" ");
    put(buf, at, name)
}

/// Writes the last line of an accepted order, `ok LINE NAME NOW`, at the front of the buffer, and
/// gives its length: the number of the order's first line, the presentation's name, of at most 32
/// bytes, and its moment, in milliseconds of document time. The bytes behind it stay as they were.
#[tactic(auto, using(crate::proofs::BufferPlaces::drop_later))]
pub fn put_ok(buf: &mut [u8; LAST_LINE_BYTES], line: u32, name: &[u8], now: i64) -> usize
    requires { length name.now ≤ NAME_BYTES }
    ensures len { result ≡ length (ok_line line name.now now) }
    ensures within { result ≤ LAST_LINE_BYTES }
    ensures written { take result buf.new ≡ ok_line line name.now now }
    ensures rest { drop result buf.new ≡ drop result buf.old }
{
    let at = put_accepted(buf, line, name);
    let at = put(buf, at, b" ");
    let at = put_signed(buf, at, now);
    put(buf, at, b"\n")
}

/// Writes `ok LINE NAME closed` at the front of the buffer, and gives its length: the number of the
/// order's line, and the name, of at most 32 bytes, of the presentation that it closed. The bytes
/// behind it stay as they were.
#[tactic(auto, using(crate::proofs::BufferPlaces::drop_later))]
pub fn put_closed(buf: &mut [u8; LAST_LINE_BYTES], line: u32, name: &[u8]) -> usize
    requires { length name.now ≤ NAME_BYTES }
    ensures len { result ≡ length (closed_line line name.now) }
    ensures within { result ≤ LAST_LINE_BYTES }
    ensures written { take result buf.new ≡ closed_line line name.now }
    ensures rest { drop result buf.new ≡ drop result buf.old }
{
    let at = put_accepted(buf, line, name);
    put(buf, at, b" closed\n")
}

/// Writes `ok LINE NAME`, the last line of a load that was only read, at the front of the buffer,
/// and gives its length. The name has at most 32 bytes. The bytes behind it stay as they were.
#[tactic(auto, using(crate::proofs::BufferPlaces::drop_later))]
pub fn put_checked(buf: &mut [u8; LAST_LINE_BYTES], line: u32, name: &[u8]) -> usize
    requires { length name.now ≤ NAME_BYTES }
    ensures len { result ≡ length (checked_line line name.now) }
    ensures within { result ≤ LAST_LINE_BYTES }
    ensures written { take result buf.new ≡ checked_line line name.now }
    ensures rest { drop result buf.new ≡ drop result buf.old }
{
    let at = put_accepted(buf, line, name);
    put(buf, at, b"\n")
}
