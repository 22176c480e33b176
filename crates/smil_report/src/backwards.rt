//! Texts put into a buffer from its end on, each before those that stand there already, so that
//! digits are written where they stay. No memory is taken.

ghost use Rattle.std.specs.Prelude.{◌≡◌, ◌+◌, ◌≤◌, ◌++◌, length, drop, decimal};
ghost use Rattle.std.specs.Fmt.{signed_decimal};

use itoa::write_digits;

/// Writes a text before a place, and gives the place where it begins.
#[inline(always)]
pub fn put_before(buf: &mut [u8], end: usize, text: &[u8]) -> usize
    requires fits { length text.now ≤ end }
    requires within { end ≤ length buf.old }
    ensures place { result + length text.now ≡ end }
    ensures written { drop result buf.new ≡ text.now ++ drop end buf.old }
{
    let start = end - text.len();
    buf[start..end].copy_from_slice(text);
    start
}

/// Writes a number before a place, and gives the place where it begins.
#[inline(always)]
pub fn put_number_before(buf: &mut [u8], end: usize, number: u32) -> usize
    requires fits { 10 ≤ end }
    requires within { end ≤ length buf.old }
    ensures short { end ≤ result + 10 }
    ensures place { result + length (decimal number) ≡ end }
    ensures written { drop result buf.new ≡ decimal number ++ drop end buf.old }
{
    if number < 10 {
        put_before(buf, end, &[b'0' + number as u8])
    } else {
        write_digits(u64::from(number), buf, end)
    }
}

/// Writes a number with its sign before a place, and gives the place where it begins.
#[inline(always)]
pub fn put_signed_before(buf: &mut [u8], end: usize, number: i64) -> usize
    requires fits { 20 ≤ end }
    requires within { end ≤ length buf.old }
    ensures short { end ≤ result + 20 }
    ensures place { result + length (signed_decimal number) ≡ end }
    ensures written { drop result buf.new ≡ signed_decimal number ++ drop end buf.old }
{
    let start = write_digits(number.unsigned_abs(), buf, end);
    if number < 0 {
        put_before(buf, start, b"-")
    } else {
        start
    }
}
