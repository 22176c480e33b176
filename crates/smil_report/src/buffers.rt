//! Texts put into a buffer, for which no memory is taken.

ghost use Rattle.std.specs.Prelude.{◌≡◌, ◌+◌, ◌≤◌, ◌++◌, length, take, drop, decimal};
ghost use Rattle.std.specs.Fmt.{signed_decimal};

use itoa::Buffer;

/// Writes a text at a place, and gives the place behind it.
pub fn put(buf: &mut [u8], at: usize, text: &[u8]) -> usize
    requires { at + length text.now ≤ length buf.old }
    ensures place { result ≡ at + length text.now }
    ensures written { take result buf.new ≡ take at buf.old ++ text.now }
    ensures rest { drop result buf.new ≡ drop result buf.old }
{
    let end = at + text.len();
    buf[at..end].copy_from_slice(text);
    end
}

/// Writes a number at a place, and gives the place behind it.
pub fn put_number(buf: &mut [u8], at: usize, number: u32) -> usize
    requires { at + 10 ≤ length buf.old }
    ensures place { result ≡ at + length (decimal number) }
    ensures short { result ≤ at + 10 }
    ensures written { take result buf.new ≡ take at buf.old ++ decimal number }
    ensures rest { drop result buf.new ≡ drop result buf.old }
{
    let mut buffer = Buffer::new();
    put(buf, at, buffer.format(number).as_bytes())
}

/// Writes a number with its sign at a place, and gives the place behind it.
pub fn put_signed(buf: &mut [u8], at: usize, number: i64) -> usize
    requires { at + 20 ≤ length buf.old }
    ensures place { result ≡ at + length (signed_decimal number) }
    ensures short { result ≤ at + 20 }
    ensures written { take result buf.new ≡ take at buf.old ++ signed_decimal number }
    ensures rest { drop result buf.new ≡ drop result buf.old }
{
    let mut buffer = Buffer::new();
    put(buf, at, buffer.format(number).as_bytes())
}
