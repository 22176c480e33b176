//! Clock values with a sign.

ghost use Rattle.std.specs.Prelude.{◌≡◌};
ghost use Rattle.smil_grammar.specs.Items.{signed_of, offset_of, tail_of, is_sign as is_sign_byte, count_of};

use smil_clock_value::clock_within;
use smil_lexis::numbers::short;
use smil_lexis::texts::trim_front;
use smil_model::DIGITS;

/// Whether a byte is a sign.
pub fn is_sign(byte: u8) -> bool
    ensures { result ≡ is_sign_byte byte }
{
    byte == b'+' || byte == b'-'
}

// A sign and a clock value.
fn signed(text: &[u8]) -> Option<i64>
    ensures { result ≡ signed_of text.now }
{
    match text {
        [b'+', rest @ ..] => clock_within(trim_front(rest)),
        [b'-', rest @ ..] => Some(-clock_within(trim_front(rest))?),
        _ => None,
    }
}

/// The milliseconds of a clock value with an optional sign before it; none for all other texts.
pub fn offset(text: &[u8]) -> Option<i64>
    ensures { result ≡ offset_of text.now }
{
    match text {
        [] => None,
        [first, ..] if is_sign(*first) => signed(text),
        _ => clock_within(text),
    }
}

/// The milliseconds of a sign and a clock value behind a word, 0 where nothing stands there; none
/// for all other texts.
pub fn tail(text: &[u8]) -> Option<i64>
    ensures { result ≡ tail_of text.now }
{
    if text.is_empty() {
        return Some(0);
    }
    signed(trim_front(text))
}

/// The number of 1 to 9 digits without a leading zero; none for all other texts.
pub fn count(digits: &[u8]) -> Option<u32>
    ensures { result ≡ count_of digits.now }
{
    match digits {
        [first, rest @ ..] if *first != b'0' && rest.len() < DIGITS => short(digits),
        _ => None,
    }
}
