//! Decimal numbers, of any number of digits.

ghost use Rattle.std.specs.Prelude.{◌≡◌, ℕ, length, ◌<◌, ◌≤◌, ◌*◌, ◌^◌, IfSome, option_map, min};
ghost use Rattle.smil_grammar.specs.declared.units.TheConstants.{BILLION};
ghost use Rattle.smil_grammar.specs.Numbers.{number_of, sixty_of, weight, fraction_of, with_fraction};
ghost use Rattle.smil_grammar.specs.Values.{short_number_of};
ghost use Rattle.smil_model.specs.declared.limits.TheConstants.{DIGITS};
ghost use Rattle.smil_lexis.specs.Capped.{capped};

use super::texts::cut;
use smil_model::{DIGITS, HORIZON};

/// The least number above the horizon, which stands for itself and all greater ones.
pub const CAP: u64 = HORIZON as u64 + 1;

/// The number that one digit or more write, `CAP` where it is above; none for all other texts.
pub fn whole(digits: &[u8]) -> Option<u64>
    ensures number { result ≡ option_map capped (number_of digits.now) }
    ensures bound { IfSome result (λ n. n ≤ CAP) }
{
    if digits.is_empty() {
        return None;
    }
    let mut number: u64 = 0;
    for digit in digits {
        if !digit.is_ascii_digit() {
            return None;
        }
        number = (number * 10 + u64::from(*digit - b'0')).min(CAP);
    }
    Some(number)
}

/// The number that 1 to 9 digits write; none for all other texts.
#[tactic(auto, using(crate::proofs::DigitSteps::short_some, crate::proofs::DigitSteps::short_none))]
pub fn short(digits: &[u8]) -> Option<u32>
    requires { length digits.now ≤ DIGITS }
    ensures number { result ≡ number_of digits.now }
    ensures bound { IfSome result (λ n. n < 10 ^ DIGITS) }
{
    let number = whole(digits)?;
    Some(number as u32)
}

/// The number that 1 to 9 digits write; none for all other texts.
pub fn short_number(digits: &[u8]) -> Option<u32>
    ensures number { result ≡ short_number_of digits.now }
    ensures bound { IfSome result (λ n. n < 10 ^ DIGITS) }
{
    if digits.len() > DIGITS {
        return None;
    }
    short(digits)
}

/// The number of two digits, where it is below 60; none for all other texts.
pub fn sixty(digits: &[u8]) -> Option<u64>
    ensures number { result ≡ sixty_of digits.now }
    ensures bound { IfSome result (λ n. n < 60) }
{
    if digits.len() != 2 {
        return None;
    }
    match whole(digits) {
        Some(number) if number < 60 => Some(number),
        _ => None,
    }
}

// What digits behind a point weigh: a one at the first place weighs so much, and at each later
// place a tenth of what it weighs at the place before.
fn weigh(digits: &[u8], first: u64) -> u64
    requires { first ≤ BILLION }
    ensures sum { result ≡ weight first digits.now }
    ensures bound { result ≤ 300 * first }
{
    let mut sum = 0;
    let mut scale = first;
    for digit in digits {
        sum += u64::from(digit.saturating_sub(b'0')) * scale;
        scale /= 10;
    }
    sum
}

/// What one digit or more behind a point weigh, where a one at the first place weighs so much; none
/// for all other texts.
pub fn fraction(digits: &[u8], first: u64) -> Option<u64>
    requires { first ≤ BILLION }
    ensures sum { result ≡ fraction_of first digits.now }
    ensures bound { IfSome result (λ sum. sum ≤ 300 * first) }
{
    whole(digits)?;
    Some(weigh(digits, first))
}

/// A number, `CAP` where it is above, and what its fraction weighs, 0 where it has none; none for
/// all other texts.
pub fn decimal(text: &[u8], first: u64) -> Option<(u64, u64)>
    requires { first ≤ BILLION }
    ensures parts { result ≡ option_map (λ d. (capped d.0, d.1))
        (with_fraction number_of first text.now) }
    ensures bound { IfSome result (λ d. (d.0 ≤ CAP) × (d.1 ≤ 300 * first)) }
{
    match cut(text, b'.') {
        Some((front, back)) => Some((whole(front)?, fraction(back, first)?)),
        None => Some((whole(text)?, 0)),
    }
}

/// Seconds below 60 of two digits, and what their fraction weighs, 0 where they have none; none for
/// all other texts.
pub fn seconds(text: &[u8], first: u64) -> Option<(u64, u64)>
    requires { first ≤ BILLION }
    ensures parts { result ≡ with_fraction sixty_of first text.now }
    ensures bound { IfSome result (λ d. (d.0 < 60) × (d.1 ≤ 300 * first)) }
{
    match cut(text, b'.') {
        Some((front, back)) => Some((sixty(front)?, fraction(back, first)?)),
        None => Some((sixty(text)?, 0)),
    }
}
