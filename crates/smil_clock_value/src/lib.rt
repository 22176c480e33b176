//! Clock values, read and written.
#![tactic(auto)]

ghost use Rattle.std.specs.Prelude.{◌≡◌, ℕ, ◌≤◌, ◌*◌, ◌/◌, ◌+◌, ◌<◌, ◌++◌, pos, nat_abs, Some, IfSome, option_map, List, length, OnOk, OnErr};
ghost use Rattle.smil_model.specs.declared.times.TheConstants.{HORIZON};
ghost use Rattle.smil_model.specs.Times.{IsMoment};
ghost use Rattle.smil_grammar.specs.declared.units.TheConstants.{HOUR, BILLION};
ghost use Rattle.smil_grammar.specs.Clock.{clock_of, clock_answer, clock_within as clock_within_limit, clock_text, full as full_value, partial as partial_value, unit_of, time_count as time_count_value, is_of_number as is_of_number_byte};
ghost use Rattle.std.specs.List.{prefix_len};
ghost use Rattle.smil_lexis.specs.Capped.{capped};

use itoa::Buffer;
pub use smil_grammar::ClockFault;
use smil_grammar::{BILLION, HOUR, MINUTE, SECOND, TENTH};
use smil_lexis::numbers::{CAP, decimal, seconds, sixty, whole};
use smil_lexis::texts::cut;
use smil_lexis::writers::undone;
use smil_model::Bytes;
use std::alloc::AllocError;

// Whole milliseconds of a number with its billionths.
fn milliseconds(unit: u64, number: u64, billionths: u64) -> u64
    requires unit { unit ≤ HOUR }
    requires number { number ≤ CAP }
    requires billionths { billionths ≤ 30_000_000_000 }
    ensures value { result ≡ number * unit + billionths * unit / BILLION }
    ensures bound { result ≤ 3_600_001_000_000_000_000 }
{
    number * unit + billionths * unit / BILLION
}

// A full clock value: hours, minutes and seconds.
fn full(hours: &[u8], minutes: &[u8], rest: &[u8]) -> Option<u64>
    ensures { result ≡ option_map capped (full_value hours.now minutes.now rest.now) }
{
    let hours = whole(hours)?;
    let minutes = sixty(minutes)?;
    let (seconds, billionths) = seconds(rest, TENTH)?;
    Some((hours * HOUR + minutes * MINUTE + milliseconds(SECOND, seconds, billionths)).min(CAP))
}

// A partial clock value: minutes and seconds.
fn partial(minutes: &[u8], rest: &[u8]) -> Option<u64>
    ensures { result ≡ option_map capped (partial_value minutes.now rest.now) }
{
    let minutes = sixty(minutes)?;
    let (seconds, billionths) = seconds(rest, TENTH)?;
    Some((minutes * MINUTE + milliseconds(SECOND, seconds, billionths)).min(CAP))
}

// How many milliseconds a metric has; seconds where it is left out.
fn unit(metric: &[u8]) -> Option<u64>
    ensures { result ≡ unit_of metric.now }
{
    match metric {
        [] => Some(SECOND),
        [b'h'] => Some(HOUR),
        [b'm', b'i', b'n'] => Some(MINUTE),
        [b's'] => Some(SECOND),
        [b'm', b's'] => Some(1),
        _ => None,
    }
}

// How many bytes at the front belong to a number with its fraction.
fn number_len(text: &[u8]) -> usize
    ensures len { result ≡ prefix_len is_of_number_byte text.now }
    ensures within { result ≤ length text.now }
{
    text.iter()
        .take_while(|byte| byte.is_ascii_digit() || **byte == b'.')
        .count()
}

// A number and its metric.
fn time_count(text: &[u8]) -> Option<u64>
    ensures { result ≡ option_map capped (time_count_value text.now) }
{
    let (number, metric) = text.split_at(number_len(text));
    let unit = unit(metric)?;
    let (count, billionths) = decimal(number, TENTH)?;
    Some(milliseconds(unit, count, billionths).min(CAP))
}

// The milliseconds of a clock value, `CAP` where they are above the horizon.
fn value(text: &[u8]) -> Option<u64>
    ensures { result ≡ option_map capped (clock_of text.now) }
{
    match cut(text, b':') {
        Some((first, rest)) => match cut(rest, b':') {
            Some((minutes, seconds)) => full(first, minutes, seconds),
            None => partial(first, rest),
        },
        None => time_count(text),
    }
}

/// The milliseconds of a clock value. `TooLong` where they are above the horizon, and `Bad` for a
/// text outside the grammar.
pub fn read_clock(bytes: &[u8]) -> Result<i64, ClockFault>
    ensures { result ≡ clock_answer (clock_of bytes.now) }
{
    match value(bytes) {
        Some(value) if value == CAP => Err(ClockFault::TooLong),
        Some(value) => Ok(value as i64),
        None => Err(ClockFault::Bad),
    }
}

/// The milliseconds of a clock value that isn't above the horizon, as it stands in other values and
/// in orders; none for all other texts.
#[tactic(auto, using(crate::proofs::ClockLimits::clock_ok, crate::proofs::ClockLimits::clock_err))]
pub fn clock_within(bytes: &[u8]) -> Option<i64>
    ensures value { result ≡ option_map pos (clock_within_limit bytes.now) }
    ensures moment { IfSome result IsMoment }
{
    read_clock(bytes).ok()
}

/// Appends the printed spelling of a clock value, a number of milliseconds from 0 to 10^12. After a
/// refusal `out` is as before.
pub fn write_clock(value: i64, out: &mut Bytes) -> Result<(), AllocError>
    requires { IsMoment value }
    ensures ok { OnOk result (out.new ≡ out.old ++ clock_text (nat_abs value)) }
    ensures err { OnErr result (out.new ≡ out.old) }
{
    let before = out.len();
    let mut buffer = Buffer::new();
    out.append(buffer.format(value as u64).as_bytes())?;
    let written = out.append(b"ms");
    undone(written, out, before)
}

/// The printed spelling of each number of milliseconds up to the horizon is read as that number.
pub fn clock_again()
    ensures { (n : ℕ) → n ≤ nat_abs HORIZON → clock_of (clock_text n) ≡ Some n }
{}
