//! Instants of the wall clock, in milliseconds from the midnight that began 1970 in UTC.

ghost use Rattle.std.specs.Prelude.{◌≡◌, ◌≤◌, ◌<◌, ◌*◌, ◌^◌, pos, ◌+ℤ◌, ◌*ℤ◌, length, IfSome, option_map};
ghost use Rattle.std.specs.List.{prefix_len};
ghost use Rattle.std.specs.Result.{result_ok};
ghost use Rattle.jiff_core.specs.Calendar.{IsEpochDay, IsWithin};
ghost use Rattle.jiff_core.specs.Date.{epoch_day};
ghost use Rattle.smil_model.specs.declared.limits.TheConstants.{DIGITS};
ghost use Rattle.smil_grammar.specs.declared.units.TheConstants.{DAY};
ghost use Rattle.smil_grammar.specs.Instants.{digits_of, day_of, date_in, date_of, hours_minutes as hours_minutes_of, with_seconds as with_seconds_of, time_of, signed_zone, zone_of, is_of_time as is_of_time_byte, zoned_time_of, dated as dated_of, instant_of, wall_clock_of};

use super::fault::Bad;
use jiff::civil::Date;
use smil_grammar::{BILLION, DAY, HOUR, ItemFault, MINUTE, SECOND, TENTH};
use smil_lexis::numbers::{seconds, short, sixty};
use smil_lexis::texts::cut;
use smil_time_list::offsets::is_sign;

// The number of so many digits, which are 1 to 9.
#[tactic(auto, using(smil_lexis::proofs::DigitSteps::digits_below))]
fn digits(text: &[u8], count: usize) -> Option<u32>
    requires { count ≤ DIGITS }
    ensures number { result ≡ digits_of count text.now }
    ensures bound { IfSome result (λ n. n < 10 ^ count) }
{
    if text.len() != count {
        return None;
    }
    short(text)
}

// The number of a date's day.
fn day_number(date: Date) -> i64
    ensures number { result ≡ epoch_day date }
    ensures near { IsEpochDay result }
{
    i64::from(date.to_plain().to_unix_epoch_day())
}

// The number of a day, in a year from 1 on; none where the calendar has no such day.
fn day(year: u32, month: u32, day: u32) -> Option<i64>
    requires year { year < 10_000 }
    requires month { month < 100 }
    requires day { day < 100 }
    ensures number { result ≡ day_of year month day }
    ensures near { IfSome result IsEpochDay }
{
    if year == 0 {
        return None;
    }
    match Date::new(year as i16, month as i8, day as i8) {
        Ok(date) => Some(day_number(date)),
        Err(_) => None,
    }
}

// The number of a day in three texts of digits.
fn day_in(year: &[u8], month: &[u8], rest: &[u8]) -> Option<i64>
    ensures number { result ≡ date_in year.now month.now rest.now }
    ensures near { IfSome result IsEpochDay }
{
    let year = digits(year, 4)?;
    let month = digits(month, 2)?;
    day(year, month, digits(rest, 2)?)
}

// The number of the day of a date.
fn date(text: &[u8]) -> Option<i64>
    ensures number { result ≡ date_of text.now }
    ensures near { IfSome result IsEpochDay }
{
    let (year, rest) = cut(text, b'-')?;
    let (month, day) = cut(rest, b'-')?;
    day_in(year, month, day)
}

// Hours and minutes, in milliseconds.
fn hours_minutes(hours: &[u8], minutes: &[u8]) -> Option<u64>
    ensures time { result ≡ hours_minutes_of hours.now minutes.now }
    ensures day { IfSome result (λ n. n < DAY) }
{
    let hours = digits(hours, 2)?;
    if hours >= 24 {
        return None;
    }
    let minutes = sixty(minutes)?;
    Some(u64::from(hours) * HOUR + minutes * MINUTE)
}

// Hours, minutes and seconds, in milliseconds.
fn with_seconds(hours: &[u8], minutes: &[u8], rest: &[u8]) -> Option<u64>
    ensures time { result ≡ with_seconds_of hours.now minutes.now rest.now }
    ensures near { IfSome result (λ n. n < 2 * DAY) }
{
    let front = hours_minutes(hours, minutes)?;
    let (seconds, billionths) = seconds(rest, TENTH)?;
    Some(front + (seconds * SECOND + billionths * SECOND / BILLION))
}

// A time of the day, whose seconds may be left out where this is allowed.
fn time(text: &[u8], short: bool) -> Option<u64>
    ensures time { result ≡ time_of short text.now }
    ensures near { IfSome result (λ n. n < 2 * DAY) }
{
    let (hours, rest) = cut(text, b':')?;
    match cut(rest, b':') {
        Some((minutes, seconds)) => with_seconds(hours, minutes, seconds),
        None if short => hours_minutes(hours, rest),
        None => None,
    }
}

// How far the zone of a sign, hours and minutes is ahead of UTC.
fn offset(sign: u8, text: &[u8]) -> Option<i64>
    ensures zone { result ≡ signed_zone sign text.now }
    ensures near { IfSome result (IsWithin DAY) }
{
    let (hours, minutes) = cut(text, b':')?;
    let ahead = hours_minutes(hours, minutes)? as i64;
    Some(if sign == b'-' { -ahead } else { ahead })
}

// How far a zone is ahead of UTC; UTC is meant where it is left out, if this is allowed.
fn zone(text: &[u8], short: bool) -> Option<i64>
    ensures zone { result ≡ zone_of short text.now }
    ensures near { IfSome result (IsWithin DAY) }
{
    match text {
        [] if short => Some(0),
        [b'Z'] => Some(0),
        [sign, rest @ ..] if is_sign(*sign) => offset(*sign, rest),
        _ => None,
    }
}

// How many bytes at the front belong to a time without its zone.
fn time_len(text: &[u8]) -> usize
    ensures len { result ≡ prefix_len is_of_time_byte text.now }
    ensures within { result ≤ length text.now }
{
    text.iter()
        .take_while(|byte| byte.is_ascii_digit() || **byte == b':' || **byte == b'.')
        .count()
}

// A time of the day and its zone: how long after midnight in UTC.
fn zoned_time(text: &[u8], short: bool) -> Option<i64>
    ensures time { result ≡ zoned_time_of short text.now }
    ensures near { IfSome result (IsWithin (3 * DAY)) }
{
    let (front, rest) = text.split_at(time_len(text));
    let time = time(front, short)? as i64;
    Some(time - zone(rest, short)?)
}

// The instant so long after the midnight that begins a day.
fn behind_midnight(day: i64, time: i64) -> i64
    requires day { IsEpochDay day }
    requires time { IsWithin (3 * DAY) time }
    ensures { result ≡ day *ℤ pos DAY +ℤ time }
{
    day * DAY as i64 + time
}

// The instant of a date and a time.
fn dated(day: &[u8], time: &[u8], short: bool) -> Option<i64>
    ensures { result ≡ dated_of short day.now time.now }
{
    let day = date(day)?;
    Some(behind_midnight(day, zoned_time(time, short)?))
}

/// The instant that a text says: a date, `T`, a time with seconds and an optional fraction, and a
/// zone, as `2008-12-01T13:00:10.5+01:00`; in milliseconds from 1970-01-01 in UTC, rounded down.
/// `Bad` exactly where the text has no such reading. It takes no memory.
pub fn read_instant(text: &[u8]) -> Result<i64, Bad>
    ensures { result_ok result ≡ instant_of text.now }
{
    let instant = match cut(text, b'T') {
        Some((day, time)) => dated(day, time, false),
        None => None,
    };
    instant.ok_or(Bad)
}

// The midnight that begins a date in UTC.
fn midnight(text: &[u8]) -> Option<i64>
    ensures { result ≡ option_map (λ day. day *ℤ pos DAY) (date_of text.now) }
{
    Some(behind_midnight(date(text)?, 0))
}

/// The instant in the parentheses of a wall clock item: a date, or a date, `T` and a time, which
/// may be without seconds and without a zone, in milliseconds from 1970-01-01 in UTC. A time
/// without a date is `Unsupported`, and any other text `Bad`. SMIL 3.0, "The begin and end
/// attributes".
pub fn wall_clock(text: &[u8]) -> Result<i64, ItemFault>
    ensures { result ≡ wall_clock_of text.now }
{
    match cut(text, b'T') {
        Some((day, time)) => dated(day, time, true).ok_or(ItemFault::Bad),
        None => match midnight(text) {
            Some(instant) => Ok(instant),
            None if zoned_time(text, true).is_some() => Err(ItemFault::Unsupported),
            None => Err(ItemFault::Bad),
        },
    }
}
