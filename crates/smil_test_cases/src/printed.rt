//! Values, printed.

use itoa::{Buffer, Integer};
use smil_model::{Bytes, Interval, Time};
use std::alloc::AllocError;

/// Appends a text.
pub fn put(out: &mut Bytes, text: &str) -> Result<(), AllocError> {
    out.append(text.as_bytes())
}

/// Appends a space, but at the front of a line.
pub fn put_gap(out: &mut Bytes) -> Result<(), AllocError> {
    if out.len() == 0 {
        return Ok(());
    }
    out.push(b' ')
}

/// Appends a word behind what stands there.
pub fn put_word(out: &mut Bytes, word: &str) -> Result<(), AllocError> {
    put_gap(out)?;
    put(out, word)
}

/// Appends bytes behind what stands there.
pub fn put_bytes(out: &mut Bytes, bytes: &Bytes) -> Result<(), AllocError> {
    put_gap(out)?;
    out.append(bytes.slice())
}

/// Appends a number behind what stands there.
pub fn put_number<I: Integer>(out: &mut Bytes, number: I) -> Result<(), AllocError> {
    put_gap(out)?;
    let mut buffer = Buffer::new();
    out.append(buffer.format(number).as_bytes())
}

/// Appends a word and a number behind what stands there.
pub fn put_valued<I: Integer>(out: &mut Bytes, word: &str, number: I) -> Result<(), AllocError> {
    put_word(out, word)?;
    put_number(out, number)
}

/// Appends `1` for true and `0` for false.
pub fn put_flag(out: &mut Bytes, flag: bool) -> Result<(), AllocError> {
    put_word(out, if flag { "1" } else { "0" })
}

/// Appends a number, or `-` for none.
pub fn put_maybe<I: Integer>(out: &mut Bytes, number: Option<I>) -> Result<(), AllocError> {
    match number {
        Some(number) => put_number(out, number),
        None => put_word(out, "-"),
    }
}

/// Appends a time.
pub fn put_time(out: &mut Bytes, time: Time) -> Result<(), AllocError> {
    match time {
        Time::At(value) => put_number(out, value),
        Time::Indefinite => put_word(out, "indefinite"),
        Time::Unresolved => put_word(out, "unresolved"),
    }
}

/// Appends begin and end of an interval, or `-` for none.
pub fn put_interval(out: &mut Bytes, interval: Option<Interval>) -> Result<(), AllocError> {
    match interval {
        Some(interval) => {
            put_number(out, interval.begin)?;
            put_time(out, interval.end)
        }
        None => put_word(out, "-"),
    }
}

/// Appends serials, one behind another.
pub fn put_serials(out: &mut Bytes, serials: &[u32]) -> Result<(), AllocError> {
    for serial in serials {
        put_number(out, *serial)?;
    }
    Ok(())
}
