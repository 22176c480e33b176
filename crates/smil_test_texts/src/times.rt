//! Calls of smil_model: sums and the order of times.

use smil_model::{Bytes, greatest, later, least};
use smil_test_cases::{Fault, Words, put_time};

/// `later TIME BY`.
pub fn later_by(words: &mut Words<'_>, out: &mut Bytes) -> Result<(), Fault> {
    let time = words.time()?;
    let by = words.number()?;
    put_time(out, later(time, by))?;
    Ok(())
}

/// `order TIME TIME`: the lesser and the greater.
pub fn order(words: &mut Words<'_>, out: &mut Bytes) -> Result<(), Fault> {
    let a = words.time()?;
    let b = words.time()?;
    put_time(out, least(a, b))?;
    put_time(out, greatest(a, b))?;
    Ok(())
}
