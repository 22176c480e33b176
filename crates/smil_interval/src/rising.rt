//! The parts of rising instance times that a search reads.

ghost use Rattle.std.specs.Prelude.{◌≡◌, filter, int_lt, Some};
ghost use Rattle.smil_model.specs.interval.Intervals;
ghost use Rattle.smil_model.specs.interval.Intervals.{counts_after, counts_from, is_from, after_end};
ghost use Rattle.smil_interval.specs.Rising.{IsRising, IsRisingTimes};

use super::passing::{Test, passing};
use smil_model::{Interval, Time};

// Whether a begin is after a number.
#[derive(Clone, Copy)]
struct LaterThan {
    value: i64,
}

impl Test<i64> for LaterThan {
    ghost use Rattle.std.specs.Prelude.{int_lt};

    ghost passes = { λ test. int_lt test.value };

    #[inline(always)]
    fn passes(&self, begin: i64) -> bool {
        self.value < begin
    }
}

// Whether a begin stands from the end of an interval on, and strictly after it where the interval
// has length 0.
#[derive(Clone, Copy)]
struct FromEnd {
    begin: i64,
    end: i64,
}

impl Test<i64> for FromEnd {
    ghost use Rattle.std.specs.Prelude.{Some};
    ghost use Rattle.smil_model.specs.declared.times.Time.TheVariants.{At};
    ghost use Rattle.smil_model.specs.interval.Intervals.{is_from, after_end};

    ghost passes = { λ test. is_from (Some (after_end test.begin (At test.«end»))) };

    #[inline(always)]
    fn passes(&self, begin: i64) -> bool {
        if self.begin == self.end {
            begin > self.end
        } else {
            begin >= self.end
        }
    }
}

// Whether an end instance counts for an interval that begins at `begin`: it is not before it, and
// not equal to it where the last interval ended there.
#[derive(Clone, Copy)]
struct CountsFrom {
    begin: i64,
    ended: bool,
}

impl Test<Time> for CountsFrom {
    ghost use Rattle.smil_interval.specs.Rising.{counts_by};

    ghost passes = { λ test. counts_by test.begin test.ended };

    #[inline(always)]
    fn passes(&self, end: Time) -> bool {
        match end {
            Time::At(value) => value > self.begin || value == self.begin && !self.ended,
            _ => true,
        }
    }
}

/// The begins after a number.
#[inline(always)]
pub fn after(begins: &[i64], value: i64) -> &[i64]
    requires { IsRising begins.now }
    ensures part { result.now ≡ filter (int_lt value) begins.now }
    ensures rising { IsRising result.now }
{
    passing(begins, LaterThan { value })
}

/// The begins that an excl has not let pass.
#[inline(always)]
pub fn not_passed(begins: &[i64], passed: Option<i64>) -> &[i64]
    requires { IsRising begins.now }
    ensures part { result.now ≡ filter (counts_after passed) begins.now }
    ensures rising { IsRising result.now }
{
    match passed {
        Some(passed) => after(begins, passed),
        None => begins,
    }
}

/// The begins from the end of an interval on, and strictly after it where the interval has length
/// 0.
#[inline(always)]
pub fn from_end(begins: &[i64], interval: Interval) -> &[i64]
    requires { IsRising begins.now }
    ensures part { result.now ≡ filter (is_from (Some (after_end interval.begin interval.end)))
        begins.now }
    ensures rising { IsRising result.now }
{
    match interval.end {
        Time::At(end) => passing(
            begins,
            FromEnd {
                begin: interval.begin,
                end,
            },
        ),
        _ => &[],
    }
}

/// The end instances that count for an interval that begins at `begin`.
#[inline(always)]
pub fn counting(ends: &[Time], last: Option<Interval>, begin: i64) -> &[Time]
    requires { IsRisingTimes ends.now }
    ensures part { result.now ≡ filter (counts_from last begin) ends.now }
    ensures rising { IsRisingTimes result.now }
{
    let ended = ended_at(last, Time::At(begin));
    passing(ends, CountsFrom { begin, ended })
}

// Whether the last finished interval ended at this time.
#[inline(always)]
fn ended_at(last: Option<Interval>, time: Time) -> bool
    ensures { result ≡ Intervals.ended_at last time }
{
    match last {
        Some(interval) => interval.end == time,
        None => false,
    }
}
