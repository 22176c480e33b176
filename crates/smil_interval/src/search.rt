//! The search for the first and the next interval of an element.

ghost use Rattle.std.specs.Prelude.{◌≡◌, None, filter};
ghost use Rattle.smil_model.specs.interval.Intervals;
ghost use Rattle.smil_model.specs.interval.Intervals.{coming_interval, first_from, next_from, after_end, counts_after};
ghost use Rattle.smil_interval.specs.Rising.{IsRising, IsRisingTimes};
ghost use Rattle.smil_interval.specs.Next.{interval_after};

use super::end::interval_at;
use super::facts::IntervalFacts;
use super::rising::{from_end, not_passed};
use smil_model::{Interval, Restart, Time};

/// The first interval of an element, in milliseconds on its time parent's clock: the least begin is
/// taken, and after each interval that is not accepted the least begin from its end on. None where
/// no begin is left, or where no interval begins at one that is taken. SMIL 3.0, "Evaluation of
/// begin and end time lists".
#[inline(always)]
pub fn first_interval(begins: &[i64], ends: &[Time], facts: &IntervalFacts<'_>) -> Option<Interval>
    requires begins_rise { IsRising begins.now }
    requires ends_rise { IsRisingTimes ends.now }
    ensures { result ≡ coming_interval facts.now begins.now ends.now None }
{
    let rest = not_passed(begins, facts.passed);
    // The first try stands apart from the search, since it is mostly the only one.
    let Some((begin, later)) = rest.split_first() else {
        return None;
    };
    let interval = interval_at(facts, begins, ends, *begin)?;
    if is_accepted(facts.parent_start, interval) {
        return Some(interval);
    }
    first_accepted(from_end(later, interval), begins, ends, facts)
}

// The first interval by the begins that are left.
#[inline(always)]
fn first_accepted(
    left: &[i64],
    begins: &[i64],
    ends: &[Time],
    facts: &IntervalFacts<'_>,
) -> Option<Interval>
    requires left_rises { IsRising left.now }
    requires begins_rise { IsRising begins.now }
    requires ends_rise { IsRisingTimes ends.now }
    ensures { result ≡ first_from facts.now
        (Intervals.interval_end facts.now begins.now ends.now) None left.now }
{
    let mut rest = left;
    'search: while let Some((begin, later)) = rest.split_first() {
        let interval = interval_at(facts, begins, ends, *begin)?;
        if is_accepted(facts.parent_start, interval) {
            return Some(interval);
        }
        rest = from_end(later, interval);
    }
    None
}

/// The next interval of an element, in milliseconds on its time parent's clock: that of the least
/// begin from the last end on. None with restart `never`, where no begin is left, where no interval
/// begins at that one, and where no interval has finished. SMIL 3.0, "Evaluation of begin and end
/// time lists".
#[inline(always)]
pub fn next_interval(begins: &[i64], ends: &[Time], facts: &IntervalFacts<'_>) -> Option<Interval>
    requires begins_rise { IsRising begins.now }
    requires ends_rise { IsRisingTimes ends.now }
    ensures { result ≡ interval_after facts.now begins.now ends.now facts.now.last }
{
    match facts.last {
        None => None,
        Some(last) => match facts.restart {
            Restart::Never => None,
            _ => interval_from(begins, ends, facts, last),
        },
    }
}

// The interval that begins at the least begin from the end of an interval on.
#[inline(always)]
fn interval_from(
    begins: &[i64],
    ends: &[Time],
    facts: &IntervalFacts<'_>,
    last: Interval,
) -> Option<Interval>
    requires begins_rise { IsRising begins.now }
    requires ends_rise { IsRisingTimes ends.now }
    ensures { result ≡ next_from (Intervals.interval_end facts.now begins.now ends.now)
        (after_end last.begin last.end) (filter (counts_after facts.now.passed) begins.now) }
{
    let rest = not_passed(begins, facts.passed);
    match from_end(rest, last).first() {
        Some(begin) => interval_at(facts, begins, ends, *begin),
        None => None,
    }
}

// Whether a first interval is accepted: it ends after the parent's play start, or begins and ends
// there.
#[inline(always)]
fn is_accepted(parent_start: i64, interval: Interval) -> bool
    ensures { result ≡ Intervals.is_accepted parent_start interval.begin interval.end }
{
    match interval.end {
        Time::At(end) => end > parent_start || end == parent_start && interval.begin == end,
        _ => true,
    }
}
