//! The end of an interval that begins at a given time.

ghost use Rattle.std.specs.Prelude.{◌≡◌, filter, pos, [], option_map};
ghost use Rattle.smil_model.specs.interval.Intervals;
ghost use Rattle.smil_model.specs.interval.Intervals.{limit_of, counts_from};
ghost use Rattle.smil_interval.specs.Rising.{IsRising, IsRisingTimes};
ghost use Rattle.smil_interval.specs.Next.{interval_to};

use super::facts::IntervalFacts;
use super::rising::{after, counting};
use smil_model::{EndList, Interval, Restart, Time, greatest, later, least, moved};

/// The interval that begins at `begin`, None where no interval begins there.
#[inline(always)]
pub fn interval_at(
    facts: &IntervalFacts<'_>,
    begins: &[i64],
    ends: &[Time],
    begin: i64,
) -> Option<Interval>
    requires begins_rise { IsRising begins.now }
    requires ends_rise { IsRisingTimes ends.now }
    ensures { result ≡ option_map (interval_to begin)
        (Intervals.interval_end facts.now begins.now ends.now begin) }
{
    let end = interval_end(facts, begins, ends, begin)?;
    Some(Interval { begin, end })
}

// The end of an interval that begins at `begin`: the least of the end by the duration, the limit
// of the end list and the next begin. None where no interval begins there.
#[inline(always)]
fn interval_end(
    facts: &IntervalFacts<'_>,
    begins: &[i64],
    ends: &[Time],
    begin: i64,
) -> Option<Time>
    requires begins_rise { IsRising begins.now }
    requires ends_rise { IsRisingTimes ends.now }
    ensures { result ≡ Intervals.interval_end facts.now begins.now ends.now begin }
{
    let limit = end_limit(facts, ends, begin)?;
    let next = next_begin(facts.restart, begins, begin);
    Some(least(duration_end(facts, begin), least(limit, next)))
}

// The end by the duration. Of an active element it is unresolved while the element is paused.
#[inline(always)]
fn duration_end(facts: &IntervalFacts<'_>, begin: i64) -> Time
    ensures { result ≡ Intervals.duration_end facts.now facts.now.play begin }
{
    let bounds = facts.bounds;
    match facts.play {
        None => later(bounds.active(facts.simple), begin),
        Some(play) => match play.shift {
            Some(shift) => later(bounds.active_end(facts.simple, &play), shift),
            None => Time::Unresolved,
        },
    }
}

// The limit that the end list sets, unresolved where it sets none. None where no end instance
// counts and the list gives no other end, so that no interval begins there.
#[inline(always)]
fn end_limit(facts: &IntervalFacts<'_>, ends: &[Time], begin: i64) -> Option<Time>
    requires { IsRisingTimes ends.now }
    ensures { result ≡ Intervals.end_limit facts.now ends.now begin }
{
    match facts.end_list {
        EndList::Absent => Some(Time::Unresolved),
        _ => given_limit(facts, ends, begin),
    }
}

// The limit of an end list that is there: the least end instance that counts, or `begin` plus
// `min` if that is greater.
#[inline(always)]
fn given_limit(facts: &IntervalFacts<'_>, ends: &[Time], begin: i64) -> Option<Time>
    requires { IsRisingTimes ends.now }
    ensures { result ≡ limit_of facts.now begin ends.now
        (filter (counts_from facts.now.last begin) ends.now) }
{
    match counting(ends, facts.last, begin).first() {
        Some(end) => Some(greatest(*end, moved(begin, facts.bounds.min()))),
        None => no_end_counts(facts, ends),
    }
}

// The limit where no end instance counts: unresolved for an active element, for one whose list
// waits for an event, a repeat or a key, and where the list gives no instance at all; else there is
// none.
#[inline(always)]
fn no_end_counts(facts: &IntervalFacts<'_>, ends: &[Time]) -> Option<Time>
    ensures { result ≡ limit_of facts.now (pos 0) ends.now [] }
{
    if facts.play.is_some() || facts.end_list == EndList::Hearing || ends.is_empty() {
        Some(Time::Unresolved)
    } else {
        None
    }
}

// The next begin, which ends an interval where the element may always restart.
#[inline(always)]
fn next_begin(restart: Restart, begins: &[i64], begin: i64) -> Time
    requires { IsRising begins.now }
    ensures { result ≡ Intervals.next_begin restart begins.now begin }
{
    match restart {
        Restart::Always => first_after(begins, begin),
        _ => Time::Unresolved,
    }
}

// The least begin after a number, unresolved where there is none.
#[inline(always)]
fn first_after(begins: &[i64], value: i64) -> Time
    requires { IsRising begins.now }
    ensures { result ≡ Intervals.first_after value begins.now }
{
    match after(begins, value).first() {
        Some(begin) => Time::At(*begin),
        None => Time::Unresolved,
    }
}
