//! SMIL's `endsync`: the implicit duration of a container by the ends of its time children.
#![tactic(auto)]

ghost use Rattle.std.specs.Prelude.{◌≡◌, neg_ℤ, find, fold, map, unwrap_or};
ghost use Rattle.std.specs.Fn.{FnOnceReturnsAt};
ghost use Rattle.smil_model.specs.Times.{later_time, greatest_time};
ghost use Rattle.smil_model.specs.document.Defaults.{endsync_of};
ghost use Rattle.smil_model.specs.interval.Durations;
ghost use Rattle.smil_model.specs.interval.Durations.{container_duration};
ghost use Rattle.smil_endsync.specs.Known;

mod ends;

pub use ends::{Ends, Summing};
pub use smil_model::ChildEnd;
use smil_model::{Attrs, Endsync, Kind, Time, capped, greatest, least};

/// The implicit duration of an active container, in milliseconds, by the ends of its time children
/// in document order: 0 without time children, and else where they end, less `start`, and not below
/// 0. `start` is the start of the container's present iteration, and like the ends of the children
/// it is on the container's own clock. SMIL 3.0, "The endsync attribute".
pub fn implicit(kind: Kind, endsync: &Endsync, start: i64, ends: &[ChildEnd]) -> Time
    ensures { result ≡ container_duration kind endsync.now start ends.now }
{
    if ends.is_empty() {
        return Time::At(0);
    }
    greatest(
        Time::At(0),
        since(start, children_end(kind, endsync, start, ends)),
    )
}

/// What a rule gives for the `endsync` of these attributes, which is `last` where they have none.
pub fn by_endsync<F: FnOnce(&Endsync) -> Time>(attrs: &Attrs, rule: F) -> Time
    requires { F.IsAlwaysCallable rule }
    ensures { FnOnceReturnsAt F.FnOnce rule (endsync_of attrs.now) result }
{
    match &attrs.endsync {
        Some(endsync) => rule(endsync),
        None => rule(&Endsync::Last),
    }
}

// How long after `start` a time is.
fn since(start: i64, time: Time) -> Time
    ensures { result ≡ later_time time (neg_ℤ start) }
{
    match time {
        Time::At(value) => capped(i128::from(value) - i128::from(start)),
        other => other,
    }
}

// Where the children of a container end. A seq ends with its last child, whatever its `endsync`.
fn children_end(kind: Kind, endsync: &Endsync, start: i64, ends: &[ChildEnd]) -> Time
    ensures { result ≡ Durations.children_end kind endsync.now start ends.now }
{
    match kind {
        Kind::Seq => seq_end(ends),
        _ => endsync_end(endsync, start, ends),
    }
}

// Where the children of a par or excl end.
fn endsync_end(endsync: &Endsync, start: i64, ends: &[ChildEnd]) -> Time
    ensures { result ≡ Durations.endsync_end endsync.now start ends.now }
{
    match endsync {
        Endsync::Last => last_end(start, ends),
        Endsync::First => first_end(ends),
        Endsync::All => all_end(ends),
        Endsync::Child(_) => named_end(start, ends),
    }
}

// The greatest of the latest ends. Children without one do not count, and `start` is it where none
// counts.
fn last_end(start: i64, ends: &[ChildEnd]) -> Time
    ensures { result ≡ Durations.last_end start ends.now }
{
    greatest_latest(ends).unwrap_or(Time::At(start))
}

// The greatest of the latest ends, where a child has one.
fn greatest_latest(ends: &[ChildEnd]) -> Option<Time>
    ensures { result ≡ fold Known.greatest_known None (map (λ c. c.latest) ends.now) }
{
    ends.iter()
        .map(|child| child.latest)
        .fold(None, |end, latest| greatest_known(end, latest))
}

// The greater of two times of which either may be absent.
fn greatest_known(a: Option<Time>, b: Option<Time>) -> Option<Time>
    ensures { result ≡ Known.greatest_known a b }
{
    match a {
        None => b,
        Some(x) => match b {
            None => a,
            Some(y) => Some(greatest(x, y)),
        },
    }
}

// The greatest of the latest ends, none counting as unresolved.
fn all_end(ends: &[ChildEnd]) -> Time
    ensures { result ≡ Durations.all_end ends.now }
{
    match ends.split_first() {
        Some((first, rest)) => greatest_with(first.latest.unwrap_or(Time::Unresolved), rest),
        None => Time::Unresolved,
    }
}

// The greatest of a time and the latest ends, none counting as unresolved.
fn greatest_with(time: Time, ends: &[ChildEnd]) -> Time
    ensures { result ≡ fold greatest_time time
        (map (λ c. unwrap_or c.latest Time.Unresolved) ends.now) }
{
    ends.iter()
        .map(|child| child.latest.unwrap_or(Time::Unresolved))
        .fold(time, |a, b| greatest(a, b))
}

// The least of the first ends, none counting as unresolved.
fn first_end(ends: &[ChildEnd]) -> Time
    ensures { result ≡ Durations.first_end ends.now }
{
    ends.iter()
        .map(|child| child.first.unwrap_or(Time::Unresolved))
        .fold(Time::Unresolved, |a, b| least(a, b))
}

// The first end of the named child, none counting as unresolved. Where no child is named, the last
// end.
fn named_end(start: i64, ends: &[ChildEnd]) -> Time
    ensures { result ≡ Durations.named_end start ends.now (find (λ c. c.named) ends.now) }
{
    match named_child(ends) {
        Some(child) => child.first.unwrap_or(Time::Unresolved),
        None => last_end(start, ends),
    }
}

// The named child.
fn named_child(ends: &[ChildEnd]) -> Option<ChildEnd>
    ensures { result ≡ find (λ c. c.named) ends.now }
{
    ends.iter().copied().find(|child| child.named)
}

// The first end of the last child, none counting as unresolved.
fn seq_end(ends: &[ChildEnd]) -> Time
    ensures { result ≡ Durations.seq_end ends.now }
{
    match ends.last() {
        Some(child) => child.first.unwrap_or(Time::Unresolved),
        None => Time::Unresolved,
    }
}
