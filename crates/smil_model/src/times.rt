//! Time values: a number of milliseconds, indefinite or unresolved.

ghost use Rattle.std.specs.Prelude.{◌≡◌, ◌+ℤ◌};
ghost use Rattle.smil_model.specs.Times.{within_horizon, later_time, least_time, greatest_time};

/// The latest moment and the greatest time value, in milliseconds.
pub const HORIZON: i64 = 1_000_000_000_000;

/// The greatest number that is carried from one clock to another, in milliseconds.
pub const CARRIED: i64 = 10_000_000_000_000;

/// A time value. Numbers stand below indefinite, and indefinite below unresolved. The place where
/// the value stands says on which clock a number is. SMIL 3.0, "Computing the active duration".
#[derive(Clone, Copy, PartialEq, Eq)]
pub enum Time {
    /// A number of milliseconds, which may be negative.
    At(i64),
    /// It never comes by itself.
    Indefinite,
    /// It is not known yet.
    Unresolved,
}

/// A sum as a time: indefinite above the horizon, and minus the horizon below that. It has no
/// condition and takes no memory.
pub fn capped(sum: i128) -> Time
    ensures { result ≡ within_horizon sum }
{
    if sum > i128::from(HORIZON) {
        Time::Indefinite
    } else if sum < -i128::from(HORIZON) {
        Time::At(-HORIZON)
    } else {
        Time::At(sum as i64)
    }
}

/// The time `by` milliseconds after the number `from`, capped. It has no condition and takes no
/// memory.
pub fn moved(from: i64, by: i64) -> Time
    ensures { result ≡ within_horizon (from +ℤ by) }
{
    let sum = from.saturating_add(by);
    if sum > HORIZON {
        Time::Indefinite
    } else if sum < -HORIZON {
        Time::At(-HORIZON)
    } else {
        Time::At(sum)
    }
}

/// The time `by` milliseconds later, capped. Indefinite and unresolved stay. It has no condition
/// and takes no memory.
pub fn later(time: Time, by: i64) -> Time
    ensures { result ≡ later_time time by }
{
    match time {
        Time::At(value) => moved(value, by),
        other => other,
    }
}

/// The lesser of two times, in the order number, indefinite, unresolved. It has no condition and
/// takes no memory.
pub fn least(a: Time, b: Time) -> Time
    ensures { result ≡ least_time a b }
{
    match a {
        Time::At(x) => match b {
            Time::At(y) => Time::At(if y < x { y } else { x }),
            _ => a,
        },
        Time::Indefinite => match b {
            Time::At(_) => b,
            _ => a,
        },
        Time::Unresolved => b,
    }
}

/// The greater of two times, in the order number, indefinite, unresolved. It has no condition and
/// takes no memory.
pub fn greatest(a: Time, b: Time) -> Time
    ensures { result ≡ greatest_time a b }
{
    match (a, b) {
        (Time::Unresolved, _) => Time::Unresolved,
        (_, Time::Unresolved) => Time::Unresolved,
        (Time::Indefinite, _) => Time::Indefinite,
        (_, Time::Indefinite) => Time::Indefinite,
        (Time::At(x), Time::At(y)) => Time::At(if x < y { y } else { x }),
    }
}
