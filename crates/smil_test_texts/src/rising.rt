//! Whether instance times rise.

ghost use Rattle.std.specs.Prelude.{◌≡◌, true, int_le};
ghost use Rattle.smil_model.specs.Times.{time_le};
ghost use Rattle.smil_interval.specs.Rising.{IsRising, IsRisingTimes};

use smil_model::Time;

/// Whether numbers rise.
pub fn rises(values: &[i64]) -> bool
    ensures { result ≡ true → IsRising values.now }
{
    values.is_sorted_by(|a, b| *a <= *b)
}

/// Whether times rise.
pub fn times_rise(times: &[Time]) -> bool
    ensures { result ≡ true → IsRisingTimes times.now }
{
    times.is_sorted_by(|a, b| is_at_most(*a, *b))
}

// Whether a time is at most another.
fn is_at_most(a: Time, b: Time) -> bool
    ensures { result ≡ time_le a b }
{
    match (a, b) {
        (Time::At(x), Time::At(y)) => x <= y,
        (Time::At(_), _) => true,
        (Time::Indefinite, Time::At(_)) => false,
        (Time::Indefinite, _) => true,
        (Time::Unresolved, Time::Unresolved) => true,
        (Time::Unresolved, _) => false,
    }
}
