//! Times carried from one clock to another.

ghost use Rattle.std.specs.Prelude.{◌≡◌, ◌+ℤ◌, ◌-ℤ◌};
ghost use Rattle.smil_model.specs.Times.{within_horizon};

use smil_model::{Time, capped};

/// The time `offset` milliseconds after a value on a clock that shows `from` now, on a clock that
/// shows `to` now. It takes no memory.
pub fn carried(value: i64, from: i64, to: i64, offset: i64) -> Time
    ensures { result ≡ within_horizon ((to +ℤ (value -ℤ from)) +ℤ offset) }
{
    let reached = i128::from(to) + (i128::from(value) - i128::from(from));
    capped(reached + i128::from(offset))
}
