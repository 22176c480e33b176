//! Whether views are the same.

ghost use Rattle.std.specs.Prelude.{◌≡◌};
ghost use Rattle.smil_model.specs.shown.Orders.{shown_eq, state_code, view_eq};

use smil_model::{Shown, State, View};

/// Whether two views are the same.
pub fn is_same(one: &View, other: &View) -> bool
    ensures { result ≡ view_eq one.now other.now }
{
    one.serial == other.serial
        && number_of(one.state) == number_of(other.state)
        && is_same_time(one.begin, other.begin)
        && is_same_time(one.end, other.end)
        && one.iteration == other.iteration
        && one.finished == other.finished
}

// The number of a state.
fn number_of(state: State) -> u8
    ensures { result ≡ state_code state }
{
    match state {
        State::Idle => 0,
        State::Waiting => 1,
        State::Active => 2,
        State::Paused => 3,
        State::Deferred => 4,
        State::Frozen => 5,
        State::Done => 6,
    }
}

// Whether the same time is shown.
fn is_same_time(one: Shown, other: Shown) -> bool
    ensures { result ≡ shown_eq one other }
{
    match (one, other) {
        (Shown::Nothing, Shown::Nothing)
        | (Shown::Indefinite, Shown::Indefinite)
        | (Shown::Unresolved, Shown::Unresolved)
        | (Shown::Standing, Shown::Standing) => true,
        (Shown::At(x), Shown::At(y)) => x == y,
        _ => false,
    }
}
