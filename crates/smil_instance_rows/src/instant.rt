//! What a list of instance times holds: the numbers of begins, or the times of ends.

ghost use Rattle.std.specs.Prelude.{◌≡◌, Bool, not, int_le, Option, Some, refl, [], ◌∷◌};
ghost use Rattle.smil_model.specs.declared.times.Time.{Time as GivenTime};
ghost use Rattle.smil_model.specs.declared.times.Time.TheVariants.{At};
ghost use Rattle.smil_model.specs.Times.{time_le};
ghost use Rattle.smil_model.specs.interval.Instances.{number_of};
ghost use Rattle.smil_model.specs.Rising.{IsOrder};
ghost use Rattle.smil_model.proofs.NumberOrders.{numbers_order, times_order};
ghost use Rattle.smil_instance_rows.specs.GivenTimes.{gives_number, gives_time};

use smil_model::Time;
use std::slice::from_ref;

/// A value of a begin or end list, with an order of its own.
pub trait Instant: Copy {
    // The order.
    ghost at_most: { Self → Self → Bool };

    // The value that a time gives to the list, if any.
    ghost choose: { GivenTime → Option Self };

    // The time that gives a value.
    ghost given: { Self → GivenTime };

    ghost order: { IsOrder at_most };

    ghost gives: { (value : Self) → choose (given value) ≡ Some value };

    ghost is_given: { (time : GivenTime) (value : Self) → choose time ≡ Some value
        → given value ≡ time };

    /// Whether it is less than the other. It takes no memory.
    fn is_before(self, other: Self) -> bool
        ensures { result ≡ not (at_most other self) };

    /// The value that a time gives to the list, if any. It takes no memory.
    fn of_time(time: Time) -> Option<Self>
        ensures { result ≡ choose time };

    /// The time that gives the value. It takes no memory.
    fn time(self) -> Time
        ensures { result ≡ given self };

    /// The value alone, as a list. It takes no memory.
    fn alone(&self) -> &[Self]
        ensures { result.now ≡ self.now ∷ [] };
}

/// A begin list gives numbers alone.
impl Instant for i64 {
    ghost at_most = { int_le };

    ghost choose = { number_of };

    ghost given = { At };

    ghost order = { numbers_order };

    ghost gives = { λ _. refl };

    ghost is_given = { gives_number };

    fn is_before(self, other: i64) -> bool {
        self < other
    }

    fn of_time(time: Time) -> Option<i64> {
        match time {
            Time::At(value) => Some(value),
            _ => None,
        }
    }

    fn time(self) -> Time {
        Time::At(self)
    }

    fn alone(&self) -> &[i64] {
        from_ref(self)
    }
}

/// An end list gives indefinite too.
impl Instant for Time {
    ghost at_most = { time_le };

    ghost choose = { Some };

    ghost given = { λ time. time };

    ghost order = { times_order };

    ghost gives = { λ _. refl };

    ghost is_given = { gives_time };

    fn is_before(self, other: Time) -> bool {
        match (self, other) {
            (Time::At(value), Time::At(later)) => value < later,
            (Time::At(_), _) => true,
            (Time::Indefinite, Time::Unresolved) => true,
            _ => false,
        }
    }

    fn of_time(time: Time) -> Option<Time> {
        Some(time)
    }

    fn time(self) -> Time {
        self
    }

    fn alone(&self) -> &[Time] {
        from_ref(self)
    }
}
