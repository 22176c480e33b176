//! Items under a tournament of what comes of them.

ghost use Rattle.std.specs.Prelude.{◌≡◌, ◌≢◌, ◌↔◌, ℕ, ◌+◌, ◌*◌, ◌/◌, ◌<◌, ◌≤◌, List, IfOk, IsTrue, length, drop, slice_set};
ghost use Rattle.smil_model.specs.Tournaments.{at_place, IsDecided, IsSum, most_items};

use super::duplicate::Duplicate;
use std::alloc::{AllocError, Global};
use std::marker::Model;

/// An item of a tournament. Of two, one behind the other, comes a third.
pub trait Contender: Copy {
    // The item of an empty place.
    ghost none: { Self };

    // What comes of two.
    ghost both: { Self → Self → Self };

    /// The item of an empty place. It takes no memory.
    fn none() -> Self
        ensures { result ≡ none };

    /// What comes of it and the one behind it. It takes no memory.
    fn with(self, behind: Self) -> Self
        ensures { result ≡ both self behind };

    /// Whether it is the same as another item. It takes no memory.
    fn is_same(self, other: Self) -> bool
        ensures { IsTrue result ↔ (self ≡ other) };
}

/// Items under a tournament: each place has what comes of the two below it. It is seen as the list
/// of the items.
#[derive(Drop)]
pub struct Tournament<T: Contender> {
    /// What comes of neighbours, that of all items at place 1, and behind it the items.
    places: Vec<T>,
    /// The place of the first item, a power of 2.
    half: usize,
}

impl<T: Contender> Model for Tournament<T> {
    ghost use Rattle.std.specs.Prelude.{List, drop};
    ghost use Rattle.smil_model.specs.Tournaments.{IsTournament};

    ghost Value = { List T };

    ghost view = { λ a. drop a.half a.places.items };

    ghost invariant = { λ a. IsTournament T.none T.both a.places.items a.half };
}

impl<T: Contender> Duplicate for Tournament<T> {
    fn copy(&self) -> Result<Self, AllocError> {
        Ok(Tournament {
            half: self.half,
            places: Vec::from_slice(*self.places.allocator(), &self.places)?,
        })
    }
}

impl<T: Contender> Tournament<T> {
    /// These items, at most 2^32. It takes a step and memory for each; refused where memory runs
    /// out.
    pub fn of(alloc: Global, items: &[T]) -> Result<Tournament<T>, AllocError>
        requires { length items.now ≤ most_items }
        ensures { IfOk result (λ made. made ≡ items.now) }
    {
        let half = items.len().next_power_of_two();
        let mut places = Vec::from_elem(alloc, T::none(), half)?;
        places.extend_from_slice(items)?;
        decide_all(&mut places, half);
        Ok(Tournament { places, half })
    }

    /// Puts an item in the place of another. It takes a step for each place above it up to one that
    /// stays as it is, so log n steps at most for n items and a fixed number where the item is the
    /// same as before, and no memory.
    pub fn set(&mut self, index: usize, item: T)
        requires { index < length self.old }
        ensures { self.new ≡ slice_set self.old index item }
    {
        let place = self.half + index;
        if self.places[place].is_same(item) {
            return;
        }
        self.places[place] = item;
        decide_above(&mut self.places, self.half, place);
    }

    /// What comes of all items. It takes a fixed number of steps, and no memory.
    pub fn top(&self) -> T
        ensures { (sum : List T → T) → IsSum T.none T.both sum → result ≡ sum self.now }
    {
        let _half = self.half;
        at(&self.places, 1)
    }
}

// Decides all places below the first item, from the last one up.
fn decide_all<T: Contender>(places: &mut [T], half: usize)
    requires half { half ≤ most_items }
    requires from { half ≤ length places.old }
    ensures decided { (i : ℕ) → 0 < i → i < half → IsDecided T.none T.both places.new i }
    ensures kept { drop half places.new ≡ drop half places.old }
{
    let mut decided = half;
    while 1 < decided {
        decided -= 1;
        decide(places, decided);
    }
}

// Decides anew what is above a place, upwards, up to a place that stays as it is.
fn decide_above<T: Contender>(places: &mut [T], half: usize, place: usize)
    requires within { place < half + half }
    requires above { 0 < place }
    requires half { half ≤ most_items }
    requires from { half ≤ length places.old }
    requires others { (i : ℕ) → 0 < i → i < half → i ≢ place / 2
        → IsDecided T.none T.both places.old i }
    ensures decided { (i : ℕ) → 0 < i → i < half → IsDecided T.none T.both places.new i }
    ensures kept { drop half places.new ≡ drop half places.old }
{
    let mut decided = place;
    while 1 < decided {
        decided /= 2;
        let before = places[decided];
        decide(places, decided);
        if places[decided].is_same(before) {
            return;
        }
    }
}

// Decides a place by the two below it.
#[inline(always)]
fn decide<T: Contender>(places: &mut [T], place: usize)
    requires within { place < length places.old }
    requires few { place < most_items }
    ensures { places.new ≡ slice_set places.old place (T.both
        (at_place T.none places.old (2 * place)) (at_place T.none places.old (2 * place + 1))) }
{
    let first = at(places, 2 * place);
    let second = at(places, 2 * place + 1);
    places[place] = first.with(second);
}

// The item at a place; a place past the last one is empty.
#[inline(always)]
fn at<T: Contender>(places: &[T], place: usize) -> T
    ensures { result ≡ at_place T.none places.now place }
{
    match places.get(place) {
        Some(item) => *item,
        None => T::none(),
    }
}
