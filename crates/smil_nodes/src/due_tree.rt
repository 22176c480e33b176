//! A tree of numbers, the least first, and the numbers of keys.

ghost use Rattle.std.specs.Prelude.{◌≡◌, ◌↔◌, ℕ, ◌+◌, ◌-◌, ◌*◌, ◌/◌, ◌<◌, ◌≤◌, ◌^◌, None, IfOk, IfSome, IsTrue, drop, if◌then◌else◌, length, replicate, slice_set, take};
ghost use Rattle.smil_model.specs.Tournaments.{most_items};
ghost use Rattle.smil_nodes.specs.Slots.{AreFull, IsBesides, IsLeastBelow, IsNumber, WasLeastBelow, below, earlier_of, least_number, moment_number, most_places, number_of, place_in, repeats, slot_at, turned};

use smil_model::{BEGIN_CLASS, Duplicate, Key};
use std::alloc::{AllocError, Global};
use std::marker::Model;

/// The number of a slot without one, behind the numbers of all keys.
const NO_NUMBER: u64 = u64::MAX;

/// From which moment on, and before which one less than 0, moments are not told apart. All moments
/// of what comes are nearer to 0.
const FARTHEST: i64 = 1 << 44;

/// The number of places of elements that are told apart: there are fewer elements.
const PLACES: u32 = 1 << 13;

/// A slot with a number or none; seen as what it has.
#[derive(Clone, Copy)]
pub struct Slot {
    /// `NO_NUMBER` where it has none.
    number: u64,
}

impl Model for Slot {
    ghost use Rattle.std.specs.Prelude.{Option, ℕ};
    ghost use Rattle.smil_nodes.specs.Slots.{slot_back, slot_number, slot_with};

    ghost Value = { Option ℕ };

    ghost view = { slot_number };

    ghost inverse = { slot_with };

    ghost inverse_ok = { λ a h. slot_back a };
}

impl Slot {
    // A slot without a number.
    fn none() -> Slot
        ensures { result ≡ None }
    {
        Slot { number: NO_NUMBER }
    }

    // The slot with a number, or none.
    fn of(number: Option<u64>) -> Slot
        requires { IfSome number IsNumber }
        ensures { result ≡ number }
    {
        match number {
            None => Slot::none(),
            Some(number) => Slot { number },
        }
    }

    // What it has.
    fn number(self) -> Option<u64>
        ensures { result ≡ self }
    {
        if self.number == NO_NUMBER {
            None
        } else {
            Some(self.number)
        }
    }

    // The slot with the lesser number of two.
    fn with(self, other: Slot) -> Slot
        ensures { result ≡ earlier_of self other }
    {
        if other.is_before(self) { other } else { self }
    }

    // Whether its number is below that of another.
    fn is_before(self, other: Slot) -> bool
        ensures { earlier_of other self ≡ (if result then self else other) }
    {
        self.number < other.number
    }

    // Whether the two have the same number, or none.
    fn is_same(self, other: Slot) -> bool
        ensures { IsTrue result ↔ (self ≡ other) }
    {
        self.number == other.number
    }
}

/// A fixed number of slots, each with a number or none, below places that have the least number of
/// eight others each; seen as the list of what the slots have.
#[derive(Drop)]
pub struct DueTree {
    /// The places that have the least numbers, that of all slots first, and behind them the slots.
    /// Below the place p stand those from 8 p + 1 to 8 p + 8, or none.
    places: Vec<Slot>,
    /// The place of the first slot.
    first: usize,
}

impl Model for DueTree {
    ghost use Rattle.std.specs.Prelude.{List, Option, ℕ, drop};
    ghost use Rattle.smil_nodes.specs.Slots.{IsDueTree};

    ghost Value = { List (Option ℕ) };

    ghost view = { λ a. drop a.first a.places.items };

    ghost invariant = { λ a. IsDueTree a.places.items a.first };
}

impl Duplicate for DueTree {
    fn copy(&self) -> Result<Self, AllocError> {
        Ok(DueTree {
            places: Vec::from_slice(*self.places.allocator(), &self.places)?,
            first: self.first,
        })
    }
}

impl DueTree {
    /// So many slots without numbers, at most 2^32. Refused where memory runs out.
    pub fn new(alloc: Global, count: usize) -> Result<DueTree, AllocError>
        requires { count ≤ most_items }
        ensures { IfOk result (λ tree. tree ≡ replicate count None) }
    {
        let length = 8 * (count / 7 + 1) + 1;
        let places = Vec::from_elem(alloc, Slot::none(), length)?;
        Ok(DueTree {
            places,
            first: length - count,
        })
    }

    /// Puts a number, or none, into a slot. It takes log n steps at most for n slots, a fixed
    /// number where the slot has it already, and no memory.
    #[inline(never)]
    pub fn set(&mut self, slot: usize, number: Option<u64>)
        requires slot { slot < length self.old }
        requires number { IfSome number IsNumber }
        ensures { self.new ≡ slice_set self.old slot number }
    {
        let place = self.first + slot;
        let slot = Slot::of(number);
        if self.places[place].is_same(slot) {
            return;
        }
        self.places[place] = slot;
        decide_above(&mut self.places, self.first, place);
    }

    /// The least number. None exactly where no slot has one. It takes no memory.
    pub fn least(&self) -> Option<u64>
        ensures { result ≡ least_number self.now }
    {
        self.places[0].number()
    }
}

// Decides anew what is above a place, upwards, up to a place that stays as it is.
#[inline(always)]
fn decide_above(places: &mut [Slot], first: usize, place: usize)
    requires few { first ≤ most_places }
    requires full { AreFull (length places.old) first }
    requires known { place < length places.old }
    requires others { (p : ℕ) → p < first → IsBesides place p → IsLeastBelow places.old p }
    requires before { 0 < place
        → WasLeastBelow places.old ((place - 1) / 8) (slot_at places.old place) }
    ensures decided { (p : ℕ) → p < first → IsLeastBelow places.new p }
    ensures kept { drop first places.new ≡ drop first places.old }
{
    let mut decided = place;
    while 0 < decided {
        let changed = places[decided];
        decided = (decided - 1) / 8;
        let least = least_with(places, decided, changed);
        if places[decided].is_same(least) {
            return;
        }
        places[decided] = least;
    }
}

// The least of the eight slots below a place, which had the least of them before one got this
// number: it is that number, where it is less than the one that the place has.
#[inline(always)]
fn least_with(places: &[Slot], place: usize, changed: Slot) -> Slot
    requires few { place < most_places }
    requires known { 8 * place + 8 < length places.now }
    requires before { WasLeastBelow places.now place changed }
    ensures { result ≡ least_number (below places.now place) }
{
    if changed.is_before(places[place]) {
        changed
    } else {
        least_below(places, place)
    }
}

// The least of the eight slots below a place.
#[inline(always)]
fn least_below(places: &[Slot], place: usize) -> Slot
    requires few { place < most_places }
    requires known { 8 * place + 8 < length places.now }
    ensures { result ≡ least_number (below places.now place) }
{
    let first = 8 * place + 1;
    let front = least_of_four(places, first);
    let rest = least_of_four(places, first + 4);
    front.with(rest)
}

// The least of four slots, from a place on.
#[inline(always)]
fn least_of_four(places: &[Slot], first: usize) -> Slot
    requires few { first < 8 * most_places }
    requires known { first + 3 < length places.now }
    ensures { result ≡ least_number (take 4 (drop first places.now)) }
{
    let front = places[first].with(places[first + 1]);
    let rest = places[first + 2].with(places[first + 3]);
    front.with(rest)
}

/// The number of a key, by which keys are compared: the moment, the class, the turn and whether it
/// repeats, each of more weight than the next.
pub fn number_of(key: Key) -> u64
    ensures value { result ≡ number_of key }
    ensures few { IsNumber result }
{
    let moment = moment_number(key.value);
    let class = u64::from(key.class % 4);
    let turn = u64::from(turned(key.class % 4, key.position % PLACES));
    ((moment * 4 + class) * u64::from(PLACES) + turn) * 2 + u64::from(key.repeat)
}

/// The place of the element that a key with a number has.
pub fn place_in(number: u64) -> usize
    ensures { result ≡ place_in number }
{
    let ranked = number / 2;
    let class = (ranked / u64::from(PLACES)) % 4;
    turned(class as u8, (ranked % u64::from(PLACES)) as u32) as usize
}

/// Whether a key with a number repeats.
pub fn repeats(number: u64) -> bool
    ensures { result ≡ repeats number }
{
    number % 2 == 1
}

// The number of a moment, from 0.
fn moment_number(value: i64) -> u64
    ensures value { result ≡ moment_number value }
    ensures few { result < 2 ^ 45 }
{
    if value < -FARTHEST {
        return 0;
    }
    if value < FARTHEST {
        (value + FARTHEST) as u64
    } else {
        2 * FARTHEST as u64 - 1
    }
}

// The turn of a place among those of a class, and the place of a turn: begins in document order,
// all others against it.
fn turned(class: u8, place: u32) -> u32
    requires { place < 2 ^ 13 }
    ensures value { result ≡ turned class place }
    ensures few { result < 2 ^ 13 }
{
    if class == BEGIN_CLASS {
        place
    } else {
        PLACES - 1 - place
    }
}
