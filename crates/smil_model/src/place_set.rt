//! Sets of places from which the least is taken.

ghost use Rattle.std.specs.Prelude.{◌≡◌, ◌≢◌, ◌<◌, ◌≤◌, ◌+◌, ◌-◌, ◌^◌, ◌/◌, ◌==◌, ◌||◌, ◌&&◌, ℕ, [], ◌∷◌, true, false, OnOk, OnErr, MatchOption, length, nat_lt, nat_le, slice_index, vec_len, if◌then◌else◌};
ghost use Rattle.std.specs.Int.{bit_at};
ghost use Rattle.std.specs.List.Sorted.{IsStrictlyIncreasing};
ghost use Rattle.smil_model.specs.document.Closure.{has};
ghost use Rattle.smil_model.specs.PlaceSet.{is_in};

use std::alloc::{AllocError, Global};
use std::marker::Model;

/// A set of places, from which the least is taken first; seen as the list of the places, which
/// rise. It keeps a bit for each place up to the greatest that it had.
#[derive(Drop)]
pub struct PlaceSet {
    words: Vec<u64>,
    /// No place stands in a word before this one.
    first: usize,
    /// No place stands in this word or one behind it.
    end: usize,
}

impl Model for PlaceSet {
    ghost use Rattle.std.specs.Prelude.{ℕ, List};
    ghost use Rattle.smil_model.specs.PlaceSet.{places_of, ArePlaces};

    ghost Value = { List ℕ };

    ghost view = { λ a. places_of a.words.items };

    ghost invariant = { λ a. ArePlaces a.words.items a.first a.end };
}

impl PlaceSet {
    /// A set without places. It takes no memory.
    pub fn new(alloc: Global) -> PlaceSet
        ensures { result ≡ [] }
    {
        PlaceSet {
            words: Vec::new(alloc),
            first: usize::MAX,
            end: 0,
        }
    }

    /// Drops all places. It takes no memory.
    pub fn clear(&mut self)
        ensures { self.new ≡ [] }
    {
        let is_empty = self.end <= self.first;
        self.first = usize::MAX;
        self.end = 0;
        if is_empty {
            return;
        }
        self.words.clear();
    }

    /// Puts a place in; one that is there already stays, once. Where memory runs out the set is as
    /// before.
    #[inline(always)]
    pub fn put(&mut self, place: usize) -> Result<(), AllocError>
        ensures ok { OnOk result ((p : ℕ) → has self.new p ≡ ((p == place) || has self.old p)) }
        ensures err { OnErr result (self.new ≡ self.old) }
    {
        reach(&mut self.words, place / 64)?;
        set_bit(&mut self.words, place);
        self.first = self.first.min(place / 64);
        self.end = self.end.max(place / 64 + 1);
        Ok(())
    }

    /// Takes the least place, which is then in no longer; None exactly where there is none. It
    /// takes no memory, and a step for each 64 places from the last one taken up to this one.
    pub fn take_first(&mut self) -> Option<usize>
        ensures taken { MatchOption result ((self.old ≡ []) × (self.new ≡ []))
            (λ place. self.old ≡ place ∷ self.new) }
        ensures order { IsStrictlyIncreasing self.old }
    {
        let word = first_word(&self.words, self.first, self.end);
        self.first = word;
        if word == self.end {
            return None;
        }
        Some(take_lowest(&mut self.words, word))
    }
}

// Makes room for the places of a word.
#[inline(always)]
fn reach(words: &mut Vec<u64>, word: usize) -> Result<(), AllocError>
    requires { word < 2 ^ 58 }
    ensures within { OnOk result (word < vec_len words.new) }
    ensures longer { vec_len words.old ≤ vec_len words.new }
    ensures few { vec_len words.old ≤ 2 ^ 58 → vec_len words.new ≤ 2 ^ 58 }
    ensures same { (p : ℕ) → is_in words.new.items p ≡ is_in words.old.items p }
    ensures err { OnErr result (words.new.items ≡ words.old.items) }
{
    if words.len() <= word {
        grow(words, word)
    } else {
        Ok(())
    }
}

// Adds words up to one behind the last: a call of its own, so that a put without it stands where it
// is made.
#[cold]
#[inline(never)]
fn grow(words: &mut Vec<u64>, word: usize) -> Result<(), AllocError>
    requires behind { vec_len words.old ≤ word }
    requires few { word < 2 ^ 58 }
    ensures within { OnOk result (word < vec_len words.new) }
    ensures longer { vec_len words.old ≤ vec_len words.new }
    ensures few { vec_len words.old ≤ 2 ^ 58 → vec_len words.new ≤ 2 ^ 58 }
    ensures same { (p : ℕ) → is_in words.new.items p ≡ is_in words.old.items p }
    ensures err { OnErr result (words.new.items ≡ words.old.items) }
{
    words.resize(word + 1, 0)?;
    Ok(())
}

// Puts a place in, in a word that is there.
#[inline(always)]
fn set_bit(words: &mut [u64], place: usize)
    requires { place / 64 < length words.old }
    ensures { (p : ℕ) → is_in words.new p ≡ ((p == place) || is_in words.old p) }
{
    words[place / 64] |= 1 << ((place % 64) as u32);
}

// The first word with a place, from one on before which there is none; `end`, behind which there is
// none, where there is none before it.
fn first_word(words: &[u64], from: usize, end: usize) -> usize
    requires { end ≤ length words.now }
    ensures within { result ≤ end }
    ensures below { (i : ℕ) → from ≤ i → i < result → slice_index words.now i ≡ 0 }
    ensures found { result < end → slice_index words.now result ≢ 0 }
{
    let mut word = from.min(end);
    while word < end && words[word] == 0 {
        word += 1;
    }
    word
}

// Takes the least place out of a word.
fn take_lowest(words: &mut [u64], word: usize) -> usize
    requires within { word < length words.old }
    requires some { slice_index words.old word ≢ 0 }
    requires few { length words.old ≤ 2 ^ 58 }
    ensures place { result / 64 ≡ word }
    ensures member { is_in words.old result ≡ true }
    ensures least { (p : ℕ) → p / 64 ≡ word → p < result → is_in words.old p ≡ false }
    ensures rest { (p : ℕ) → is_in words.new p ≡ (if p == result then false else is_in words.old p) }
{
    let bit = lowest_bit(words[word]);
    words[word] &= !(1 << bit);
    64 * word + bit as usize
}

// The lowest bit that is set.
fn lowest_bit(word: u64) -> u32
    requires { word ≢ 0 }
    ensures within { result < 64 }
    ensures set { bit_at word result ≡ 1 }
    ensures clear { (i : ℕ) → i < result → bit_at word i ≡ 0 }
{
    word.trailing_zeros()
}
