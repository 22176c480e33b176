//! Values in rising order.

ghost use Rattle.std.specs.Prelude.{◌≡◌, List, [], true, OnOk, OnErr, not, find, length, slice_get};
ghost use Rattle.smil_model.specs.Rising.{IsRising, IsPlaceFrom, put_in, taken_out};

use super::instant::Instant;
use smil_model::Duplicate;
use std::alloc::{AllocError, Global};
use std::marker::Model;

// How many of the rising values are less than the value. Mostly all are, as the last one tells.
fn place_from<T: Instant>(values: &[T], value: T) -> usize
    requires { IsRising T.at_most values.now }
    ensures { IsPlaceFrom T.at_most values.now value result }
{
    if goes_last(values, value) {
        return values.len();
    }
    values.partition_point(|other| other.is_before(value))
}

// Whether the value is greater than the last of the rising values; true where there are none.
#[inline(always)]
fn goes_last<T: Instant>(values: &[T], value: T) -> bool
    requires { IsRising T.at_most values.now }
    ensures { result ≡ true → IsPlaceFrom T.at_most values.now value (length values.now) }
{
    match values.last() {
        Some(last) => last.is_before(value),
        None => true,
    }
}

/// Puts a value in its place among rising ones. Where memory runs out they are as before.
#[inline(always)]
pub fn put_in<T: Instant>(values: &mut Vec<T>, value: T) -> Result<(), AllocError>
    requires { IsRising T.at_most values.old.items }
    ensures ok { OnOk result (values.new.items ≡ put_in T.at_most value values.old.items) }
    ensures rising { IsRising T.at_most values.new.items }
    ensures err { OnErr result (values.new.items ≡ values.old.items) }
{
    if !goes_last(values.as_slice(), value) {
        return put_between(values, value);
    }
    values.push(value)?;
    Ok(())
}

// Puts a value in its place among rising ones, which is mostly not the last.
#[inline(never)]
fn put_between<T: Instant>(values: &mut Vec<T>, value: T) -> Result<(), AllocError>
    requires { IsRising T.at_most values.old.items }
    ensures ok { OnOk result (values.new.items ≡ put_in T.at_most value values.old.items) }
    ensures rising { IsRising T.at_most values.new.items }
    ensures err { OnErr result (values.new.items ≡ values.old.items) }
{
    let place = place_from(values.as_slice(), value);
    values.insert(place, value)?;
    Ok(())
}

/// Values in rising order, repetitions kept; seen as their list.
#[derive(Drop)]
pub struct SortedList<T: Instant> {
    values: Vec<T>,
}

impl<T: Instant> Model for SortedList<T> {
    ghost use Rattle.std.specs.Prelude.{List};
    ghost use Rattle.smil_model.specs.Rising.{IsRising};

    ghost Value = { List T };

    ghost view = { λ a. a.values.items };

    ghost invariant = { λ a. IsRising T.at_most a.values.items };
}

impl<T: Instant> Duplicate for SortedList<T> {
    fn copy(&self) -> Result<Self, AllocError> {
        Ok(SortedList {
            values: Vec::from_slice(*self.values.allocator(), &self.values)?,
        })
    }
}

impl<T: Instant> SortedList<T> {
    /// No values. It takes no memory.
    pub fn new(alloc: Global) -> SortedList<T>
        ensures { result ≡ [] }
    {
        SortedList {
            values: Vec::new(alloc),
        }
    }

    /// Puts a value in its place. Where memory runs out the list is as before.
    #[inline(always)]
    pub fn put(&mut self, value: T) -> Result<(), AllocError>
        ensures ok { OnOk result (self.new ≡ put_in T.at_most value self.old) }
        ensures err { OnErr result (self.new ≡ self.old) }
    {
        put_in(&mut self.values, value)
    }

    /// Takes a value out once, if it is there. It takes no memory.
    pub fn take_out(&mut self, value: T)
        ensures { self.new ≡ taken_out T.at_most value self.old }
    {
        let place = place_from(self.values.as_slice(), value);
        if place < self.values.len() && !value.is_before(self.values[place]) {
            self.values.remove(place);
        }
    }

    /// The values, in rising order. It takes no memory.
    pub fn as_slice(&self) -> &[T]
        ensures { result.now ≡ self.now }
    {
        self.values.as_slice()
    }

    /// The first value that is not less than this one; None exactly where there is none. It takes
    /// no memory.
    pub fn first_from(&self, value: T) -> Option<T>
        ensures { result ≡ find (T.at_most value) self.now }
    {
        let place = place_from(self.values.as_slice(), value);
        self.at(place)
    }

    /// The first value that is greater than this one; None exactly where there is none. It takes no
    /// memory.
    pub fn first_after(&self, value: T) -> Option<T>
        ensures { result ≡ find (λ other. not (T.at_most other value)) self.now }
    {
        let place = self
            .values
            .as_slice()
            .partition_point(|other| !value.is_before(*other));
        self.at(place)
    }

    // The value at a place from 0; None exactly where the place is not below the length.
    fn at(&self, place: usize) -> Option<T>
        ensures { result ≡ slice_get self.now place }
    {
        self.values.as_slice().get(place).copied()
    }
}
