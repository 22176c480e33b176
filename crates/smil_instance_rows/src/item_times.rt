//! The times that entries gave to an item, in the order of the entries.

ghost use Rattle.std.specs.Prelude.{◌≡◌, List, [], ◌∷◌, ◌++◌, OnOk, OnErr, IfSome, IfNone, ◌≤◌, ◌<◌, length, true, false};
ghost use Rattle.smil_instance_rows.specs.Rows.{from_place, before_place};
ghost use Rattle.smil_instance_rows.specs.Values.{with_value, without_value};
ghost use Rattle.smil_instance_rows.specs.Places.{IsNotAfter, TakesFirst, TakesMore, last_alone, Replaces, IsUndone, TakesLast};

use super::instant::Instant;
use super::short_queue::ShortQueue;
use super::sorted::SortedList;
use smil_model::{Duplicate, Time};
use std::alloc::{AllocError, Global};
use std::default::MadeWith;
use std::marker::Model;

/// A time with the place of the entry that gave it.
#[derive(Clone, Copy)]
pub struct InstanceTime {
    pub place: usize,
    pub time: Time,
}

/// The instance times of an item, in the order of their places; seen as their list.
#[derive(Drop)]
pub struct ItemTimes {
    kept: ShortQueue<InstanceTime>,
}

impl Model for ItemTimes {
    ghost use Rattle.std.specs.Prelude.{List};
    ghost use Rattle.smil_instance_rows.specs.declared.item_times.InstanceTime.{InstanceTime};
    ghost use Rattle.smil_instance_rows.specs.Places.{IsInOrder};

    ghost Value = { List InstanceTime };

    ghost view = { λ a. a.kept };

    ghost invariant = { λ a. IsInOrder a.kept };
}

impl Duplicate for ItemTimes {
    fn copy(&self) -> Result<Self, AllocError> {
        Ok(ItemTimes {
            kept: self.kept.copy()?,
        })
    }
}

impl MadeWith<Global> for ItemTimes {
    fn made_with(alloc: Global) -> ItemTimes {
        ItemTimes::new(alloc)
    }
}

impl ItemTimes {
    /// No times. It takes no memory.
    pub fn new(alloc: Global) -> ItemTimes
        ensures { result ≡ [] }
    {
        ItemTimes {
            kept: ShortQueue::new(alloc),
        }
    }

    /// Appends a time that is of no earlier place. Where memory runs out the list is as before.
    #[inline(always)]
    pub fn push(&mut self, last: InstanceTime) -> Result<(), AllocError>
        requires { IsNotAfter last.place self.old }
        ensures ok { OnOk result (self.new ≡ self.old ++ last ∷ []) }
        ensures err { OnErr result (self.new ≡ self.old) }
    {
        self.kept.push_back(last)
    }

    /// Takes the last out; None exactly where there is none. It takes no memory.
    pub fn pop_last(&mut self) -> Option<InstanceTime>
        ensures some { IfSome result (λ last. self.old ≡ self.new ++ last ∷ []) }
        ensures none { IfNone result (self.old ≡ []) }
    {
        self.kept.pop_back()
    }

    /// Takes the first out, if it is of a place before this one; else all stays. It takes no
    /// memory.
    pub fn pop_before(&mut self, place: usize) -> Option<InstanceTime>
        ensures some { IfSome result (TakesFirst place self.old self.new) }
        ensures none { IfNone result ((self.new ≡ self.old)
            × (from_place place self.old ≡ self.old)) }
    {
        match self.kept.first() {
            Some(first) => {
                if first.place >= place {
                    return None;
                }
            }
            None => return None,
        }
        self.kept.pop_front()
    }

    /// Takes the last out, if it is of this place or a later one; else all stays. It takes no
    /// memory.
    pub fn pop_from(&mut self, place: usize) -> Option<InstanceTime>
        ensures some { IfSome result (TakesLast place self.old self.new) }
        ensures none { IfNone result ((self.new ≡ self.old)
            × (before_place place self.old ≡ self.old)) }
    {
        match self.kept.last() {
            Some(last) => {
                if last.place < place {
                    return None;
                }
            }
            None => return None,
        }
        self.kept.pop_back()
    }

    /// Whether the first is of a place before this one; false where there is none. It takes no
    /// memory.
    pub fn has_before(&self, place: usize) -> bool
        ensures { result ≡ false → (from_place place self.now ≡ self.now) }
    {
        match self.kept.first() {
            Some(first) => first.place < place,
            None => false,
        }
    }

    /// Whether there are none. It takes no memory.
    pub fn is_empty(&self) -> bool
        ensures { result ≡ true → (self.now ≡ []) }
    {
        self.kept.is_empty()
    }

    /// Whether there is more than one. It takes no memory.
    pub fn has_more(&self) -> bool
        ensures { result ≡ false → (last_alone self.now ≡ self.now) }
    {
        self.kept.has_more()
    }

    /// Takes the first out, if it is not the only one; else all stays. It takes no memory.
    pub fn pop_more(&mut self) -> Option<InstanceTime>
        ensures some { IfSome result (TakesMore self.old self.new) }
        ensures none { IfNone result ((self.new ≡ self.old) × (length self.old ≤ 1)) }
    {
        if self.kept.has_more() {
            self.kept.pop_front()
        } else {
            None
        }
    }
}

/// Adds an instance time, and its value to the sorted ones. Where memory runs out both are as
/// before.
#[inline(always)]
pub fn add<T: Instant>(
    kept: &mut ItemTimes,
    sorted: &mut SortedList<T>,
    last: InstanceTime,
) -> Result<(), AllocError>
    requires { IsNotAfter last.place kept.old }
    ensures kept { OnOk result (kept.new ≡ kept.old ++ last ∷ []) }
    ensures sorted { OnOk result (sorted.new
        ≡ with_value T.at_most (T.choose last.time) sorted.old) }
    ensures kept_stays { OnErr result (kept.new ≡ kept.old) }
    ensures sorted_stays { OnErr result (sorted.new ≡ sorted.old) }
{
    let Some(value) = T::of_time(last.time) else {
        return kept.push(last);
    };
    sorted.put(value)?;
    match kept.push(last) {
        Ok(()) => Ok(()),
        Err(error) => {
            sorted.take_out(value);
            Err(error)
        }
    }
}

/// Takes out what is of places before this one, with its values. It takes no memory.
pub fn cut<T: Instant>(kept: &mut ItemTimes, sorted: &mut SortedList<T>, place: usize)
    ensures kept { kept.new ≡ from_place place kept.old }
    ensures sorted { Replaces T.at_most T.choose kept.old kept.new sorted.old sorted.new }
{
    while let Some(first) = kept.pop_before(place) {
        take_out_value(sorted, first.time);
    }
}

/// Takes out what is of this place or a later one, with its values. It takes no memory.
pub fn cut_later<T: Instant>(kept: &mut ItemTimes, sorted: &mut SortedList<T>, place: usize)
    ensures kept { kept.new ≡ before_place place kept.old }
    ensures sorted { Replaces T.at_most T.choose kept.old kept.new sorted.old sorted.new }
{
    while let Some(last) = kept.pop_from(place) {
        take_out_value(sorted, last.time);
    }
}

/// Takes out all but the last, with their values. It takes no memory.
pub fn keep_last<T: Instant>(kept: &mut ItemTimes, sorted: &mut SortedList<T>)
    ensures kept { kept.new ≡ last_alone kept.old }
    ensures sorted { Replaces T.at_most T.choose kept.old kept.new sorted.old sorted.new }
{
    while let Some(first) = kept.pop_more() {
        take_out_value(sorted, first.time);
    }
}

/// Takes the last out, with its value. It takes no memory.
pub fn undo<T: Instant>(kept: &mut ItemTimes, sorted: &mut SortedList<T>)
    requires { 0 < length kept.old }
    ensures { IsUndone T.at_most T.choose kept.old kept.new sorted.old sorted.new }
{
    if let Some(last) = kept.pop_last() {
        take_out_value(sorted, last.time);
    }
}

// Takes out the value that a time gave, if any.
fn take_out_value<T: Instant>(sorted: &mut SortedList<T>, time: Time)
    ensures { sorted.new ≡ without_value T.at_most (T.choose time) sorted.old }
{
    if let Some(value) = T::of_time(time) {
        sorted.take_out(value);
    }
}
