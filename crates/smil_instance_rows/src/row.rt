//! The instance times of an element.

ghost use Rattle.smil_instance_rows.specs.Notes.{row_with_times};
ghost use Rattle.std.specs.Prelude.{◌≡◌, List, [], ◌∷◌, ◌++◌, OnOk, OnErr, ◌<◌, length, true, false};
ghost use Rattle.std.specs.Option.{option_map_or};
ghost use Rattle.smil_model.specs.declared.times.Time.TheVariants.{At, Unresolved};
ghost use Rattle.smil_instance_rows.specs.Rows.{from_place, row_before};
ghost use Rattle.smil_instance_rows.specs.Values.{begins_of, ends_of};
ghost use Rattle.smil_model.specs.interval.Intervals.{has_any};
ghost use Rattle.smil_instance_rows.specs.Readings.{row_times, first_from, first_after};
ghost use Rattle.smil_instance_rows.specs.Places.{IsNotAfter, EndsWith, last_alone};
ghost use Rattle.smil_instance_rows.specs.Cells.{side_of, list_of, with_list, with_item};

use super::item_times::InstanceTime;
use super::side::Side;
use smil_model::{Duplicate, Edge, Time};
use std::alloc::{AllocError, Global};
use std::marker::Model;

/// The instance times of an element's begin and end lists, seen as a row.
#[derive(Drop)]
pub struct InstanceRow {
    serial: u32,
    begins: Side<i64>,
    ends: Side<Time>,
}

impl Model for InstanceRow {
    ghost use Rattle.smil_instance_rows.specs.Rows.{ElementTimes};

    ghost Value = { ElementTimes };

    ghost view = { λ a. record { serial = a.serial; begins = a.begins; ends = a.ends } };
}

impl Duplicate for InstanceRow {
    fn copy(&self) -> Result<Self, AllocError> {
        Ok(InstanceRow {
            serial: self.serial,
            begins: self.begins.copy()?,
            ends: self.ends.copy()?,
        })
    }
}

impl InstanceRow {
    /// The row of an element without items. It takes no memory.
    pub fn new(alloc: Global, serial: u32) -> InstanceRow
        ensures { result ≡ record { serial = serial; begins = []; ends = [] } }
    {
        InstanceRow {
            serial,
            begins: Side::new(alloc),
            ends: Side::new(alloc),
        }
    }

    /// Appends an item for which nothing is kept to a side. Where memory runs out all is as before.
    pub fn push_item(&mut self, side: Edge) -> Result<(), AllocError>
        ensures ok { OnOk result (self.new ≡ with_item self.old side) }
        ensures err { OnErr result (self.new ≡ self.old) }
    {
        match side {
            Edge::Begin => self.begins.push_item(),
            Edge::End => self.ends.push_item(),
        }
    }

    /// Adds an instance time to an item. Where memory runs out all is as before.
    pub fn add(&mut self, side: Edge, item: usize, last: InstanceTime) -> Result<(), AllocError>
        requires item { item < length (side_of self.old side) }
        requires order { IsNotAfter last.place (list_of self.old side item) }
        ensures ok { OnOk result (self.new
            ≡ with_list self.old side item (list_of self.old side item ++ last ∷ [])) }
        ensures err { OnErr result (self.new ≡ self.old) }
        ensures serial { self.new.serial ≡ self.old.serial }
    {
        match side {
            Edge::Begin => self.begins.add(item, last),
            Edge::End => self.ends.add(item, last),
        }
    }

    /// Takes out of an item what is of places before this one. It takes no memory.
    pub fn cut(&mut self, side: Edge, item: usize, place: usize)
        requires { item < length (side_of self.old side) }
        ensures kept { self.new ≡ with_list self.old side item
            (from_place place (list_of self.old side item)) }
        ensures serial { self.new.serial ≡ self.old.serial }
    {
        match side {
            Edge::Begin => self.begins.cut(item, place),
            Edge::End => self.ends.cut(item, place),
        }
    }

    /// Takes out of all items what is of this place or a later one. It takes no memory.
    pub fn cut_later(&mut self, place: usize)
        ensures { self.new ≡ row_before place self.old }
    {
        self.begins.cut_later(place);
        self.ends.cut_later(place);
    }

    /// Takes over the instance times of a row. It takes no memory.
    pub fn restore(&mut self, row: InstanceRow)
        ensures { self.new ≡ row_with_times self.old row }
    {
        let InstanceRow {
            serial: _serial,
            begins,
            ends,
        } = row;
        self.begins = begins;
        self.ends = ends;
    }

    /// Whether nothing is kept for an item. It takes no memory.
    pub fn is_idle(&self, side: Edge, item: usize) -> bool
        requires { item < length (side_of self.now side) }
        ensures { result ≡ true → (list_of self.now side item ≡ []) }
    {
        match side {
            Edge::Begin => self.begins.is_idle(item),
            Edge::End => self.ends.is_idle(item),
        }
    }

    /// Whether an item has an instance time of a place before this one. It takes no memory.
    pub fn has_before(&self, side: Edge, item: usize, place: usize) -> bool
        requires { item < length (side_of self.now side) }
        ensures { result ≡ false → (from_place place (list_of self.now side item)
            ≡ list_of self.now side item) }
    {
        match side {
            Edge::Begin => self.begins.has_before(item, place),
            Edge::End => self.ends.has_before(item, place),
        }
    }

    /// Whether an item has more than one instance time. It takes no memory.
    pub fn has_more(&self, side: Edge, item: usize) -> bool
        requires { item < length (side_of self.now side) }
        ensures { result ≡ false → (last_alone (list_of self.now side item)
            ≡ list_of self.now side item) }
    {
        match side {
            Edge::Begin => self.begins.has_more(item),
            Edge::End => self.ends.has_more(item),
        }
    }

    /// Takes out of an item all but the last instance time. It takes no memory.
    pub fn keep_last(&mut self, side: Edge, item: usize)
        requires { item < length (side_of self.old side) }
        ensures kept { self.new ≡ with_list self.old side item
            (last_alone (list_of self.old side item)) }
        ensures serial { self.new.serial ≡ self.old.serial }
    {
        match side {
            Edge::Begin => self.begins.keep_last(item),
            Edge::End => self.ends.keep_last(item),
        }
    }

    /// Takes the last instance time out of an item. It takes no memory.
    pub fn undo(&mut self, side: Edge, item: usize)
        requires item { item < length (side_of self.old side) }
        requires some { 0 < length (list_of self.old side item) }
        ensures kept { EndsWith (list_of self.old side item)
            (λ first last. self.new ≡ with_list self.old side item first) }
        ensures serial { self.new.serial ≡ self.old.serial }
    {
        match side {
            Edge::Begin => self.begins.undo(item),
            Edge::End => self.ends.undo(item),
        }
    }

    /// The begins, in rising order. It takes no memory.
    pub fn begins(&self) -> &[i64]
        ensures { result.now ≡ begins_of self.now.begins }
    {
        self.begins.values()
    }

    /// The ends, in rising order, with indefinite last. It takes no memory.
    pub fn ends(&self) -> &[Time]
        ensures { result.now ≡ ends_of self.now.ends }
    {
        self.ends.values()
    }

    /// The first begin or end that is not less than the value; unresolved exactly where there is
    /// none. It takes no memory, and log n steps for n of them.
    pub fn first_from(&self, side: Edge, value: i64) -> Time
        ensures { result ≡ first_from value (row_times self.now side) }
    {
        match side {
            Edge::Begin => at_or_unresolved(self.begins.first_from(value)),
            Edge::End => self
                .ends
                .first_from(Time::At(value))
                .unwrap_or(Time::Unresolved),
        }
    }

    /// The first begin or end that is greater than the value; unresolved exactly where there is
    /// none. It takes no memory, and log n steps for n of them.
    pub fn first_after(&self, side: Edge, value: i64) -> Time
        ensures { result ≡ first_after value (row_times self.now side) }
    {
        match side {
            Edge::Begin => at_or_unresolved(self.begins.first_after(value)),
            Edge::End => self
                .ends
                .first_after(Time::At(value))
                .unwrap_or(Time::Unresolved),
        }
    }

    /// Whether there is any end. It takes no memory.
    pub fn any_end(&self) -> bool
        ensures { result ≡ has_any (ends_of self.now.ends) }
    {
        !self.ends().is_empty()
    }
}

// The time of a begin; unresolved where there is none.
fn at_or_unresolved(begin: Option<i64>) -> Time
    ensures { result ≡ option_map_or At begin Unresolved }
{
    match begin {
        Some(value) => Time::At(value),
        None => Time::Unresolved,
    }
}
