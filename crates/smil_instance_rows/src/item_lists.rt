//! The instance times of one list of items, each in a list of its own, and their values in rising
//! order.

ghost use Rattle.std.specs.Prelude.{◌≡◌, List, [], ◌∷◌, ◌++◌, OnOk, OnErr, IfOk, ◌<◌, length, get_or, set, not, find, true, false, map, replicate};
ghost use Rattle.smil_instance_rows.specs.Rows.{from_place, before_place};
ghost use Rattle.smil_instance_rows.specs.Values.{merged, with_idle};
ghost use Rattle.smil_instance_rows.specs.Places.{IsNotAfter, EndsWith, last_alone};

use super::instant::Instant;
use super::item_times::{InstanceTime, ItemTimes, add, cut, cut_later, keep_last, undo};
use super::sorted::SortedList;
use smallvec::SmallVec;
use smil_model::Duplicate;
use std::alloc::{AllocError, Global};
use std::marker::Model;

/// The instance times of each item of a begin or end list, seen as a list of lists. The last items
/// for which nothing was kept yet have no list.
#[derive(Drop)]
pub struct ItemLists<T: Instant> {
    sorted: SortedList<T>,
    items: SmallVec<ItemTimes, 1>,
    idle: usize,
}

impl<T: Instant> Model for ItemLists<T> {
    ghost use Rattle.std.specs.Prelude.{◌≡◌, List};
    ghost use Rattle.smil_instance_rows.specs.declared.item_times.InstanceTime.{InstanceTime};
    ghost use Rattle.smil_instance_rows.specs.Values.{merged, with_idle};

    ghost Value = { List (List InstanceTime) };

    ghost view = { λ a. with_idle a.idle a.items.items };

    ghost invariant = { λ a. a.sorted ≡ merged T.at_most T.choose a.items.items };
}

impl<T: Instant> Duplicate for ItemLists<T> {
    fn copy(&self) -> Result<Self, AllocError> {
        let alloc = *self.items.allocator();
        if self.items.is_empty() {
            return Ok(ItemLists {
                items: SmallVec::new(alloc),
                idle: self.idle,
                sorted: SortedList::new(alloc),
            });
        }
        Ok(ItemLists {
            items: copy_items(alloc, &self.items)?,
            idle: self.idle,
            sorted: self.sorted.copy()?,
        })
    }
}

impl<T: Instant> ItemLists<T> {
    /// So many items for which nothing is kept. It takes no memory.
    pub fn of(alloc: Global, items: usize) -> ItemLists<T>
        ensures { result ≡ replicate items [] }
    {
        ItemLists {
            items: SmallVec::new(alloc),
            idle: items,
            sorted: SortedList::new(alloc),
        }
    }

    /// Appends an item for which nothing is kept. It takes no memory, and fails only where there
    /// are 2^64 - 1 of them; then all is as before.
    pub fn push_item(&mut self) -> Result<(), AllocError>
        ensures ok { OnOk result (self.new ≡ self.old ++ [] ∷ []) }
        ensures err { OnErr result (self.new ≡ self.old) }
    {
        match self.idle.checked_add(1) {
            Some(idle) => {
                self.idle = idle;
                Ok(())
            }
            None => Err(AllocError),
        }
    }

    /// Adds an instance time to an item. Where memory runs out all is as before.
    pub fn add(&mut self, item: usize, last: InstanceTime) -> Result<(), AllocError>
        requires item { item < length self.old }
        requires order { IsNotAfter last.place (get_or self.old item []) }
        ensures ok { OnOk result (self.new
            ≡ set self.old item (get_or self.old item [] ++ last ∷ [])) }
        ensures err { OnErr result (self.new ≡ self.old) }
    {
        lay_out(&mut self.items, &mut self.idle, item)?;
        let list = self.items.get_mut(item).unwrap();
        add(list, &mut self.sorted, last)
    }

    /// Takes out of an item what is of places before this one. It takes no memory.
    pub fn cut(&mut self, item: usize, place: usize)
        requires { item < length self.old }
        ensures { self.new ≡ set self.old item (from_place place (get_or self.old item [])) }
    {
        if let Some(list) = self.items.get_mut(item) {
            cut(list, &mut self.sorted, place);
        }
    }

    /// Takes out of all items what is of this place or a later one. It takes no memory.
    pub fn cut_later(&mut self, place: usize)
        ensures { self.new ≡ map (before_place place) self.old }
    {
        for item in 0..self.items.len() {
            self.cut_later_at(item, place);
        }
    }

    // Takes out of an item what is of this place or a later one.
    fn cut_later_at(&mut self, item: usize, place: usize)
        requires { item < length self.old }
        ensures { self.new ≡ set self.old item (before_place place (get_or self.old item [])) }
    {
        if let Some(list) = self.items.get_mut(item) {
            cut_later(list, &mut self.sorted, place);
        }
    }

    /// Whether nothing is kept for an item. It takes no memory.
    pub fn is_idle(&self, item: usize) -> bool
        requires { item < length self.now }
        ensures { result ≡ true → (get_or self.now item [] ≡ []) }
    {
        match self.items.get(item) {
            Some(list) => list.is_empty(),
            None => true,
        }
    }

    /// Whether an item has an instance time of a place before this one. It takes no memory.
    pub fn has_before(&self, item: usize, place: usize) -> bool
        requires { item < length self.now }
        ensures { result ≡ false → (from_place place (get_or self.now item [])
            ≡ get_or self.now item []) }
    {
        match self.items.get(item) {
            Some(list) => list.has_before(place),
            None => false,
        }
    }

    /// Whether an item has more than one instance time. It takes no memory.
    pub fn has_more(&self, item: usize) -> bool
        requires { item < length self.now }
        ensures { result ≡ false → (last_alone (get_or self.now item [])
            ≡ get_or self.now item []) }
    {
        match self.items.get(item) {
            Some(list) => list.has_more(),
            None => false,
        }
    }

    /// Takes out of an item all but the last instance time. It takes no memory.
    pub fn keep_last(&mut self, item: usize)
        requires { item < length self.old }
        ensures { self.new ≡ set self.old item (last_alone (get_or self.old item [])) }
    {
        if let Some(list) = self.items.get_mut(item) {
            keep_last(list, &mut self.sorted);
        }
    }

    /// Takes the last instance time out of an item. It takes no memory.
    pub fn undo(&mut self, item: usize)
        requires item { item < length self.old }
        requires some { 0 < length (get_or self.old item []) }
        ensures { EndsWith (get_or self.old item [])
            (λ first last. self.new ≡ set self.old item first) }
    {
        if let Some(list) = self.items.get_mut(item) {
            undo(list, &mut self.sorted);
        }
    }

    /// The values of all items, in rising order. It takes no memory.
    pub fn values(&self) -> &[T]
        ensures { result.now ≡ merged T.at_most T.choose self.now }
    {
        self.sorted.as_slice()
    }

    /// The first value that is not less than this one; None exactly where there is none. It takes
    /// no memory.
    pub fn first_from(&self, value: T) -> Option<T>
        ensures { result ≡ find (T.at_most value) (merged T.at_most T.choose self.now) }
    {
        self.sorted.first_from(value)
    }

    /// The first value that is greater than this one; None exactly where there is none. It takes no
    /// memory.
    pub fn first_after(&self, value: T) -> Option<T>
        ensures { result ≡ find (λ other. not (T.at_most other value))
            (merged T.at_most T.choose self.now) }
    {
        self.sorted.first_after(value)
    }
}

// The copies of the times of items.
fn copy_items(alloc: Global, items: &[ItemTimes]) -> Result<SmallVec<ItemTimes, 1>, AllocError>
    ensures { IfOk result (λ copies. copies.items ≡ items.now) }
{
    let mut copies = SmallVec::new(alloc);
    for item in items {
        copies.push(item.copy()?)?;
    }
    Ok(copies)
}

// Makes lists for the items up to this one that have none. Where memory runs out all items are as
// before.
#[inline(always)]
fn lay_out(
    items: &mut SmallVec<ItemTimes, 1>,
    idle: &mut usize,
    item: usize,
) -> Result<(), AllocError>
    requires { item < length (with_idle idle.old items.old.items) }
    ensures same { with_idle idle.new items.new.items ≡ with_idle idle.old items.old.items }
    ensures ok { OnOk result (item < length items.new.items) }
{
    if item < items.len() {
        return Ok(());
    }
    lay_out_more(items, idle, item)
}

// Makes lists for the items up to this one. Where memory runs out all items are as before.
#[inline(never)]
fn lay_out_more(
    items: &mut SmallVec<ItemTimes, 1>,
    idle: &mut usize,
    item: usize,
) -> Result<(), AllocError>
    requires { item < length (with_idle idle.old items.old.items) }
    ensures same { with_idle idle.new items.new.items ≡ with_idle idle.old items.old.items }
    ensures ok { OnOk result (item < length items.new.items) }
{
    while items.len() <= item {
        let alloc = *items.allocator();
        items.push(ItemTimes::new(alloc))?;
        *idle -= 1;
    }
    Ok(())
}
