//! The instance times of one list of items.

ghost use Rattle.std.specs.Prelude.{◌≡◌, List, [], ◌∷◌, ◌++◌, OnOk, OnErr, IfOk, ◌<◌, length, get_or, set, not, find, true, false, map, replicate, suc};
ghost use Rattle.smil_instance_rows.specs.Rows.{from_place, before_place};
ghost use Rattle.smil_instance_rows.specs.Values.{merged};
ghost use Rattle.smil_instance_rows.specs.Places.{IsNotAfter, EndsWith, last_alone};

use super::instant::Instant;
use super::item_lists::ItemLists;
use super::item_times::InstanceTime;
use smil_model::Duplicate;
use std::alloc::{AllocError, Global};
use std::marker::Model;

/// The instance times of each item of a begin or end list, seen as a list of lists. Most lists have
/// one instance time at most: it stands in the side itself, several in memory of their own.
#[derive(Drop)]
pub struct Side<T: Instant> {
    kept: Kept<T>,
    alloc: Global,
}

/// What is kept for the items of a list.
#[derive(Drop)]
enum Kept<T: Instant> {
    /// Nothing, for so many items.
    Nothing { items: u32 },
    Single(SingleTime<T>),
    Several(Box<ItemLists<T>>),
}

/// The one instance time of so many items.
#[derive(Clone, Copy)]
struct SingleTime<T: Instant> {
    items: u32,
    /// The index of the item that has it.
    item: u32,
    place: usize,
    /// What its time gives.
    value: T,
}

impl<T: Instant> Model for Side<T> {
    ghost use Rattle.std.specs.Prelude.{List};
    ghost use Rattle.smil_instance_rows.specs.declared.item_times.InstanceTime.{InstanceTime};
    ghost use Rattle.smil_instance_rows.specs.Sides.{IsWithin, lists_of};

    ghost Value = { List (List InstanceTime) };

    ghost view = { λ a. lists_of T.given a.kept };

    ghost invariant = { λ a. IsWithin a.kept };
}

impl<T: Instant> Duplicate for Side<T> {
    fn copy(&self) -> Result<Self, AllocError> {
        let kept = match &self.kept {
            Kept::Nothing { items } => Kept::Nothing { items: *items },
            Kept::Single(single) => Kept::Single(*single),
            Kept::Several(lists) => Kept::Several(Box::new(self.alloc, (**lists).copy()?)?),
        };
        Ok(Side {
            kept,
            alloc: self.alloc,
        })
    }
}

impl<T: Instant> Side<T> {
    /// A list of no items. It takes no memory.
    pub fn new(alloc: Global) -> Side<T>
        ensures { result ≡ [] }
    {
        Side {
            kept: Kept::Nothing { items: 0 },
            alloc,
        }
    }

    /// Appends an item for which nothing is kept. It takes no memory, and fails only where there
    /// are 2^32 - 1 of them; then all is as before.
    pub fn push_item(&mut self) -> Result<(), AllocError>
        ensures ok { OnOk result (self.new ≡ self.old ++ [] ∷ []) }
        ensures err { OnErr result (self.new ≡ self.old) }
    {
        match &mut self.kept {
            Kept::Nothing { items } => count_one(items),
            Kept::Single(single) => count_one(&mut single.items),
            Kept::Several(lists) => lists.push_item(),
        }
    }

    /// Adds an instance time to an item. Where memory runs out all is as before.
    pub fn add(&mut self, item: usize, last: InstanceTime) -> Result<(), AllocError>
        requires item { item < length self.old }
        requires order { IsNotAfter last.place (get_or self.old item []) }
        ensures ok { OnOk result (self.new
            ≡ set self.old item (get_or self.old item [] ++ last ∷ [])) }
        ensures err { OnErr result (self.new ≡ self.old) }
    {
        match &mut self.kept {
            Kept::Several(lists) => return lists.add(item, last),
            Kept::Nothing { items } => {
                if let Some(value) = T::of_time(last.time) {
                    self.kept = Kept::Single(SingleTime {
                        items: *items,
                        item: item as u32,
                        place: last.place,
                        value,
                    });
                    return Ok(());
                }
            }
            Kept::Single(_) => {}
        }
        let mut lists = self.laid_out()?;
        lists.add(item, last)?;
        self.kept = Kept::Several(Box::new(self.alloc, lists)?);
        Ok(())
    }

    // The same instance times, each item's in a list of its own, unless memory runs out.
    fn laid_out(&self) -> Result<ItemLists<T>, AllocError>
        ensures { IfOk result (λ lists. lists ≡ self.now) }
    {
        match &self.kept {
            Kept::Nothing { items } => Ok(ItemLists::of(self.alloc, *items as usize)),
            Kept::Single(single) => {
                let mut lists = ItemLists::of(self.alloc, single.items as usize);
                let place = single.place;
                let time = single.value.time();
                lists.add(single.item as usize, InstanceTime { place, time })?;
                Ok(lists)
            }
            Kept::Several(lists) => (**lists).copy(),
        }
    }

    /// Takes out of an item what is of places before this one. It takes no memory.
    pub fn cut(&mut self, item: usize, place: usize)
        requires { item < length self.old }
        ensures { self.new ≡ set self.old item (from_place place (get_or self.old item [])) }
    {
        match &mut self.kept {
            Kept::Nothing { .. } => {}
            Kept::Single(single) => {
                if single.item as usize == item && single.place < place {
                    let items = single.items;
                    self.clear(items);
                }
            }
            Kept::Several(lists) => lists.cut(item, place),
        }
    }

    /// Takes out of all items what is of this place or a later one. It takes no memory.
    pub fn cut_later(&mut self, place: usize)
        ensures { self.new ≡ map (before_place place) self.old }
    {
        match &mut self.kept {
            Kept::Nothing { .. } => {}
            Kept::Single(single) => {
                if single.place >= place {
                    let items = single.items;
                    self.clear(items);
                }
            }
            Kept::Several(lists) => lists.cut_later(place),
        }
    }

    // Keeps nothing, for so many items.
    fn clear(&mut self, items: u32)
        ensures { self.new ≡ replicate items [] }
    {
        self.kept = Kept::Nothing { items };
    }

    /// Whether nothing is kept for an item. It takes no memory.
    pub fn is_idle(&self, item: usize) -> bool
        requires { item < length self.now }
        ensures { result ≡ true → (get_or self.now item [] ≡ []) }
    {
        match &self.kept {
            Kept::Nothing { .. } => true,
            Kept::Single(single) => single.item as usize != item,
            Kept::Several(lists) => lists.is_idle(item),
        }
    }

    /// Whether an item has an instance time of a place before this one. It takes no memory.
    pub fn has_before(&self, item: usize, place: usize) -> bool
        requires { item < length self.now }
        ensures { result ≡ false → (from_place place (get_or self.now item [])
            ≡ get_or self.now item []) }
    {
        match &self.kept {
            Kept::Nothing { .. } => false,
            Kept::Single(single) => single.item as usize == item && single.place < place,
            Kept::Several(lists) => lists.has_before(item, place),
        }
    }

    /// Whether an item has more than one instance time. It takes no memory.
    pub fn has_more(&self, item: usize) -> bool
        requires { item < length self.now }
        ensures { result ≡ false → (last_alone (get_or self.now item [])
            ≡ get_or self.now item []) }
    {
        match &self.kept {
            Kept::Several(lists) => lists.has_more(item),
            _ => false,
        }
    }

    /// Takes out of an item all but the last instance time. It takes no memory.
    pub fn keep_last(&mut self, item: usize)
        requires { item < length self.old }
        ensures { self.new ≡ set self.old item (last_alone (get_or self.old item [])) }
    {
        match &mut self.kept {
            Kept::Nothing { .. } => {}
            Kept::Single(_) => {}
            Kept::Several(lists) => lists.keep_last(item),
        }
    }

    /// Takes the last instance time out of an item. It takes no memory.
    pub fn undo(&mut self, item: usize)
        requires item { item < length self.old }
        requires some { 0 < length (get_or self.old item []) }
        ensures { EndsWith (get_or self.old item [])
            (λ first last. self.new ≡ set self.old item first) }
    {
        match &mut self.kept {
            Kept::Nothing { .. } => {}
            Kept::Single(single) => {
                let items = single.items;
                self.clear(items);
            }
            Kept::Several(lists) => lists.undo(item),
        }
    }

    /// The values of all items, in rising order. It takes no memory.
    pub fn values(&self) -> &[T]
        ensures { result.now ≡ merged T.at_most T.choose self.now }
    {
        match &self.kept {
            Kept::Nothing { .. } => &[],
            Kept::Single(single) => single.value.alone(),
            Kept::Several(lists) => lists.values(),
        }
    }

    /// The first value that is not less than this one; None exactly where there is none. It takes
    /// no memory.
    pub fn first_from(&self, value: T) -> Option<T>
        ensures { result ≡ find (T.at_most value) (merged T.at_most T.choose self.now) }
    {
        match &self.kept {
            Kept::Nothing { .. } => None,
            Kept::Single(single) => {
                if single.value.is_before(value) {
                    return None;
                }
                Some(single.value)
            }
            Kept::Several(lists) => lists.first_from(value),
        }
    }

    /// The first value that is greater than this one; None exactly where there is none. It takes no
    /// memory.
    pub fn first_after(&self, value: T) -> Option<T>
        ensures { result ≡ find (λ other. not (T.at_most other value))
            (merged T.at_most T.choose self.now) }
    {
        match &self.kept {
            Kept::Nothing { .. } => None,
            Kept::Single(single) => {
                if value.is_before(single.value) {
                    return Some(single.value);
                }
                None
            }
            Kept::Several(lists) => lists.first_after(value),
        }
    }
}

// One more item; fails only where there are 2^32 - 1, and then there are as many as before.
fn count_one(items: &mut u32) -> Result<(), AllocError>
    ensures ok { OnOk result (items.new ≡ suc items.old) }
    ensures err { OnErr result (items.new ≡ items.old) }
{
    match items.checked_add(1) {
        Some(more) => {
            *items = more;
            Ok(())
        }
        None => Err(AllocError),
    }
}
