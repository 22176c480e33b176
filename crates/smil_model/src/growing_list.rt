//! Lists that grow at their end.

ghost use Rattle.std.specs.Prelude.{◌≡◌, ℕ, ◌≤◌, List, [], ◌∷◌, ◌++◌, length, take, OnOk, OnErr, IfOk, slice_get, option_copied};

use super::duplicate::Duplicate;
use std::alloc::{AllocError, Global};
use std::marker::Model;

/// A list that grows at its end, seen as the list of its elements.
#[derive(Drop)]
pub struct GrowingList<T> {
    items: Vec<T>,
}

impl<T> Model for GrowingList<T> {
    ghost Value = { List T };

    ghost view = { λ a. a.items.items };
}

impl<T: PartialEq> PartialEq for GrowingList<T> {
    ghost use Rattle.std.specs.Cmp.Lexicographic.{pointwise, lists_per};

    ghost eq = { λ x y. pointwise T.eq x y };

    ghost laws = { lists_per T.laws };

    fn eq(&self, other: &Self) -> bool {
        self.items == other.items
    }
}

impl<T: Duplicate> Duplicate for GrowingList<T> {
    fn copy(&self) -> Result<Self, AllocError> {
        let mut items = Vec::with_capacity(*self.items.allocator(), self.items.len())?;
        for item in self.items.as_slice() {
            items.push(item.copy()?)?;
        }
        Ok(GrowingList { items })
    }
}

/// A list of bytes.
pub type Bytes = GrowingList<u8>;

/// A list of serials of nodes.
pub type Serials = GrowingList<u32>;

/// A list of words, each a list of bytes.
pub type WordList = GrowingList<Bytes>;

impl<T: Drop> GrowingList<T> {
    /// The empty list, which takes no memory.
    pub fn new(alloc: Global) -> Self
        ensures { result ≡ [] }
    {
        GrowingList {
            items: Vec::new(alloc),
        }
    }

    /// Appends an element. Where memory runs out the list is as before.
    pub fn push(&mut self, item: T) -> Result<(), AllocError>
        ensures ok { OnOk result (self.new ≡ self.old ++ item ∷ []) }
        ensures err { OnErr result (self.new ≡ self.old) }
    {
        self.items.push(item)?;
        Ok(())
    }

    /// How many elements the list has. It takes no memory.
    pub fn len(&self) -> usize
        ensures { result ≡ length self.now }
    {
        self.items.len()
    }

    /// The element at a place from 0; None exactly where the place is not below the length. It
    /// takes no memory.
    pub fn get(&self, place: usize) -> Option<&T>
        ensures { option_copied result ≡ slice_get self.now place }
    {
        self.items.get(place)
    }

    /// The whole list. It takes no memory.
    pub fn slice(&self) -> &[T]
        ensures { result.now ≡ self.now }
    {
        self.items.as_slice()
    }

    /// The elements in order, each of them moved and none copied. It takes no memory.
    pub fn into_vec(self) -> Vec<T>
        ensures { result.items ≡ self }
    {
        let GrowingList { items } = self;
        items
    }

    /// Leaves the first `len` elements, of which there are as many at least. It takes no memory.
    pub fn cut_back(&mut self, len: usize)
        requires { len ≤ length self.old }
        ensures { self.new ≡ take len self.old }
    {
        self.items.truncate(len);
    }
}

impl<T: Copy> GrowingList<T> {
    /// The list of these elements, unless memory runs out.
    pub fn of(alloc: Global, items: &[T]) -> Result<Self, AllocError>
        ensures { IfOk result (λ list. list ≡ items.now) }
    {
        Ok(GrowingList {
            items: Vec::from_slice(alloc, items)?,
        })
    }

    /// Appends all of these elements. Where memory runs out the list is as before.
    pub fn append(&mut self, items: &[T]) -> Result<(), AllocError>
        ensures ok { OnOk result (self.new ≡ self.old ++ items.now) }
        ensures err { OnErr result (self.new ≡ self.old) }
    {
        self.items.extend_from_slice(items)
    }
}
