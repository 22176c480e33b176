//! A queue that keeps its first value in itself, so that it takes memory for more alone.

ghost use Rattle.std.specs.Prelude.{◌≡◌, ◌-◌, [], ◌∷◌, ◌++◌, OnOk, OnErr, IfOk, true, length, nat_lt, slice_get};
ghost use Rattle.std.specs.Option.{option_to_list};

use smil_model::Duplicate;
use std::alloc::{AllocError, Global};
use std::collections::VecDeque;
use std::marker::Model;
use std::mem::replace;

/// A list of values to which some are appended, and from which they are taken at both ends; seen as
/// that list. The first one stands in the queue itself, those after it in memory of their own.
#[derive(Drop)]
pub struct ShortQueue<T: Copy> {
    first: Option<T>,
    later: VecDeque<T>,
}

impl<T: Copy> Model for ShortQueue<T> {
    ghost use Rattle.std.specs.Prelude.{◌≡◌, List, [], ◌++◌, None};
    ghost use Rattle.std.specs.Option.{option_to_list};

    ghost Value = { List T };

    ghost view = { λ a. option_to_list a.first ++ a.later.items };

    ghost invariant = { λ a. a.first ≡ None → a.later.items ≡ [] };
}

impl<T: Copy> Duplicate for ShortQueue<T> {
    fn copy(&self) -> Result<Self, AllocError> {
        Ok(ShortQueue {
            first: self.first,
            later: copied(&self.later)?,
        })
    }
}

impl<T: Copy> ShortQueue<T> {
    /// No values. It takes no memory.
    pub fn new(alloc: Global) -> ShortQueue<T>
        ensures { result ≡ [] }
    {
        ShortQueue {
            first: None,
            later: VecDeque::new(alloc),
        }
    }

    /// The first; None exactly where there is none. It takes no memory.
    pub fn first(&self) -> Option<T>
        ensures { result ≡ slice_get self.now 0 }
    {
        self.first
    }

    /// The last; None exactly where there is none. It takes no memory.
    pub fn last(&self) -> Option<T>
        ensures { result ≡ slice_get self.now (length self.now - 1) }
    {
        match self.later.back() {
            Some(last) => Some(*last),
            None => self.first,
        }
    }

    /// Whether there are none. It takes no memory.
    pub fn is_empty(&self) -> bool
        ensures { result ≡ true → (self.now ≡ []) }
    {
        self.first.is_none()
    }

    /// Whether there is more than one. It takes no memory.
    pub fn has_more(&self) -> bool
        ensures { result ≡ nat_lt 1 (length self.now) }
    {
        !self.later.is_empty()
    }

    /// Appends a value. Where memory runs out all is as before.
    #[inline(always)]
    pub fn push_back(&mut self, last: T) -> Result<(), AllocError>
        ensures ok { OnOk result (self.new ≡ self.old ++ last ∷ []) }
        ensures err { OnErr result (self.new ≡ self.old) }
    {
        if self.first.is_none() {
            self.first = Some(last);
            return Ok(());
        }
        self.later.push_back(last)?;
        Ok(())
    }

    /// Takes the last out; None exactly where there is none. It takes no memory.
    pub fn pop_back(&mut self) -> Option<T>
        ensures items { self.old ≡ self.new ++ option_to_list result }
        ensures value { result ≡ slice_get self.old (length self.old - 1) }
    {
        match self.later.pop_back() {
            Some(last) => Some(last),
            None => self.first.take(),
        }
    }

    /// Takes the first out; None exactly where there is none. It takes no memory.
    pub fn pop_front(&mut self) -> Option<T>
        ensures items { self.old ≡ option_to_list result ++ self.new }
        ensures value { result ≡ slice_get self.old 0 }
    {
        let second = self.later.pop_front();
        replace(&mut self.first, second)
    }
}

// The same values, unless memory runs out.
fn copied<T: Copy>(values: &VecDeque<T>) -> Result<VecDeque<T>, AllocError>
    ensures { IfOk result (λ copies. copies.items ≡ values.now.items) }
{
    let alloc = *values.allocator();
    if values.is_empty() {
        return Ok(VecDeque::new(alloc));
    }
    values.iter().copied().collect(alloc)
}
