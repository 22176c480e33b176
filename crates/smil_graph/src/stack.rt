//! Stacks of numbers.

ghost use Rattle.std.specs.Prelude.{◌≡◌, List, [], ◌∷◌, drop, slice_get, OnOk};

use std::alloc::{AllocError, Global};
use std::marker::Model;

/// A stack of numbers, seen as the list of them from the top on.
#[derive(Drop)]
pub struct Stack {
    items: Vec<usize>,
}

impl Model for Stack {
    ghost use Rattle.std.specs.Prelude.{ℕ, List, reverse};

    ghost Value = { List ℕ };

    ghost view = { λ a. reverse a.items.items };
}

impl Stack {
    /// The empty stack, which takes no memory.
    pub fn new(alloc: Global) -> Self
        ensures { result ≡ [] }
    {
        Stack {
            items: Vec::new(alloc),
        }
    }

    /// Puts a number on top.
    pub fn push(&mut self, item: usize) -> Result<(), AllocError>
        ensures { OnOk result (self.new ≡ item ∷ self.old) }
    {
        self.items.push(item)?;
        Ok(())
    }

    /// Takes the number on top away, if there is one.
    pub fn pop(&mut self)
        ensures { self.new ≡ drop 1 self.old }
    {
        self.items.pop();
    }

    /// The number on top.
    pub fn top(&self) -> Option<usize>
        ensures { result ≡ slice_get self.now 0 }
    {
        self.items.last().copied()
    }
}
