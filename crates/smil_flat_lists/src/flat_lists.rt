//! Many lists of values, one behind the other.

ghost use Rattle.std.specs.Prelude.{◌≡◌, ◌+◌, ◌<◌, ◌≤◌, [], ◌∷◌, ◌++◌, length, slice_index, slice_index_or, OnOk, OnErr, IfOk};
ghost use Rattle.std.specs.List.{between};

use std::alloc::{AllocError, Global};
use std::marker::Model;

/// Lists of values that stand one behind the other in one allocation, with the end of each; seen as
/// the list of these lists.
#[derive(Drop)]
pub struct FlatLists<T: Copy> {
    values: Vec<T>,
    ends: Vec<u32>,
}

impl<T: Copy> Model for FlatLists<T> {
    ghost use Rattle.std.specs.Prelude.{List, length};
    ghost use Rattle.smil_flat_lists.specs.Cuts.{cut, RiseTo};

    ghost Value = { List (List T) };

    ghost view = { λ a. cut 0 a.ends.items a.values.items };

    ghost invariant = { λ a. RiseTo 0 a.ends.items (length a.values.items) };
}

impl<T: Copy> FlatLists<T> {
    /// No list. It takes no memory.
    pub fn new(alloc: Global) -> Self
        ensures { result ≡ [] }
    {
        FlatLists {
            values: Vec::new(alloc),
            ends: Vec::new(alloc),
        }
    }

    /// No list, with room for the ends of `count`.
    pub fn with_capacity(alloc: Global, count: usize) -> Result<Self, AllocError>
        ensures { IfOk result (λ lists. lists ≡ []) }
    {
        Ok(FlatLists {
            values: Vec::new(alloc),
            ends: Vec::with_capacity(alloc, count)?,
        })
    }

    /// Appends a list. Refused as where memory runs out, and then all is as before, also where the
    /// lists would have more than 2^32 - 1 values.
    pub fn push(&mut self, list: &[T]) -> Result<(), AllocError>
        ensures ok { OnOk result (self.new ≡ self.old ++ list.now ∷ []) }
        ensures err { OnErr result (self.new ≡ self.old) }
    {
        let start = self.values.len();
        let end = end_after(start, list.len())?;
        self.values.extend_from_slice(list)?;
        match self.ends.push(end) {
            Ok(()) => Ok(()),
            Err(_) => {
                self.values.truncate(start);
                Err(AllocError)
            }
        }
    }

    /// How many lists there are. It takes no memory.
    pub fn len(&self) -> usize
        ensures { result ≡ length self.now }
    {
        self.ends.len()
    }

    /// The list at an index from 0; it is empty past the last one. It takes no memory.
    pub fn at(&self, index: usize) -> &[T]
        ensures { result.now ≡ slice_index_or self.now index [] }
    {
        let ends = self.ends.as_slice();
        match ends.get(index) {
            Some(end) => part(&self.values, start_of(ends, index), *end as usize),
            None => &[],
        }
    }
}

// The values from one place on and before another.
fn part<T: Copy>(values: &[T], start: usize, end: usize) -> &[T]
    requires start { start ≤ end }
    requires end { end ≤ length values.now }
    ensures { result.now ≡ between start end values.now }
{
    &values[start..end]
}

// The start of the list at an index: the end of the one before it.
fn start_of(ends: &[u32], index: usize) -> usize
    requires { index < length ends.now }
    ensures { result ≡ slice_index (0 ∷ ends.now) index }
{
    match index.checked_sub(1) {
        Some(before) => ends[before] as usize,
        None => 0,
    }
}

// The end of a list of so many values, which begins at `start`; refused where it doesn't fit.
fn end_after(start: usize, count: usize) -> Result<u32, AllocError>
    ensures { IfOk result (λ end. end ≡ start + count) }
{
    let Some(end) = start.checked_add(count) else {
        return Err(AllocError);
    };
    match u32::try_from(end) {
        Ok(end) => Ok(end),
        Err(_) => Err(AllocError),
    }
}

#[cfg(test)]
mod tests {
    use super::*;
    use std::test::Fail;

    #[test]
    fn lists_one_behind_the_other(rt: HostRuntime) -> Result<(), Fail> {
        let mut lists = FlatLists::with_capacity(rt.alloc(), 3)?;
        lists.push(&[3_u32, 5])?;
        lists.push(&[])?;
        lists.push(&[8])?;
        assert_eq!(rt; lists.len(), 3);
        assert_eq!(rt; lists.at(0), [3, 5].as_slice());
        assert_eq!(rt; lists.at(1).len(), 0);
        assert_eq!(rt; lists.at(2), [8].as_slice());
        assert_eq!(rt; lists.at(3).len(), 0);
        assert_eq!(rt; FlatLists::<u8>::new(rt.alloc()).at(0).len(), 0);
        Ok(())
    }
}
