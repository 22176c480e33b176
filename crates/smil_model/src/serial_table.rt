//! Where serials stand, by serial.

ghost use Rattle.std.specs.Prelude.{◌≡◌, ◌<◌, ◌-◌, ◌^◌, ◌==◌, nat_eq, ℕ, Some, None, IsOk, IsSome, OnOk, OnErr, if◌then◌else◌, vec_len};
ghost use Rattle.std.specs.FinMap.{get};
ghost use Rattle.std.specs.Map.{lookup};
ghost use Rattle.smil_model.specs.SerialTable.{low_place};

use super::duplicate::Duplicate;
use std::alloc::{AllocError, Global};
use std::collections::HashMap;
use std::marker::Model;

// Serials below this number are found by index, others by their hash.
const LOW: u32 = 16_384;

// What stands where a serial has no place.
const ABSENT: u32 = 4_294_967_295;

/// A table of the places of serials, seen as the map from serials to places.
#[derive(Drop)]
pub struct SerialTable {
    /// The places of the serials below 16,384, by serial, up to the greatest that had one.
    low: Vec<u32>,
    /// The places of the others.
    high: HashMap<u32, usize>,
}

impl Model for SerialTable {
    ghost use Rattle.std.specs.Prelude.{ℕ};
    ghost use Rattle.std.specs.Ordering.{nat_cmp};
    ghost use Rattle.std.specs.FinMap.{FinMap, code};
    ghost use Rattle.std.specs.Coded.{coded_ℕ};
    ghost use Rattle.smil_model.specs.SerialTable.{table_of};

    ghost Value = { FinMap nat_cmp ℕ };

    ghost coded = { code coded_ℕ coded_ℕ };

    ghost view = { λ a. table_of a.low.items a.high.entries };
}

impl Duplicate for SerialTable {
    fn copy(&self) -> Result<Self, AllocError> {
        Ok(SerialTable {
            low: Vec::from_slice(*self.low.allocator(), &self.low)?,
            high: self.high.clone()?,
        })
    }
}

impl SerialTable {
    /// A table in which no serial has a place. It takes no memory.
    pub fn new(alloc: Global) -> SerialTable
        ensures { (s : ℕ) → get result s ≡ None }
    {
        SerialTable {
            low: Vec::new(alloc),
            high: HashMap::new(alloc),
        }
    }

    /// The place of a serial; None exactly where it has none. It takes a fixed number of steps for
    /// a serial below 16,384, and no memory.
    #[inline(always)]
    pub fn get(&self, serial: u32) -> Option<usize>
        ensures { result ≡ get self.now serial }
    {
        if serial < LOW {
            low_place(&self.low, serial)
        } else {
            high_place(&self.high, serial)
        }
    }

    /// Gives a serial a place, in the place of the one that it has, if any. Where memory runs out
    /// the table is as before; a place past 4,294,967,294, which no list in that much memory has,
    /// may be refused as well. It takes memory of 4 bytes for each serial up to this one below
    /// 16,384, where none of them was as great before, and none for a serial that has a place.
    pub fn put(&mut self, serial: u32, place: usize) -> Result<(), AllocError>
        ensures ok { OnOk result ((s : ℕ) → get self.new s
            ≡ (if serial == s then Some place else get self.old s)) }
        ensures err { OnErr result (self.new ≡ self.old) }
        ensures known { place < 2 ^ 32 - 1 → IsSome (get self.old serial) → IsOk result }
    {
        if serial < LOW {
            put_low(&mut self.low, serial, place)
        } else {
            self.high.insert(serial, place)?;
            Ok(())
        }
    }

    /// Takes away the place of a serial, if it has one. It takes no memory.
    pub fn forget(&mut self, serial: u32)
        ensures { (s : ℕ) → get self.new s ≡ (if serial == s then None else get self.old s) }
    {
        if serial < LOW {
            forget_low(&mut self.low, serial);
        } else {
            self.high.remove(&serial);
        }
    }
}

// The place of a serial that is found by index.
#[inline(always)]
fn low_place(low: &[u32], serial: u32) -> Option<usize>
    ensures { result ≡ low_place low.now serial }
{
    match low.get(serial as usize) {
        Some(place) if *place != ABSENT => Some(*place as usize),
        _ => None,
    }
}

// The place of a serial that is found by its hash: a call of its own, so that the look-up by index
// stands where it is made.
#[cold]
#[inline(never)]
fn high_place(high: &HashMap<u32, usize>, serial: u32) -> Option<usize>
    ensures { result ≡ lookup (nat_eq serial) high.now.entries }
{
    high.get(&serial).copied()
}

// Gives a serial that is found by index a place.
fn put_low(low: &mut Vec<u32>, serial: u32, place: usize) -> Result<(), AllocError>
    ensures ok { OnOk result ((s : ℕ) → low_place low.new.items s
        ≡ (if serial == s then Some place else low_place low.old.items s)) }
    ensures err { OnErr result (low.new.items ≡ low.old.items) }
    ensures known { place < 2 ^ 32 - 1 → serial < vec_len low.old → IsOk result }
{
    if place >= ABSENT as usize {
        return Err(AllocError);
    }
    let index = serial as usize;
    if low.len() <= index {
        low.resize(index + 1, ABSENT)?;
    }
    low[index] = place as u32;
    Ok(())
}

// Takes away the place of a serial that is found by index.
fn forget_low(low: &mut [u32], serial: u32)
    ensures { (s : ℕ) → low_place low.new s
        ≡ (if serial == s then None else low_place low.old s) }
{
    let index = serial as usize;
    if index < low.len() {
        low[index] = ABSENT;
    }
}
