//! Names in the order of their bytes.

ghost use Rattle.std.specs.Prelude.{◌≡◌, ◌≤◌, OnOk, length, slice_get};
ghost use Rattle.std.specs.List.{position_or_len};
ghost use Rattle.smil_model.specs.shown.Sandwich.{put_name};
ghost use Rattle.smil_shown.specs.Names.{is_there, is_up_to};

use smil_model::{Bytes, Duplicate};
use std::alloc::AllocError;

/// Puts a name in its place among names in the order of their bytes, where it doesn't stand among
/// them yet; unless memory runs out.
pub fn put_name(names: &mut Vec<Bytes>, name: &Bytes) -> Result<(), AllocError>
    ensures { OnOk result (names.new.items ≡ put_name names.old.items name.now) }
{
    let place = place_among(names, name.slice());
    if stands_at(names, place, name.slice()) {
        return Ok(());
    }
    names.insert(place, name.copy()?)?;
    Ok(())
}

// The place of the first name that is not before this one, or behind all.
fn place_among(names: &[Bytes], name: &[u8]) -> usize
    ensures place { result ≡ position_or_len (is_up_to name.now) names.now }
    ensures within { result ≤ length names.now }
{
    names
        .iter()
        .position(|other| is_up_to(name, other))
        .unwrap_or(names.len())
}

// Whether a name is not after another, by their bytes.
fn is_up_to(name: &[u8], other: &Bytes) -> bool
    ensures { result ≡ is_up_to name.now other.now }
{
    name.cmp(other.slice()).is_le()
}

// Whether a name stands at a place.
fn stands_at(names: &[Bytes], place: usize, name: &[u8]) -> bool
    ensures { result ≡ is_there name.now (slice_get names.now place) }
{
    match names.get(place) {
        Some(other) => name.cmp(other.slice()).is_eq(),
        None => false,
    }
}
