//! Links turned round.

ghost use Rattle.std.specs.Prelude.{◌≡◌, length, OnOk};
ghost use Rattle.smil_graph.specs.Links.{AreBelow, is_last, IsPushedInEach};

use super::row::push_at;
use super::short_list::ShortList;
use std::alloc::AllocError;

/// Appends a place to each of the rows that are listed, and once to a row that is listed twice.
/// What is said of a row holds where it does not have the place before.
pub fn push_in_each(
    rows: &mut Vec<ShortList<usize>>,
    listed: &[usize],
    place: usize,
) -> Result<(), AllocError>
    requires { AreBelow (length rows.old.items) listed.now }
    ensures { OnOk result (IsPushedInEach rows.old.items rows.new.items listed.now place) }
{
    for at in listed {
        if !ends_with(rows[*at].slice(), place) {
            push_at(rows, *at, place)?;
        }
    }
    Ok(())
}

// Whether the last place is this one.
fn ends_with(places: &[usize], place: usize) -> bool
    ensures { result ≡ is_last places.now place }
{
    match places.last() {
        Some(last) => *last == place,
        None => false,
    }
}
