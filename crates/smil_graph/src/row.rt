//! Rows of places.

ghost use Rattle.std.specs.Prelude.{◌≡◌, ℕ, ◌<◌, [], ◌∷◌, ◌++◌, length, OnOk, IfOk, ◌||◌, slice_index, slice_set};
ghost use Rattle.smil_model.specs.reach.Reach.{is_option};
ghost use Rattle.smil_model.specs.document.Closure.{has};
ghost use Rattle.smil_graph.specs.Links.{row};
ghost use Rattle.smil_graph.specs.Tables.{row_of};

use super::short_list::ShortList;
use std::alloc::{AllocError, Global};

/// So many empty rows.
pub fn empty_rows(alloc: Global, count: usize) -> Result<Vec<ShortList<usize>>, AllocError>
    ensures count { IfOk result (λ rows. length rows.items ≡ count) }
    ensures empty { IfOk result (λ rows. (i : ℕ) → row rows.items i ≡ []) }
{
    let mut rows = Vec::with_capacity(alloc, count)?;
    for _ in 0..count {
        rows.push(ShortList::new(alloc))?;
    }
    Ok(rows)
}

/// Appends a place to a row.
pub fn push_at(rows: &mut Vec<ShortList<usize>>, at: usize, place: usize) -> Result<(), AllocError>
    requires { at < length rows.old.items }
    ensures { OnOk result (rows.new.items
        ≡ slice_set rows.old.items at (row rows.old.items at ++ place ∷ [])) }
{
    rows[at].push(place)
}

/// The row at a place; it is empty past the last one.
pub fn row_at(rows: &[ShortList<usize>], place: usize) -> &[usize]
    ensures { result.now ≡ row rows.now place }
{
    match rows.get(place) {
        Some(row) => row.slice(),
        None => &[],
    }
}

/// The row at a place; it is empty where there is none.
pub fn row_of(rows: &[ShortList<usize>], place: Option<usize>) -> &[usize]
    ensures { result.now ≡ row_of rows.now place }
{
    match place {
        Some(place) => row_at(rows, place),
        None => &[],
    }
}

/// The number at a place; 0 past the last one.
pub fn number_at(numbers: &[usize], place: usize) -> usize
    ensures { result ≡ slice_index numbers.now place }
{
    match numbers.get(place) {
        Some(number) => *number,
        None => 0,
    }
}

/// Appends all of these places.
pub fn push_all(row: &mut ShortList<usize>, places: &[usize]) -> Result<(), AllocError>
    ensures { OnOk result ((i : ℕ) → has row.new i ≡ (has row.old i || has places.now i)) }
{
    row.append(places)?;
    Ok(())
}

/// Appends a place, if there is one.
pub fn push_one(row: &mut ShortList<usize>, place: Option<usize>) -> Result<(), AllocError>
    ensures { OnOk result ((i : ℕ) → has row.new i ≡ (has row.old i || is_option i place)) }
{
    match place {
        Some(place) => row.push(place),
        None => Ok(()),
    }
}
