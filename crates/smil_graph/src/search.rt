//! What is reached along links.

ghost use Rattle.std.specs.Prelude.{◌≡◌, length, nat_eq, OnOk, IfOk};
ghost use Rattle.indexmap.specs.IndexSet.{insert_all};
ghost use Rattle.smil_graph.specs.Links.{StayBelow, AreBelow, IsReached};

use super::row::row_at;
use super::short_list::ShortList;
use indexmap::IndexSet;
use std::alloc::{AllocError, Global};

/// What is reached from the starts along the links of the rows, unless memory runs out. It takes
/// time and memory for what is reached and its links alone.
pub fn search(
    alloc: Global,
    rows: &[ShortList<usize>],
    starts: &[usize],
) -> Result<IndexSet<usize>, AllocError>
    requires rows { StayBelow (length rows.now) rows.now }
    requires starts { AreBelow (length rows.now) starts.now }
    ensures { IfOk result (λ found. IsReached rows.now starts.now found.keys) }
{
    let mut found = IndexSet::new(alloc);
    insert_all(&mut found, starts)?;
    for next in 0..rows.len() {
        if next == found.len() {
            break;
        }
        let place = found.as_slice()[next];
        insert_all(&mut found, row_at(rows, place))?;
    }
    Ok(found)
}

// Puts in each of these places.
fn insert_all(found: &mut IndexSet<usize>, places: &[usize]) -> Result<(), AllocError>
    ensures { OnOk result (found.new.keys ≡ insert_all nat_eq found.old.keys places.now) }
{
    for place in places {
        found.insert(*place)?;
    }
    Ok(())
}
