//! New entries, taken into a table with the elements whose views they may change.

ghost use Rattle.std.specs.Prelude.{◌≡◌, ◌-◌, ◌≤◌, ℤ, length, OnOk};
ghost use Rattle.smil_model.specs.diary.Diary.{History};
ghost use Rattle.smil_past.specs.Past.{IsPresent, front, history_of};
ghost use Rattle.smil_cells.specs.NewEntries.{ArePutBehind, IsCountedBehind};

use super::order::put_nodes;
use super::table::{Since, Table};
use super::touched::touch;
use smil_interval::Steps;
use smil_model::{PlaceSet, Serials};
use std::alloc::AllocError;
use std::sync::ledger::Ledger;

/// Takes the entries from an index on into a table, and puts the places of the elements whose views
/// they may change, and those of no others. Refused where memory runs out. The list gives room for
/// the elements whose intervals the table tells as changed.
#[inline(never)]
pub fn take_entries<T: Table, L: Ledger>(
    since: &Since<'_>,
    table: &mut T,
    changed: &mut Serials,
    places: &mut PlaceSet,
    steps: &mut Steps<L>,
) -> Result<(), AllocError>
    requires moment { IsPresent since.now.past.now since.now.moment }
    requires within { since.now.from ≤ length since.now.past.now.diary }
    requires before { T.is_current table.old (front since.now.past.now since.now.from)
        since.now.moment }
    ensures current { OnOk result (T.is_current table.new (history_of since.now.past.now)
        since.now.moment) }
    ensures marked { (h : History) (now : ℤ) → T.is_marked table.old h now
        → T.is_marked table.new h now }
    ensures has_mark { T.has_mark table.new ≡ T.has_mark table.old }
    ensures put { OnOk result (ArePutBehind since.now.past.now since.now.from since.now.moment
        places.old places.new) }
    ensures counted { steps.old ≤ steps.new }
    ensures evaluated { OnOk result (IsCountedBehind T.counts since.now.past.now since.now.from
        since.now.moment (steps.new - steps.old)) }
{
    touch(since.past, since.from, places)?;
    changed.cut_back(0);
    table.refresh(since, changed, steps)?;
    put_nodes(since.past.tree(), changed, places)?;
    Ok(())
}
