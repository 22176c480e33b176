//! Cells that go on, and what is told of them then.

ghost use Rattle.std.specs.Prelude.{◌≡◌, ◌++◌, [], ◌∷◌, true, None, Some, OnOk, IfErr, IfSome, IfNone, ◌≤ℤ◌, ◌+ℤ◌, pos};
ghost use Rattle.smil_model.specs.declared.document.Node.{Node as AnyNode};
ghost use Rattle.smil_model.specs.document.Document.{elements, node_at};
ghost use Rattle.smil_model.specs.shown.Orders.{IsState};
ghost use Rattle.smil_report.specs.Tellings.{Begins};
ghost use Rattle.smil_cells.specs.CellsState.{GoesOn, NothingBefore, CellsState, IsSettled};
ghost use Rattle.smil_shown.specs.ShownViews.{IsShown, views_at};
ghost use Rattle.smil_live.specs.Answered.{IsMoved};
ghost use Rattle.smil_live.specs.Moves.{IsFirstDue, MayMove};
ghost use Rattle.smil_shown.specs.ViewTable.{has_view, owners, put_in, view_now};
ghost use Rattle.smil_shown.specs.Told.{told_between};

use super::moves::Move;
use smil_cells::{Cells, Table};
use smil_interval::Steps;
use smil_model::{GrowingList, LogEntry, Refusal};
use smil_report::ChangeItem;
use smil_shown::{Scene, ViewTable, put_view, view_in};
use std::alloc::AllocError;
use std::sync::ledger::Ledger;

/// The cells of a presentation, with the views of all elements as they were last told.
pub struct Viewer<T: Table> {
    pub cells: Cells<T>,
    pub seen: ViewTable,
}

impl<T: Table> Drop for Viewer<T> {
    // Dropped by a call of its own, not field by field in each function that drops one.
    fn drop(self) {
        let Viewer {
            cells: _cells,
            seen: _seen,
        } = self;
    }
}

impl<T: Table> Viewer<T> {
    /// Goes on by a move, and tells what it changes. `DiaryFull` where the diary would have too
    /// many entries, `Memory` where memory runs out: after a refusal the cells are to go back to a
    /// mark, the views to be those of the cells, and `out` to go back to its length.
    pub fn go_on<I: ChangeItem, L: Ledger>(
        &mut self,
        step: Move,
        out: &mut GrowingList<I>,
        steps: &mut Steps<L>,
    ) -> Result<(), Refusal>
        requires may { MayMove self.old.cells.presentation step }
        requires shown { IsShown self.old.cells self.old.seen }
        ensures { IsMoved I.telling T.counts step result self.old.cells
            self.new.cells self.old.seen self.new.seen out.old out.new steps.old steps.new }
    {
        match step {
            Move::Pass(to) => self.pass_through(to, out, steps),
            Move::Settle(to) => self.settle_once(to, out, steps),
            Move::Hear(entry) => {
                self.cells.hear(entry, steps)?;
                put_touched(&self.cells, &mut self.seen, out)
            }
        }
    }

    // Goes on up to a moment, and tells the changes of each moment on the way.
    fn pass_through<I: ChangeItem, L: Ledger>(
        &mut self,
        to: i64,
        out: &mut GrowingList<I>,
        steps: &mut Steps<L>,
    ) -> Result<(), Refusal>
        requires may { MayMove self.old.cells.presentation (Move.Pass to) }
        requires shown { IsShown self.old.cells self.old.seen }
        ensures { IsMoved I.telling T.counts (Move.Pass to) result self.old.cells
            self.new.cells self.old.seen self.new.seen out.old out.new steps.old steps.new }
    {
        while let Some(due) = due_by(&self.cells, to) {
            self.settle_once(due, out, steps)?;
        }
        self.settle_once(to, out, steps)
    }

    // Goes on up to a moment, and tells what is different there.
    fn settle_once<I: ChangeItem, L: Ledger>(
        &mut self,
        to: i64,
        out: &mut GrowingList<I>,
        steps: &mut Steps<L>,
    ) -> Result<(), Refusal>
        requires may { MayMove self.old.cells.presentation (Move.Settle to) }
        requires shown { IsShown self.old.cells self.old.seen }
        ensures moved { IsMoved I.telling T.counts (Move.Settle to) result self.old.cells
            self.new.cells self.old.seen self.new.seen out.old out.new steps.old steps.new }
        ensures goes_on { OnOk result (GoesOn self.old.cells self.new.cells) }
    {
        self.cells.settle(to, steps)?;
        put_touched(&self.cells, &mut self.seen, out)
    }
}

// The moment of what comes first, where it is due by a moment.
fn due_by<T: Table>(cells: &Cells<T>, to: i64) -> Option<i64>
    requires { cells.now.fault ≡ None }
    ensures within { IfSome result (λ due. due ≤ℤ to) }
    ensures first { IfSome result (IsFirstDue cells.now) }
    ensures none { IfNone result (NothingBefore cells.now (to +ℤ pos 1)) }
{
    let due = cells.next_due()?;
    if due <= to { Some(due) } else { None }
}

// Puts the present views of the touched elements in place of the old ones, and tells those that
// differ. The old views are those before the last call to the cells, which changed the
// views of no other elements.
fn put_touched<T: Table, I: ChangeItem>(
    cells: &Cells<T>,
    seen: &mut ViewTable,
    out: &mut GrowingList<I>,
) -> Result<(), Refusal>
    requires sound { cells.now.fault ≡ None }
    requires state { IsState cells.now.presentation }
    requires settled { IsSettled cells.now }
    requires from { (old : CellsState) × GoesOn old cells.now × (seen.old ≡ views_at old)
        × (cells.now.presentation.document ≡ old.presentation.document) }
    ensures views { OnOk result (seen.new ≡ views_at cells.now) }
    ensures told { OnOk result (out.new ≡ out.old
        ++ told_between I.telling cells.now.presentation.document.nodes cells.now.presentation.now
        seen.old (views_at cells.now)) }
    ensures refused { IfErr result (λ refusal. refusal ≡ Refusal.Memory) }
    ensures owners { owners seen.new ≡ owners seen.old }
    ensures begins { Begins out.old out.new }
{
    for serial in cells.touched().slice() {
        put_one(cells, seen, *serial, out)?;
    }
    Ok(())
}

// Puts the present view of an element in place of the old one, and tells it where the two differ.
fn put_one<T: Table, I: ChangeItem>(
    cells: &Cells<T>,
    seen: &mut ViewTable,
    serial: u32,
    out: &mut GrowingList<I>,
) -> Result<(), AllocError>
    requires sound { cells.now.fault ≡ None }
    requires state { IsState cells.now.presentation }
    requires settled { IsSettled cells.now }
    requires element { (e : AnyNode)
        × (node_at (elements cells.now.presentation.document.nodes) serial ≡ Some e) }
    requires known { has_view seen.old serial ≡ true }
    ensures view { (e : AnyNode) → node_at (elements cells.now.presentation.document.nodes) serial
        ≡ Some e → seen.new ≡ put_in seen.old (view_now cells.now e) }
    ensures told { (e : AnyNode) → node_at (elements cells.now.presentation.document.nodes) serial
        ≡ Some e → OnOk result (out.new ≡ out.old
        ++ told_between I.telling cells.now.presentation.document.nodes cells.now.presentation.now
        seen.old (view_now cells.now e ∷ [])) }
    ensures owners { owners seen.new ≡ owners seen.old }
    ensures begins { Begins out.old out.new }
{
    let view = view_in(cells, serial);
    if seen.put(&view) {
        let scene = Scene {
            tree: cells.tree(),
            moment: cells.moment(),
        };
        put_view(scene, &view, out)
    } else {
        Ok(())
    }
}
