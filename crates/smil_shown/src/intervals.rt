//! The intervals of an element over the whole diary.

ghost use Rattle.std.specs.Prelude.{◌≡◌, ◌++◌, pos, None, Some, true, false, flat_map, OnOk, OnErr};
ghost use Rattle.smil_model.specs.declared.document.Node.{Node as AnyNode};
ghost use Rattle.smil_model.specs.document.Document.{elements, node_at};
ghost use Rattle.smil_model.specs.shown.Histories.{intervals_of};
ghost use Rattle.smil_model.specs.shown.Orders.{IsState};
ghost use Rattle.smil_model.specs.shown.Views.{shown_time, view_facts};
ghost use Rattle.smil_laws.specs.Near.{IsTimeNear};
ghost use Rattle.smil_model.specs.document.Words.{Begins};
ghost use Rattle.smil_model.specs.shown.Answers.{told_line};
ghost use Rattle.smil_report.specs.Words.{who_of};
ghost use Rattle.smil_cells.specs.CellsState.{IsSettled, history_of};
ghost use Rattle.smil_shown.specs.Histories.{end_at, present_line};

use super::interval_teller::IntervalTeller;
use smil_cells::{Cells, Table};
use smil_model::{Bytes, How, Shown, Time};
use smil_report::{Name, put_history};
use std::alloc::{AllocError, Global};

/// An element whose intervals are told, with the name that its lines have.
#[derive(Clone, Copy)]
pub struct Subject<'a> {
    pub serial: u32,
    pub name: Name<'a>,
}

/// Appends the lines of the intervals of an element, in order. The clocks are followed again from
/// the first entry of the diary on, since each time is carried to document time at its own moment.
/// The cells answered no refusal, and are settled. Where memory is refused, some of the lines stand
/// in `out`.
pub fn put_intervals<T: Table>(
    alloc: Global,
    cells: &Cells<T>,
    subject: Subject<'_>,
    out: &mut Bytes,
) -> Result<(), AllocError>
    requires sound { cells.now.fault ≡ None }
    requires state { IsState cells.now.presentation }
    requires settled { IsSettled cells.now }
    requires element { (e : AnyNode) × (node_at
        (elements cells.now.presentation.document.nodes) subject.serial ≡ Some e) }
    ensures told { (e : AnyNode) → node_at (elements cells.now.presentation.document.nodes)
        subject.entry.serial ≡ Some e → OnOk result (out.new ≡ out.old
        ++ flat_map (told_line (who_of subject.entry.name)) (intervals_of (history_of cells.now)
        (pos cells.now.presentation.now) e)) }
    ensures begins { Begins out.old out.new }
{
    cells.past().possible();
    let mut told = IntervalTeller::new(alloc, cells.tree(), subject.serial)?;
    told.follow_all(cells.book(), subject.name, out)?;
    put_present(cells, subject, told.present, out)
}

// Appends the line of the present play, where there is one, by its begin in document time.
fn put_present<T: Table>(
    cells: &Cells<T>,
    subject: Subject<'_>,
    begin: Option<i64>,
    out: &mut Bytes,
) -> Result<(), AllocError>
    requires sound { cells.now.fault ≡ None }
    requires state { IsState cells.now.presentation }
    requires settled { IsSettled cells.now }
    ensures ok { (e : AnyNode) → e.serial ≡ subject.entry.serial
        → OnOk result (out.new ≡ out.old ++ present_line (who_of subject.entry.name) begin
        (end_at (history_of cells.now) (pos cells.now.presentation.now) e)) }
    ensures err { OnErr result (out.new ≡ out.old) }
{
    match begin {
        Some(begin) => put_history(
            out,
            subject.name,
            Shown::At(begin),
            present_end(cells, subject.serial),
            How::Playing,
        ),
        None => Ok(()),
    }
}

// The end of the present play, as it is shown at the present moment.
fn present_end<T: Table>(cells: &Cells<T>, who: u32) -> Shown
    requires sound { cells.now.fault ≡ None }
    requires state { IsState cells.now.presentation }
    requires settled { IsSettled cells.now }
    ensures { (e : AnyNode) → e.serial ≡ who → result
        ≡ end_at (history_of cells.now) (pos cells.now.presentation.now) e }
{
    cells.past().possible();
    match cells.interval(who) {
        Some(interval) => end_shown(cells, who, interval.end),
        None => Shown::Nothing,
    }
}

// A time on the clock of an element's time parent, as it is shown at the present moment.
fn end_shown<T: Table>(cells: &Cells<T>, who: u32, end: Time) -> Shown
    requires state { IsState cells.now.presentation }
    requires settled { IsSettled cells.now }
    requires near { IsTimeNear end }
    ensures { (e : AnyNode) → e.serial ≡ who → result
        ≡ shown_time (view_facts (history_of cells.now) (pos cells.now.presentation.now) None true
        false e) end }
{
    let now = cells.moment();
    let clocks = cells.clocks();
    match end {
        Time::At(_) if clocks.outer_stands(who) => Shown::Standing,
        Time::At(end) => Shown::At(end + (now - clocks.outer(who, now))),
        Time::Indefinite => Shown::Indefinite,
        Time::Unresolved => Shown::Unresolved,
    }
}
