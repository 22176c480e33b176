//! Presentations made anew from a document and a log.

ghost use Rattle.std.specs.Prelude.{◌≡◌, ◌≤◌, ◌+◌, ◌-◌, ◌≤ℤ◌, ◌++◌, List, pos, true, take, length, None, IfOk, IfErr, OnOk};
ghost use Rattle.smil_model.specs.declared.diary.Entry.{Entry as AnyEntry};
ghost use Rattle.smil_model.specs.declared.times.TheConstants.{HORIZON as the_horizon};
ghost use Rattle.smil_model.specs.diary.Clocks.{until};
ghost use Rattle.smil_model.specs.diary.Lawful.{is_rising_from};
ghost use Rattle.smil_model.specs.diary.Logs.{may_happen};
ghost use Rattle.smil_model.specs.document.Document.{elements};
ghost use Rattle.smil_model.specs.document.Valid.{IsNumberedTree};
ghost use Rattle.smil_model.specs.reach.Bounds.{through_begin};
ghost use Rattle.smil_model.specs.shown.Orders.{IsState};
ghost use Rattle.smil_graph.specs.Graph.{document_of};
ghost use Rattle.smil_graph.specs.Reduced.{all_reduced};
ghost use Rattle.smil_cells.specs.CellsState.{IsRebuilt, IsSettled, MayRebuild, CellsState, WhereTold, fresh_since, reached_since};
ghost use Rattle.smil_live.specs.Counts.{least_loading, most_loading, reached_behind};
ghost use Rattle.smil_live.specs.Moves.{IsReplayed, IsTooFull, IsUnderWay, edited_to, heard_at, replay_of, sought_of};

use smil_cells::{Cells, Table};
use smil_diary::Book;
use smil_graph::Revised;
use smil_interval::Steps;
use smil_model::{Doc, Duplicate, LOG_ENTRIES, LogEntry, Refusal, StepKind};
use std::alloc::Global;
use std::sync::ledger::Ledger;

/// A log that is heard again, and the moment up to which the presentation with it is resolved, in
/// milliseconds of document time.
#[derive(Clone, Copy)]
pub struct Replay<'a> {
    pub log: &'a [LogEntry],
    pub to: i64,
}

/// New cells of a document, by which the entries of a log were heard at their moments, and which
/// are settled up to a moment. `DiaryFull` where the diary would have too many entries, `Memory`
/// where memory runs out.
pub fn replayed<T: Table, L: Ledger>(
    alloc: Global,
    doc: Doc,
    replay: Replay<'_>,
    steps: &mut Steps<L>,
) -> Result<Cells<T>, Refusal>
    requires state { IsState (replay_of doc replay.log.now replay.to) }
    requires from { pos 0 ≤ℤ replay.to }
    ensures ok { IfOk result (IsReplayed
        (replay_of doc replay.entry.log.now replay.entry.to)) }
    ensures refused { IfErr result (IsTooFull
        (replay_of doc replay.entry.log.now replay.entry.to)) }
    ensures counted { steps.old ≤ steps.new }
    ensures most { IfOk result (λ cells. WhereTold T.counts
        (steps.new - steps.old ≤ most_loading
        (replay_of doc replay.entry.log.now replay.entry.to))) }
    ensures least { IfOk result (λ cells. WhereTold T.counts
        (least_loading (replay_of doc replay.entry.log.now replay.entry.to)
        ≤ steps.new - steps.old)) }
{
    let mut cells = Cells::<T>::new(alloc, doc, steps)?;
    replay_on(&mut cells, replay, steps)?;
    Ok(cells)
}

/// The cells of a moment from 0 to the present one, in milliseconds of document time, with the
/// entries of the diary up to it. The present cells are settled, answered no refusal and have no
/// mark; they stay as they are. `DiaryFull` where the diary would have too many entries, `Memory`
/// where memory runs out.
pub fn cells_at<T: Table, L: Ledger>(
    cells: &mut Cells<T>,
    to: i64,
    steps: &mut Steps<L>,
) -> Result<Cells<T>, Refusal>
    requires state { IsState cells.old.presentation }
    requires replayed { IsReplayed cells.old.presentation cells.old }
    requires from { pos 0 ≤ℤ to }
    requires back { to ≤ℤ pos cells.old.presentation.now }
    ensures same { cells.new ≡ cells.old }
    ensures ok { IfOk result (IsReplayed (sought_of cells.old.presentation to)) }
    ensures refused { IfErr result (IsTooFull (sought_of cells.old.presentation to)) }
    ensures counted { steps.old ≤ steps.new }
    ensures most { OnOk result (WhereTold T.counts
        (steps.new - steps.old ≤ length (elements cells.old.presentation.document.nodes))) }
    ensures least { OnOk result (WhereTold T.counts
        (least_loading (sought_of cells.old.presentation to) ≤ steps.new - steps.old)) }
{
    cells.past().possible();
    let len = diary_until(cells.book(), to);
    let mut earlier = cells.front(len, steps)?;
    earlier.settle(to, steps)?;
    Ok(earlier)
}

/// The cells of an edited document, by its graph, with the same log at the same moment, rebuilt
/// from the first `len` entries of the diary, with which the diary of that document begins too.
/// `DiaryFull` where that diary would have too many entries, `Memory` where memory runs out.
pub fn cells_with<T: Table, L: Ledger>(
    cells: &Cells<T>,
    revised: Revised,
    len: usize,
    steps: &mut Steps<L>,
) -> Result<Cells<T>, Refusal>
    requires state { IsState (edited_to cells.now.presentation (document_of revised.graph)) }
    requires rebuild { MayRebuild cells.now (document_of revised.graph) len }
    requires alike { revised.alike ≡ true → all_reduced cells.now.presentation.document.nodes
        ≡ all_reduced revised.graph.nodes }
    requires way { (rebuilt : CellsState)
        → IsRebuilt cells.now (document_of revised.graph) len rebuilt
        → IsUnderWay (edited_to cells.now.presentation (document_of revised.graph))
        (length rebuilt.presentation.log) rebuilt }
    ensures ok { IfOk result
        (IsReplayed (edited_to cells.now.presentation (document_of revised.graph))) }
    ensures refused { IfErr result
        (IsTooFull (edited_to cells.now.presentation (document_of revised.graph))) }
    ensures counted { steps.old ≤ steps.new }
    ensures most { OnOk result (WhereTold T.counts
        (steps.new - steps.old ≤ length (elements revised.graph.nodes) + reached_behind len
        (edited_to cells.now.presentation (document_of revised.graph)))) }
    ensures least { OnOk result (WhereTold T.counts
        (least_loading (edited_to cells.now.presentation (document_of revised.graph))
        ≤ steps.new - steps.old)) }
{
    let replay = Replay {
        log: cells.log().slice(),
        to: cells.moment(),
    };
    let mut rebuilt = cells.rebuilt_over(revised, len, steps)?;
    replay_on(&mut rebuilt, replay, steps)?;
    Ok(rebuilt)
}

/// Hears at their moments the entries of a log that cells have not heard yet, and settles up to a
/// moment. The cells have heard the first entries of that log, and no others. `DiaryFull` where the
/// diary would have too many entries, `Memory` where memory runs out.
pub fn replay_on<T: Table, L: Ledger>(
    cells: &mut Cells<T>,
    replay: Replay<'_>,
    steps: &mut Steps<L>,
) -> Result<(), Refusal>
    requires way { IsUnderWay (replay_of cells.old.presentation.document replay.log.now replay.to)
        (length cells.old.presentation.log) cells.old }
    requires state { IsState
        (replay_of cells.old.presentation.document replay.log.now replay.to) }
    requires from { pos 0 ≤ℤ replay.to }
    ensures ok { OnOk result (IsReplayed (replay_of cells.old.presentation.document
        replay.entry.log.now replay.entry.to) cells.new) }
    ensures refused { IfErr result (IsTooFull (replay_of cells.old.presentation.document
        replay.entry.log.now replay.entry.to)) }
    ensures counted { steps.old ≤ steps.new }
    ensures most { OnOk result (WhereTold T.counts
        (steps.new - steps.old ≤ reached_since cells.old cells.new)) }
    ensures least { OnOk result (WhereTold T.counts
        (fresh_since cells.old cells.new ≤ steps.new - steps.old)) }
{
    let heard = cells.log().len();
    for entry in &replay.log[heard..] {
        hear_again(cells, entry, steps)?;
    }
    Ok(cells.settle(replay.to, steps)?)
}

// Settles up to the moment of a log entry, and hears it. `DiaryFull` where the diary would have too
// many entries, `Memory` where memory runs out or the log is full.
fn hear_again<T: Table, L: Ledger>(
    cells: &mut Cells<T>,
    entry: &LogEntry,
    steps: &mut Steps<L>,
) -> Result<(), Refusal>
    requires sound { cells.old.fault ≡ None }
    requires from { pos cells.old.presentation.now ≤ℤ entry.now.moment }
    requires within { entry.now.moment ≤ℤ the_horizon }
    requires may { may_happen entry.now.what ≡ true }
    requires numbered { IsNumberedTree cells.old.presentation.document }
    ensures state { OnOk result
        (cells.new.presentation ≡ heard_at cells.old.presentation entry.now) }
    ensures sound { OnOk result (cells.new.fault ≡ None) }
    ensures marked { OnOk result (cells.new.marked ≡ cells.old.marked) }
    ensures settled { OnOk result (IsSettled cells.new) }
    ensures grown { OnOk result ((more : List AnyEntry)
        × (cells.new.diary ≡ cells.old.diary ++ more)) }
    ensures refused { IfErr result (IsTooFull (heard_at cells.old.presentation entry.now)) }
    ensures counted { steps.old ≤ steps.new }
    ensures most { OnOk result (WhereTold T.counts
        (steps.new - steps.old ≤ reached_since cells.old cells.new)) }
    ensures least { OnOk result (WhereTold T.counts
        (fresh_since cells.old cells.new ≤ steps.new - steps.old)) }
{
    if cells.log().len() >= LOG_ENTRIES {
        return Err(Refusal::Memory);
    }
    let again = entry.copy()?;
    cells.settle(again.moment, steps)?;
    Ok(cells.hear(again, steps)?)
}

/// How many entries of a diary, which stand in the order of their moments, are not later than a
/// moment, in milliseconds of document time. It takes log n steps for n entries.
pub fn diary_until(book: &Book, moment: i64) -> usize
    requires { is_rising_from (pos 0) book.now ≡ true }
    ensures within { result ≤ length book.now }
    ensures first { take result book.now ≡ until moment book.now }
{
    book.entries()
        .partition_point(|entry| entry.moment <= moment)
}

/// How many entries of a diary there are up to the first begin of an element, with that; all where
/// it has not begun.
pub fn diary_through(book: &Book, who: u32) -> usize
    ensures { result ≡ length (through_begin who book.now) }
{
    let all = book.len();
    match book.first(who, StepKind::Began) {
        Some(place) => place + 1,
        None => all,
    }
}
