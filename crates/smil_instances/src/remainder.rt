//! What is no longer kept for items after the last entry of a diary.

ghost use Rattle.std.specs.Prelude.{◌≡◌, ℕ, Some, List, IsSome, min};
ghost use Rattle.smil_model.specs.declared.diary.LogEntry.{LogEntry as AnyLogEntry};
ghost use Rattle.smil_model.specs.document.Document.{node_at, time_parent};
ghost use Rattle.smil_model.specs.diary.Diary.{birth_under};
ghost use Rattle.smil_instances.specs.Sources.{base_of};
ghost use Rattle.smil_instance_rows.specs.Changes.{cell_of, with_cell, HasCell};
ghost use Rattle.smil_instances.specs.Updates.{remaining};
ghost use Rattle.smil_instances.specs.Entry.{HasDependents};
ghost use Rattle.smil_instances.specs.Intake.{history_of, HasItem, HaveItems, IsCellOf, with_remainder, with_remainders, AreRowsOf};
ghost use Rattle.smil_instances.specs.Noted.{kept_by};
ghost use Rattle.smil_instance_rows.specs.declared.item_times.InstanceTime.{InstanceTime as AnyTime};

use super::arrival::Arrival;
use super::items::CellItem;
use super::laws::bases_are_elements;
use super::source::Source;
use smil_diary::Book;
use smil_instance_rows::{Cell, Rows};
use smil_tree::Tree;

/// What is kept of the instance times of an item.
#[derive(Clone, Copy)]
pub enum Remainder {
    /// The last one.
    Last,
    /// Those from a place on.
    From { place: usize },
    All,
}

/// Takes out of each of these items what is no longer kept, by the births in the book. It takes no
/// memory.
pub(crate) fn trim_each(rows: &mut Rows, cells: &[Cell], arrival: &Arrival<'_>)
    requires cells { HaveItems arrival.now.history.tree.now.nodes cells.now }
    requires dependents { HasDependents arrival.now }
    requires rows { AreRowsOf arrival.now.history.tree.now.nodes rows.old }
    ensures { (log : List AnyLogEntry) → rows.new ≡ with_remainders
        (history_of arrival.now.history.tree.now log arrival.now.history.book.now) rows.old
        cells.now }
{
    for cell in cells {
        trim_at(rows, *cell, arrival);
    }
}

// Takes out of an item what is no longer kept.
fn trim_at(rows: &mut Rows, cell: Cell, arrival: &Arrival<'_>)
    requires cell { HasItem arrival.now.history.tree.now.nodes cell }
    requires dependents { HasDependents arrival.now }
    requires rows { AreRowsOf arrival.now.history.tree.now.nodes rows.old }
    ensures value { (log : List AnyLogEntry) → rows.new ≡ with_remainder
        (history_of arrival.now.history.tree.now log arrival.now.history.book.now) rows.old cell }
    ensures rows { AreRowsOf arrival.now.history.tree.now.nodes rows.new }
{
    arrival.history.tree.valid();
    bases_are_elements();
    if rows.is_idle(cell) {
        return;
    }
    let who = arrival.history.tree.element_at(cell.row).unwrap();
    let source = arrival.dependents.source(cell);
    let own = CellItem { cell, who, source };
    trim(rows, own, arrival.history.tree, arrival.history.book);
}

// Takes out of the item of a cell what is no longer kept.
fn trim(rows: &mut Rows, own: CellItem, tree: &Tree, book: &Book)
    requires has { HasCell rows.old own.cell }
    requires cell { IsCellOf tree.now.nodes own.cell own.who own.source }
    requires base { (of : ℕ) → base_of own.source ≡ Some of → IsSome (node_at tree.now.nodes of) }
    ensures { (log : List AnyLogEntry)
        → rows.new ≡ with_cell rows.old own.cell (remaining (history_of tree.now log book.now)
        own.who own.source (cell_of rows.old own.cell)) }
{
    match remainder_of(own, tree, book) {
        Remainder::Last => rows.keep_last(own.cell),
        Remainder::From { place } => rows.cut(own.cell, place),
        Remainder::All => {}
    }
}

/// What is kept for the item of a cell, by the births in the book. It takes no memory.
#[inline(always)]
pub(crate) fn remainder_of(own: CellItem, tree: &Tree, book: &Book) -> Remainder
    requires cell { IsCellOf tree.now.nodes own.cell own.who own.source }
    requires base { (of : ℕ) → base_of own.source ≡ Some of → IsSome (node_at tree.now.nodes of) }
    ensures { (log : List AnyLogEntry) (kept : List AnyTime) → kept_by result kept
        ≡ remaining (history_of tree.now log book.now) own.who own.source kept }
{
    let CellItem { who, source, .. } = own;
    match source {
        Source::Start => Remainder::Last,
        Source::Syncbase { of, .. } => Remainder::From {
            place: earlier_birth(tree, book, who, of),
        },
        Source::Eventbase { .. } | Source::Key { .. } => Remainder::From {
            place: birth(tree, book, who),
        },
        Source::Nothing => Remainder::All,
    }
}

// The earlier birth of two elements.
fn earlier_birth(tree: &Tree, book: &Book, one: u32, other: u32) -> usize
    requires one { IsSome (node_at tree.now.nodes one) }
    requires other { IsSome (node_at tree.now.nodes other) }
    ensures { result ≡ min (birth_under (time_parent tree.now.nodes one) book.now)
        (birth_under (time_parent tree.now.nodes other) book.now) }
{
    let parent = tree.time_parent(one);
    let other_parent = tree.time_parent(other);
    let place = book.birth(parent);
    if other_parent == parent {
        return place;
    }
    place.min(book.birth(other_parent))
}

// The birth of an element.
fn birth(tree: &Tree, book: &Book, who: u32) -> usize
    requires { IsSome (node_at tree.now.nodes who) }
    ensures { result ≡ birth_under (time_parent tree.now.nodes who) book.now }
{
    book.birth(tree.time_parent(who))
}
