//! The elements that entries concern.

ghost use Rattle.std.specs.Prelude.{◌≡◌, ◌==◌, ◌≤◌, ℕ, None, Some, true, OnOk, length};
ghost use Rattle.smil_model.specs.diary.Lawful.{has_element};
ghost use Rattle.smil_model.specs.document.Closure.{has};
ghost use Rattle.smil_model.specs.document.Document.{time_parent};
ghost use Rattle.smil_model.specs.reach.Reach.{waiters};
ghost use Rattle.smil_concern_laws.specs.Concerned.{moves};
ghost use Rattle.smil_graph.specs.Graph.{IsGraphOrder};
ghost use Rattle.smil_cells.specs.Evaluated.{acts_on, ends_at, is_at, is_container, is_moved_container, may_end};
ghost use Rattle.smil_rounds.specs.Current.{interval_in};
ghost use Rattle.smil_nodes.specs.Noted.{AreNoted, NotesEntries, NotesStep, has_moved_item, is_below_or_reader, is_concerned_by_heard, is_of_cell, is_of_moved, is_self_or_reader, moves_source};

use super::followers::put_ranks;
use super::schedule::Schedule;
use smil_duration::takes_implicit;
use smil_element::Intervals;
use smil_graph::Graph;
use smil_instance_rows::Cell;
use smil_instances::Source;
use smil_model::{Edge, Happening, Interval, PlaceSet, Step, Time};
use smil_past::Past;
use smil_tree::Tree;
use std::alloc::AllocError;

/// Lists the ranks, in the order of the document's graph, of the elements that the entries from an
/// index on concern, and of the time parent of each element that they act on, where its duration
/// follows from its time children and, by the element's interval before the entries, these may
/// change the ends of that. Where memory runs out some may be listed. It takes a step for each item
/// that names an entry's element or waits for its key, and, unless the entry is of the log, for
/// each node below its element and for each reader of one of these.
pub fn note_concerned(
    past: &Past,
    graph: &Graph,
    schedule: &Schedule,
    from: usize,
    agenda: &mut PlaceSet,
) -> Result<(), AllocError>
    requires within { from ≤ length past.now.diary }
    requires graph { graph.now.nodes ≡ past.now.document.nodes }
    ensures { OnOk result (NotesEntries graph.now past.now (interval_in schedule.now) from
        agenda.old agenda.new) }
{
    for entry in &past.book().entries()[from..] {
        note_step(past, graph, schedule, entry.step, agenda)?;
    }
    Ok(())
}

// Lists what a step concerns, and the container of the element whose ends it may change.
fn note_step(
    past: &Past,
    graph: &Graph,
    schedule: &Schedule,
    step: Step,
    agenda: &mut PlaceSet,
) -> Result<(), AllocError>
    requires { graph.now.nodes ≡ past.now.document.nodes }
    ensures { OnOk result (NotesStep graph.now past.now.log (interval_in schedule.now) step
        agenda.old agenda.new) }
{
    match step {
        Step::Logged { place } => match past.log().get(place as usize) {
            Some(entry) => note_heard(past, graph, &entry.what, step, agenda),
            None => Ok(()),
        },
        Step::Began { who, .. }
        | Step::Repeated { who, .. }
        | Step::Ended { who, .. }
        | Step::Cut { who }
        | Step::Paused { who }
        | Step::Resumed { who }
        | Step::Deferred { who, .. }
        | Step::Passed { who, .. } => note_acted(past, graph, schedule, who, step, agenda),
    }
}

// Lists what a log entry concerns; `step` is the step that hears it.
fn note_heard(
    past: &Past,
    graph: &Graph,
    what: &Happening,
    step: Step,
    agenda: &mut PlaceSet,
) -> Result<(), AllocError>
    requires graph { graph.now.nodes ≡ past.now.document.nodes }
    requires step { acts_on step ≡ None }
    ensures { OnOk result (AreNoted graph.now.order
        (is_concerned_by_heard graph.now.nodes what.now) agenda.old agenda.new) }
{
    order_is_kept(graph);
    match what {
        Happening::Event { who, .. } => note_moved(past, graph, *who, step, agenda),
        Happening::Media { who, .. } => note(graph, *who, agenda),
        Happening::Key { key } => note_waiting(past, graph, *key, agenda),
    }
}

// Lists what a step concerns that acts on an element, and the container of that; nothing for a
// serial of no element.
fn note_acted(
    past: &Past,
    graph: &Graph,
    schedule: &Schedule,
    who: u32,
    step: Step,
    agenda: &mut PlaceSet,
) -> Result<(), AllocError>
    requires graph { graph.now.nodes ≡ past.now.document.nodes }
    requires step { acts_on step ≡ Some who }
    ensures { OnOk result (NotesStep graph.now past.now.log (interval_in schedule.now) step
        agenda.old agenda.new) }
{
    let tree = past.tree();
    tree.valid();
    order_is_kept(graph);
    let Some(rank) = graph.place_in_order(who) else {
        return Ok(());
    };
    agenda.put(rank)?;
    note_follower(tree, graph, schedule, who, step, agenda)?;
    note_below(tree, graph, who, agenda)?;
    note_moved(past, graph, who, step, agenda)
}

// Lists the container of an element where a step may change the ends that it takes of it.
fn note_follower(
    tree: &Tree,
    graph: &Graph,
    schedule: &Schedule,
    who: u32,
    step: Step,
    agenda: &mut PlaceSet,
) -> Result<(), AllocError>
    requires graph { graph.now.nodes ≡ tree.now.nodes }
    requires element { has_element tree.now.nodes who ≡ true }
    ensures { OnOk result (AreNoted graph.now.order
        (is_moved_container graph.now.nodes (interval_in schedule.now) step who)
        agenda.old agenda.new) }
{
    if may_end(schedule, step, who) {
        note_container(tree, graph, who, agenda)
    } else {
        Ok(())
    }
}

// Whether a step on an element may change the ends that a container takes of it.
fn may_end(schedule: &Schedule, step: Step, who: u32) -> bool
    ensures { result ≡ may_end (interval_in schedule.now) step who }
{
    let interval = schedule.interval(who);
    match step {
        Step::Ended { end, .. } => !ends_at(interval, end),
        Step::Cut { .. } => true,
        _ => interval.is_none(),
    }
}

// Whether there is an interval, and with this end.
fn ends_at(interval: Option<Interval>, end: i64) -> bool
    ensures { result ≡ ends_at end interval }
{
    match interval {
        Some(interval) => is_at(interval.end, end),
        None => false,
    }
}

// Whether a time is this number.
fn is_at(time: Time, value: i64) -> bool
    ensures { result ≡ is_at value time }
{
    match time {
        Time::At(time) => time == value,
        _ => false,
    }
}

/// Lists the time parent of an element where its duration follows from its time children. It takes
/// a fixed number of steps; refused where memory runs out.
pub fn note_container(
    tree: &Tree,
    graph: &Graph,
    who: u32,
    agenda: &mut PlaceSet,
) -> Result<(), AllocError>
    requires graph { graph.now.nodes ≡ tree.now.nodes }
    requires element { has_element tree.now.nodes who ≡ true }
    ensures { OnOk result (AreNoted graph.now.order
        (is_container (time_parent graph.now.nodes who)) agenda.old agenda.new) }
{
    tree.valid();
    let Some(parent) = tree.time_parent(who) else {
        return Ok(());
    };
    if takes_implicit(tree.attrs(parent)) {
        note(graph, parent, agenda)
    } else {
        Ok(())
    }
}

// Lists what is below an element, and what reads it.
fn note_below(tree: &Tree, graph: &Graph, who: u32, agenda: &mut PlaceSet) -> Result<(), AllocError>
    requires graph { graph.now.nodes ≡ tree.now.nodes }
    requires element { has_element tree.now.nodes who ≡ true }
    ensures { OnOk result (AreNoted graph.now.order (is_below_or_reader graph.now.nodes who)
        agenda.old agenda.new) }
{
    tree.valid();
    for node in tree.below(who) {
        note_element(graph, node.serial, agenda)?;
    }
    Ok(())
}

// Lists the elements of the items that a step on an element moves; nothing for a serial of no
// element.
fn note_moved(
    past: &Past,
    graph: &Graph,
    who: u32,
    step: Step,
    agenda: &mut PlaceSet,
) -> Result<(), AllocError>
    requires { graph.now.nodes ≡ past.now.document.nodes }
    ensures { OnOk result (AreNoted graph.now.order
        (has_moved_item graph.now.nodes who step) agenda.old agenda.new) }
{
    let Some(row) = past.index_of(who) else {
        return Ok(());
    };
    for cell in past.instances().dependents().cells(row, false) {
        note_where_moved(past, graph, step, *cell, agenda)?;
    }
    Ok(())
}

// Lists the element of a cell where a step on the element that its item names moves the item.
fn note_where_moved(
    past: &Past,
    graph: &Graph,
    step: Step,
    cell: Cell,
    agenda: &mut PlaceSet,
) -> Result<(), AllocError>
    requires { graph.now.nodes ≡ past.now.document.nodes }
    ensures { OnOk result (AreNoted graph.now.order
        (is_of_moved graph.now.nodes step cell) agenda.old agenda.new) }
{
    let source = past.instances().dependents().source(cell);
    if is_moved(step, source) {
        note_cell(past, graph, cell, agenda)
    } else {
        Ok(())
    }
}

// Whether a step on the element that a source names can change the times of an item with it.
fn is_moved(step: Step, source: Source) -> bool
    ensures { result ≡ moves_source step source }
{
    match source {
        Source::Syncbase { edge, .. } => moves(edge, step),
        Source::Eventbase { .. } => true,
        Source::Start | Source::Key { .. } | Source::Nothing => false,
    }
}

// Whether a step can change what is read of an edge of its element.
fn moves(edge: Edge, step: Step) -> bool
    ensures { result ≡ moves edge step }
{
    match (edge, step) {
        (Edge::Begin, Step::Began { .. }) | (_, Step::Ended { .. } | Step::Cut { .. }) => true,
        _ => false,
    }
}

// Lists the elements of the items that wait for a key.
fn note_waiting(
    past: &Past,
    graph: &Graph,
    key: u8,
    agenda: &mut PlaceSet,
) -> Result<(), AllocError>
    requires { graph.now.nodes ≡ past.now.document.nodes }
    ensures { OnOk result (AreNoted graph.now.order (has (waiters graph.now.nodes key))
        agenda.old agenda.new) }
{
    for cell in past.instances().dependents().key_cells(key) {
        note_cell(past, graph, *cell, agenda)?;
    }
    Ok(())
}

// Lists the element of a cell, if there is one.
fn note_cell(
    past: &Past,
    graph: &Graph,
    cell: Cell,
    agenda: &mut PlaceSet,
) -> Result<(), AllocError>
    requires { graph.now.nodes ≡ past.now.document.nodes }
    ensures { OnOk result (AreNoted graph.now.order
        (is_of_cell graph.now.nodes cell) agenda.old agenda.new) }
{
    let tree = past.tree();
    match tree.element_at(cell.row) {
        Some(serial) => note(graph, serial, agenda),
        None => Ok(()),
    }
}

// Lists an element and what reads it; nothing for a serial of no element.
fn note_element(graph: &Graph, serial: u32, agenda: &mut PlaceSet) -> Result<(), AllocError>
    ensures { OnOk result (AreNoted graph.now.order (is_self_or_reader graph.now.nodes serial)
        agenda.old agenda.new) }
{
    order_is_kept(graph);
    let Some(rank) = graph.place_in_order(serial) else {
        return Ok(());
    };
    agenda.put(rank)?;
    put_ranks(graph.reader_ranks(rank), agenda)
}

// Lists an element; a serial of no element is passed over.
fn note(graph: &Graph, serial: u32, agenda: &mut PlaceSet) -> Result<(), AllocError>
    ensures { OnOk result
        (AreNoted graph.now.order (λ (s : ℕ). serial == s) agenda.old agenda.new) }
{
    match graph.place_in_order(serial) {
        Some(rank) => agenda.put(rank),
        None => Ok(()),
    }
}

// The order of a graph is one of the elements: a law for proofs, which costs nothing.
fn order_is_kept(graph: &Graph)
    ensures { IsGraphOrder graph.now.nodes graph.now.order }
{
    let _order = graph.order();
}
