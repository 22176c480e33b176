//! Presentations that are played, whose clocks and instance times are told.

ghost use Rattle.std.specs.Prelude.{◌≡◌, ◌<◌, ◌≤◌, ◌+ℤ◌, length, pos, true, false, None, IfOk, OnOk};
ghost use Rattle.smil_cells.specs.CellsState.{NothingBefore};
ghost use Rattle.smil_model.specs.Times.{IsMoment};
ghost use Rattle.smil_model.specs.diary.Logs.{is_serial, may_happen};
ghost use Rattle.smil_model.specs.document.Valid.{IsValid};
ghost use Rattle.smil_model.specs.shown.Answers.{IsGiven};

use super::documents::document;
use super::moments::{PlayMoment, put_clocks, put_instances};
use super::orders::{lines_of, order_of, outline_and_orders};
use smil_diary::BookFault;
use smil_graph::Graph;
use smil_instances::Instances;
use smil_interval::Steps;
use smil_model::{
    Bytes, Doc, Duplicate, HORIZON, Happening, LOG_ENTRIES, LogEntry, Order, SERIALS, Who, WordList,
};
use smil_past::Past;
use smil_plain::PlainCells;
use smil_stretch::Clocks;
use smil_test_cases::{Fault, Words, put_bytes, put_flag, put_number};
use smil_tree::Tree;
use std::alloc::{AllocError, Global};
use std::marker::Brand;
use std::sync::ledger::{Blank, Ledger};

// A document, and the script lines by which it is played.
#[derive(Drop)]
struct Script {
    doc: Doc,
    lines: WordList,
}

/// `play LINE|LINE|..|%%|ORDER|ORDER|..`: the document of an outline plays from moment 0 on by
/// script lines whose orders are `advance`, `seek` to a later moment, `event`, `media` and `key`.
/// In the end its clocks and its instance times are told, and whether they are the same after going
/// back as where they are made anew.
pub fn play(alloc: Global, words: &mut Words<'_>, out: &mut Bytes) -> Result<(), Fault> {
    let (outline, orders) = outline_and_orders(words.rest())?;
    let script = Script {
        doc: document(alloc, outline)?,
        lines: lines_of(alloc, orders)?,
    };
    played::<Brand>(alloc, Blank::new(1), &script, out)
}

// Plays a document by script lines, whose evaluations are counted.
fn played<L: Ledger>(
    alloc: Global,
    blank: Blank,
    script: &Script,
    out: &mut Bytes,
) -> Result<(), Fault>
    requires name { blank.name ≡ L.name }
    requires parts { blank.parts ≡ L.parts }
    requires backed { 0 < blank.parts }
    requires valid { IsValid script.now.doc }
{
    let mut steps = Steps::<L>::new(blank);
    let mut cells = PlainCells::new(alloc, script.doc.copy()?, &mut steps)?;
    settle(&mut cells, 0, &mut steps)?;
    for line in script.lines.slice() {
        if let Some(order) = order_of(alloc, line.slice())? {
            take(&mut cells, order, &mut steps)?;
        }
    }
    tell_clocks(alloc, out, &cells)?;
    tell_times(alloc, out, &cells)?;
    tell_fronts(alloc, out, &cells)
}

// One order.
fn take<L: Ledger>(cells: &mut PlainCells, order: Order, steps: &mut Steps<L>) -> Result<(), Fault>
    requires sound { cells.old.fault ≡ None }
    requires given { IsGiven order }
    ensures { OnOk result (cells.new.fault ≡ None) }
{
    match order {
        Order::Advance { by } => {
            let until = cells.moment().saturating_add(by);
            settle(cells, until, steps)
        }
        Order::Seek { to } => settle(cells, to, steps),
        Order::Event { who, name } => {
            let who = serial_of(cells.tree(), &who)?;
            hear(cells, Happening::Event { who, name }, steps)
        }
        Order::Media { who, length } => {
            let who = serial_of(cells.tree(), &who)?;
            hear(cells, Happening::Media { who, length }, steps)
        }
        Order::Key { key } => hear(cells, Happening::Key { key }, steps),
        _ => Err(Fault::Refused),
    }
}

// A serial, which need not be a node's, or that of the node with an id.
fn serial_of(tree: &Tree, who: &Who) -> Result<u32, Fault>
    ensures { IfOk result (λ serial. is_serial serial ≡ true) }
{
    let serial = match who {
        Who::Serial(serial) => Some(*serial),
        who => tree.find(who),
    };
    match serial {
        Some(serial) if 1 <= serial && serial <= SERIALS => Ok(serial),
        _ => Err(Fault::Refused),
    }
}

// Plays on to a moment, which is not before the present one.
fn settle<L: Ledger>(cells: &mut PlainCells, until: i64, steps: &mut Steps<L>) -> Result<(), Fault>
    requires { cells.old.fault ≡ None }
    ensures { OnOk result (cells.new.fault ≡ None) }
{
    if until < cells.moment() || until > HORIZON {
        return Err(Fault::Refused);
    }
    cells.settle(until, steps).map_err(refusal)
}

// Hears what came from outside, where nothing is due and the log has room.
fn hear<L: Ledger>(
    cells: &mut PlainCells,
    what: Happening,
    steps: &mut Steps<L>,
) -> Result<(), Fault>
    requires sound { cells.old.fault ≡ None }
    requires may { may_happen what ≡ true }
    ensures { OnOk result (cells.new.fault ≡ None) }
{
    let moment = cells.moment();
    if cells.log().len() >= LOG_ENTRIES || is_due(cells) {
        return Err(Fault::Refused);
    }
    cells
        .hear(LogEntry { moment, what }, steps)
        .map_err(refusal)
}

// Whether something comes at the present moment.
fn is_due(cells: &PlainCells) -> bool
    requires { cells.now.fault ≡ None }
    ensures { result ≡ false → NothingBefore cells.now (pos cells.now.presentation.now +ℤ pos 1) }
{
    match cells.next_due() {
        Some(due) => due <= cells.moment(),
        None => false,
    }
}

// Why a step of the cells has no answer.
fn refusal(fault: BookFault) -> Fault {
    match fault {
        BookFault::DiaryFull => Fault::Refused,
        BookFault::Memory => Fault::Memory,
    }
}

// The present moment, the clocks of the elements, and whether those that are made anew are the
// same.
fn tell_clocks(alloc: Global, out: &mut Bytes, cells: &PlainCells) -> Result<(), Fault> {
    let moment = moment_of(cells)?;
    let whos = cells.tree().elements();
    let mut shown = Bytes::new(alloc);
    let kept = PlayMoment {
        clocks: cells.clocks(),
        moment,
    };
    put_clocks(&mut shown, &kept, whos)?;
    let mut again = Bytes::new(alloc);
    let clocks = clocks_anew(alloc, cells.past())?;
    let anew = PlayMoment {
        clocks: &clocks,
        moment,
    };
    put_clocks(&mut again, &anew, whos)?;
    put_number(out, moment)?;
    put_bytes(out, &shown)?;
    put_flag(out, shown == again)?;
    Ok(())
}

// The present moment, in milliseconds of document time.
fn moment_of(cells: &PlainCells) -> Result<i64, Fault>
    ensures { IfOk result IsMoment }
{
    let moment = cells.moment();
    if moment < 0 || moment > HORIZON {
        return Err(Fault::Refused);
    }
    Ok(moment)
}

// The clocks after the entries of the diary, made anew.
fn clocks_anew(alloc: Global, past: &Past) -> Result<Clocks, AllocError> {
    past.possible();
    Clocks::of(alloc, past.tree(), past.book())
}

// The instance times of the elements, which are made anew, and whether those that were kept are
// the same.
fn tell_times(alloc: Global, out: &mut Bytes, cells: &PlainCells) -> Result<(), Fault> {
    let moment = moment_of(cells)?;
    let whos = cells.tree().elements();
    let past = cells.past();
    let present = PlayMoment {
        clocks: past.clocks(),
        moment,
    };
    let mut anew = Bytes::new(alloc);
    put_instances(&mut anew, &instances_anew(alloc, past)?, &present, whos)?;
    let mut kept = Bytes::new(alloc);
    put_instances(&mut kept, past.instances(), &present, whos)?;
    put_bytes(out, &anew)?;
    put_flag(out, anew == kept)?;
    Ok(())
}

// The instance times after the entries of the diary, made anew.
fn instances_anew(alloc: Global, past: &Past) -> Result<Instances, AllocError> {
    past.possible();
    let tree = past.tree();
    let places = past.syncs().places().clone()?;
    let mut instances = Instances::new(alloc, tree, places)?;
    instances.rebuild(tree, past.log(), past.book())?;
    Ok(instances)
}

// Whether what had happened by a quarter of the diary, to which it goes back in two steps, is told
// as where it is made anew.
fn tell_fronts(alloc: Global, out: &mut Bytes, cells: &PlainCells) -> Result<(), Fault> {
    let past = cells.past();
    let mut whole = past_of_first(alloc, past, past.book().len())?;
    let mut half = half_of(&mut whole)?;
    let quarter = half_of(&mut half)?;
    let anew = past_of_first(alloc, past, past.book().len() / 4)?;
    let shown = past_text(alloc, cells, &quarter)?;
    let again = past_text(alloc, cells, &anew)?;
    put_flag(out, shown == again)?;
    Ok(())
}

// What had happened by the first entries of the diary, made anew.
fn past_of_first(alloc: Global, past: &Past, len: usize) -> Result<Past, AllocError>
    requires { len ≤ length past.now.diary }
    ensures { IfOk result (λ first. first.marked ≡ None) }
{
    past.possible();
    let graph = Graph::of(alloc, past.tree().copy()?)?;
    let log = past.log().copy()?;
    past.revised(graph, log, &past.book().entries()[..len])
}

// What had happened by the first half of the diary, to which a past without a mark goes back.
fn half_of(past: &mut Past) -> Result<Past, AllocError>
    requires { past.old.marked ≡ None }
    ensures { IfOk result (λ half. half.marked ≡ None) }
{
    past.possible();
    let log = past.log().len();
    let diary = past.book().len() / 2;
    past.front(log, diary)
}

// How many entries there are, and the clocks and the instance times of the elements at the present
// moment.
fn past_text(alloc: Global, cells: &PlainCells, past: &Past) -> Result<Bytes, Fault> {
    let moment = moment_of(cells)?;
    let whos = cells.tree().elements();
    let present = PlayMoment {
        clocks: past.clocks(),
        moment,
    };
    let mut text = Bytes::new(alloc);
    put_number(&mut text, past.book().len())?;
    put_clocks(&mut text, &present, whos)?;
    put_instances(&mut text, past.instances(), &present, whos)?;
    Ok(text)
}
