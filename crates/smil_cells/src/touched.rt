//! The elements in whose views entries show.

ghost use Rattle.std.specs.Prelude.{◌≡◌, ℕ, ◌≤◌, ◌&&◌, length, drop, true, Some, OnOk, IsSome, is_some};
ghost use Rattle.smil_model.specs.declared.document.Node.{Node as AnyNode};
ghost use Rattle.smil_model.specs.document.Document.{elements, is_within, node_at, serial_of, time_children};
ghost use Rattle.smil_model.specs.diary.Lawful.{has_element};
ghost use Rattle.smil_model.specs.diary.Plays.{last_finished};
ghost use Rattle.smil_laws.specs.Seen.{starts as starts_in};
ghost use Rattle.smil_graph.specs.Tables.{takes_turns};
ghost use Rattle.smil_past.specs.Makeups.{keeps_children};
ghost use Rattle.smil_past.specs.Past.{history_of};
ghost use Rattle.smil_cells.specs.Evaluated.{acts_on};
ghost use Rattle.smil_cells.specs.Shown.{ArePutWhere, any_rests, any_shows, displaced_in, may_rest, shows_from, shows_in};

use super::order::put_range;
use smil_model::{PlaceSet, Step};
use smil_past::Past;
use smil_past::makeup::{is_freeze, plays_one};
use smil_tree::Tree;
use std::alloc::AllocError;

/// Puts the places of the elements whose views the entries from an index on may change, given the
/// same intervals, and those of no other elements; a logged entry changes none. Refused where memory
/// runs out. It takes a step for each place that is put in, and for a begin or a resume in a seq or
/// an excl of whose children one freezes when it ends one for each child of that.
pub fn touch(past: &Past, from: usize, touched: &mut PlaceSet) -> Result<(), AllocError>
    requires { from ≤ length past.now.diary }
    ensures { OnOk result (ArePutWhere past.now.document.nodes
        (any_shows (history_of past.now) (drop from past.now.diary)) touched.old touched.new) }
{
    for entry in &past.book().entries()[from..] {
        touch_step(past, entry.step, touched)?;
    }
    Ok(())
}

// Puts the places of the elements whose views a step may change.
fn touch_step(past: &Past, step: Step, touched: &mut PlaceSet) -> Result<(), AllocError>
    ensures { OnOk result (ArePutWhere past.now.document.nodes
        (shows_from (history_of past.now) step (acts_on step)) touched.old touched.new) }
{
    match step {
        Step::Logged { .. } => Ok(()),
        Step::Began { who, .. }
        | Step::Repeated { who, .. }
        | Step::Ended { who, .. }
        | Step::Cut { who }
        | Step::Paused { who }
        | Step::Resumed { who }
        | Step::Deferred { who, .. }
        | Step::Passed { who, .. } => touch_element(past, step, who, touched),
    }
}

// Puts the places of the elements whose views a step of an element may change; none for a serial
// that no node has.
fn touch_element(
    past: &Past,
    step: Step,
    who: u32,
    touched: &mut PlaceSet,
) -> Result<(), AllocError>
    ensures { OnOk result (ArePutWhere past.now.document.nodes
        (shows_in (history_of past.now) step who) touched.old touched.new) }
{
    let tree = past.tree();
    tree.valid();
    if tree.position(who).is_none() {
        return Ok(());
    }
    touch_within(tree, who, touched)?;
    match displaced(tree, step, who) {
        Some(parent) => touch_resting(past, parent, touched),
        None => Ok(()),
    }
}

// Puts the places of the children of a seq or an excl that may be frozen, and of those below these,
// in.
#[inline(never)]
fn touch_resting(past: &Past, parent: u32, touched: &mut PlaceSet) -> Result<(), AllocError>
    requires { takes_turns (node_at (elements past.now.document.nodes) parent) ≡ true }
    ensures { OnOk result (ArePutWhere past.now.document.nodes
        (any_rests (history_of past.now) (time_children past.now.document.nodes parent))
        touched.old touched.new) }
{
    past.possible();
    if !keeps_children(past, parent) {
        return Ok(());
    }
    for child in past.tree().time_children(parent) {
        touch_where_resting(past, *child, touched)?;
    }
    Ok(())
}

// Whether an element is a seq or an excl of whose time children one freezes when it ends.
fn keeps_children(past: &Past, who: u32) -> bool
    requires { has_element past.now.document.nodes who ≡ true }
    ensures { (e : AnyNode) → node_at (elements past.now.document.nodes) who ≡ Some e
        → result ≡ keeps_children past.now.document.nodes e }
{
    past.makeup(who).keeps_children
}

// Puts the places of an element and of those below it in, where it may be frozen.
fn touch_where_resting(past: &Past, who: u32, touched: &mut PlaceSet) -> Result<(), AllocError>
    requires { has_element past.now.document.nodes who ≡ true }
    ensures { (n : AnyNode) → node_at (elements past.now.document.nodes) who ≡ Some n
        → OnOk result (ArePutWhere past.now.document.nodes
        (λ (s : ℕ). may_rest (history_of past.now) n && is_within past.now.document.nodes who s)
        touched.old touched.new) }
{
    if may_rest(past, who) {
        touch_within(past.tree(), who, touched)
    } else {
        Ok(())
    }
}

// Whether an element may be frozen until it is displaced: it has finished an interval, and its fill
// freezes it.
fn may_rest(past: &Past, who: u32) -> bool
    requires { has_element past.now.document.nodes who ≡ true }
    ensures { (n : AnyNode) → node_at (elements past.now.document.nodes) who ≡ Some n
        → result ≡ may_rest (history_of past.now) n }
{
    is_freeze(past.makeup(who).fill) && has_finished(past, who)
}

// Whether an element has finished an interval since birth.
fn has_finished(past: &Past, who: u32) -> bool
    requires { has_element past.now.document.nodes who ≡ true }
    ensures { result ≡ is_some (last_finished (history_of past.now) who) }
{
    past.plays().of(who).unwrap().last_finished.is_some()
}

// The time parent in which a step may displace frozen children, if there is one.
fn displaced(tree: &Tree, step: Step, who: u32) -> Option<u32>
    requires { IsSome (node_at tree.now.nodes who) }
    ensures value { result ≡ serial_of (displaced_in tree.now.nodes step who) }
    ensures known { (parent : ℕ) → result ≡ Some parent
        → takes_turns (node_at (elements tree.now.nodes) parent) ≡ true }
{
    tree.valid();
    if !starts(step) {
        return None;
    }
    let parent = tree.time_parent(who)?;
    if plays_one(tree.kind(parent)) {
        Some(parent)
    } else {
        None
    }
}

// Whether a step begins or resumes a play.
fn starts(step: Step) -> bool
    ensures { result ≡ starts_in step }
{
    matches!(step, Step::Began { .. } | Step::Resumed { .. })
}

// Puts the places of a node and of those below it in.
#[inline(always)]
fn touch_within(tree: &Tree, who: u32, touched: &mut PlaceSet) -> Result<(), AllocError>
    requires { IsSome (node_at tree.now.nodes who) }
    ensures { OnOk result (ArePutWhere tree.now.nodes (is_within tree.now.nodes who) touched.old
        touched.new) }
{
    tree.valid();
    let (start, end) = tree.span(who);
    put_range(touched, start, end)
}
