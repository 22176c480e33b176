//! What displaces a frozen element in a seq or an excl.

ghost use Rattle.std.specs.Prelude.{◌≡◌, ◌<◌, true, false, ◌+◌, length, slice_get, Option, Some};
ghost use Rattle.std.specs.List.{list_any};
ghost use Rattle.std.specs.Option.{option_map_or};
ghost use Rattle.smil_model.specs.declared.document.Node.{Node};
ghost use Rattle.smil_model.specs.document.Document.{serial_of, serials, time_children};
ghost use Rattle.smil_model.specs.diary.Diary.{birth_under};
ghost use Rattle.smil_model.specs.diary.Lawful.{has_element};
ghost use Rattle.smil_model.specs.shown.Views.{finished_by, is_displaced};
ghost use Rattle.smil_past.specs.Past.{history_of};
ghost use Rattle.smil_element.specs.Displaced.{began_from, following, is_set_off, may_set_off};

use super::facts::parent_of;
use smil_diary::{is_from, later_of};
use smil_model::{Kind, StepKind, position_in};
use smil_past::Past;

// Whether another child of its seq or excl began or resumed after the last end of an element, or
// the next child of its seq began since the seq last began or repeated. It takes no memory, and a
// look-up for each child.
pub(crate) fn is_displaced(past: &Past, who: u32) -> bool
    requires { has_element past.now.document.nodes who ≡ true }
    ensures { result ≡ is_displaced (history_of past.now) who }
{
    past.possible();
    let Some(parent) = parent_of(past, who) else {
        return false;
    };
    match past.tree().kind(parent) {
        Kind::Seq => next_began(past, parent, who) || sibling_set_off(past, parent, who),
        Kind::Excl => sibling_set_off(past, parent, who),
        _ => false,
    }
}

// Whether another child of the time parent began or resumed after the last end of an element.
fn sibling_set_off(past: &Past, parent: u32, who: u32) -> bool
    ensures { result ≡ list_any (may_set_off past.now.diary who (finished_by past.now.diary who))
        (serials (time_children past.now.document.nodes parent)) }
{
    let from = finished_by(past, who);
    past.tree()
        .time_children(parent)
        .iter()
        .any(|child| *child != who && sets_off(past, *child, from))
}

// How many entries there are up to the last end of an element; all where it never ended.
fn finished_by(past: &Past, who: u32) -> usize
    ensures { result ≡ finished_by past.now.diary who }
{
    let all = past.book().len();
    let ended = past.book().last(who, StepKind::Ended);
    let cut = past.book().last(who, StepKind::Cut);
    match later_of(ended, cut) {
        Some(place) => place + 1,
        None => all,
    }
}

// Whether an element began or resumed after so many entries.
fn sets_off(past: &Past, who: u32, from: usize) -> bool
    ensures { result ≡ is_set_off past.now.diary who from }
{
    is_from(from, past.book().last(who, StepKind::Began))
        || is_from(from, past.book().last(who, StepKind::Resumed))
}

// Whether the time child after one of a seq's children began since the seq last began or repeated.
fn next_began(past: &Past, parent: u32, who: u32) -> bool
    ensures { (node : Option Node) → serial_of node ≡ Some parent
        → result ≡ option_map_or (began_from past.now.diary (birth_under node past.now.diary))
        (following who (serials (time_children past.now.document.nodes parent))) false }
{
    match next_child(past, parent, who) {
        Some(next) => is_from(
            past.book().birth(Some(parent)),
            past.book().last(next, StepKind::Began),
        ),
        None => false,
    }
}

// The time child of a parent that stands after one of its children.
fn next_child(past: &Past, parent: u32, who: u32) -> Option<u32>
    ensures { result ≡ following who (serials (time_children past.now.document.nodes parent)) }
{
    let children = past.tree().time_children(parent);
    let place = position_in(children, who)?;
    serial_after(children, place)
}

// The serial behind a place among others.
fn serial_after(serials: &[u32], place: usize) -> Option<u32>
    requires { place < length serials.now }
    ensures { result ≡ slice_get serials.now (place + 1) }
{
    serials.get(place + 1).copied()
}
