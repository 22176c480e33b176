//! Whether an element is frozen.

ghost use Rattle.std.specs.Prelude.{◌≡◌, ◌||◌, ◌&&◌, not, pos, true, false, Option, Some, None, IfSome, is_some};
ghost use Rattle.smil_model.specs.declared.document.Node.{Node as AnyNode};
ghost use Rattle.smil_model.specs.document.Defaults.{effective_fill};
ghost use Rattle.smil_model.specs.document.Document.{elements, node_at, serial_of, time_parent};
ghost use Rattle.smil_model.specs.diary.Diary.{is_deferred, lives_under};
ghost use Rattle.smil_model.specs.diary.Lawful.{has_element};
ghost use Rattle.smil_model.specs.shown.Views.{is_displaced, is_frozen_by, keeps, view_facts};
ghost use Rattle.smil_past.specs.Past.{history_of};
ghost use Rattle.smil_element.specs.Shown.{frozen_at, is_cut};
ghost use Rattle.smil_element.specs.Subject.{IsFound};

use super::displaced::is_displaced;
use super::facts::{is_alive, parent_of, played_of};
use super::subject::Subject;
use smil_model::Fill;
use smil_past::{Past, PastInterval};

// Whether an element is frozen; false where there is none. It takes no memory, and a step for each
// element above it up to an active one; for each of these that freezes in a seq or an excl, a
// look-up for each of its siblings.
pub(crate) fn is_frozen(past: &Past, who: Option<u32>) -> bool
    requires { IfSome who (λ w. has_element past.now.document.nodes w ≡ true) }
    ensures { result ≡ frozen_at (history_of past.now) who }
{
    let Some(who) = who else {
        return false;
    };
    past.possible();
    if past.active(who) {
        return false;
    }
    let above = is_frozen(past, parent_of(past, who));
    rests_frozen(past, who, above)
}

// Whether the time parent of an element is frozen; false where there is none.
pub(crate) fn is_frozen_above(subject: &Subject<'_>) -> bool
    requires { IsFound subject.now }
    ensures { result ≡ frozen_at (history_of subject.now.present.past.now)
        (serial_of (time_parent subject.now.present.past.now.document.nodes
        subject.now.present.who)) }
{
    subject.present.past.possible();
    !subject.alive && is_frozen(subject.present.past, subject.parent)
}

// Whether an element that is not active is frozen, by whether its time parent is.
fn rests_frozen(past: &Past, who: u32, above: bool) -> bool
    requires { has_element past.now.document.nodes who ≡ true }
    ensures { (e : AnyNode) → node_at (elements past.now.document.nodes) who ≡ Some e → result
        ≡ (not (is_deferred (history_of past.now) who)
        && is_frozen_by (view_facts (history_of past.now) (pos 0) None
        (lives_under (time_parent past.now.document.nodes who) past.now.diary || above) above e)) }
{
    let parent = parent_of(past, who);
    let played = played_of(past, who);
    if played.shown_deferred.is_some() {
        return false;
    }
    let last = played.last_finished;
    let kept = last.is_some() && is_kept(past, who);
    freezes(last, kept, shows(past, parent, above), above)
}

// Whether an element is frozen after its last finished interval, by whether its fill keeps it, and
// whether its time parent shows and is frozen.
fn freezes(last: Option<PastInterval>, kept: bool, shows: bool, above: bool) -> bool
    ensures { result ≡ (is_some last && ((kept && shows) || (is_cut last && above))) }
{
    match last {
        Some(last) => (kept && shows) || (last.was_cut && above),
        None => false,
    }
}

// Whether a time parent is active or frozen, or there is none.
fn shows(past: &Past, parent: Option<u32>, frozen: bool) -> bool
    ensures { (node : Option AnyNode) → serial_of node ≡ parent
        → result ≡ (lives_under node past.now.diary || frozen) }
{
    is_alive(past, parent) || frozen
}

// Whether the fill of an element keeps it while its time parent shows.
fn is_kept(past: &Past, who: u32) -> bool
    requires { has_element past.now.document.nodes who ≡ true }
    ensures { (e : AnyNode) → node_at (elements past.now.document.nodes) who ≡ Some e → result
        ≡ keeps (effective_fill past.now.document.nodes e)
        (is_displaced (history_of past.now) who) }
{
    match fill_of(past, who) {
        Fill::Hold => true,
        Fill::Freeze => !is_displaced(past, who),
        _ => false,
    }
}

// The fill of an element that holds: never `auto`.
fn fill_of(past: &Past, who: u32) -> Fill
    requires { has_element past.now.document.nodes who ≡ true }
    ensures { (e : AnyNode) → node_at (elements past.now.document.nodes) who ≡ Some e → result
        ≡ effective_fill past.now.document.nodes e }
{
    past.makeup(who).fill
}
