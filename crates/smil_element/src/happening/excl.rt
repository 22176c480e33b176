//! The excl of an element, and the child that plays in it.

ghost use Rattle.std.specs.Prelude.{◌≡◌, IsSome};
ghost use Rattle.smil_model.specs.document.Document.{node_at, serial_of, time_parent};
ghost use Rattle.smil_model.specs.diary.Diary.{History};
ghost use Rattle.smil_model.specs.reach.Reach.{is_option};
ghost use Rattle.smil_element.specs.Parts.{ArePartsOf, left_excl, rival as rival_in};

use super::parts::Parts;
use smil_past::excl_above;

/// The serial of the excl in which an element plays, whose end moves the queue on.
pub fn left_excl(parts: &Parts<'_>, who: u32) -> Option<u32>
    requires { IsSome (node_at parts.now.tree.now.nodes who) }
    ensures { (h : History) → ArePartsOf parts.now h
        → result ≡ serial_of (left_excl h who (time_parent h.nodes who)) }
{
    let excl = excl_above(parts.tree, who)?;
    if is_it(parts.queues.playing(parts.tree, excl), who) {
        Some(excl)
    } else {
        None
    }
}

/// The serial of the child that plays in the excl of an element.
pub fn rival(parts: &Parts<'_>, who: u32) -> Option<u32>
    requires { IsSome (node_at parts.now.tree.now.nodes who) }
    ensures { (h : History) → ArePartsOf parts.now h
        → result ≡ serial_of (rival_in h (time_parent h.nodes who)) }
{
    let excl = excl_above(parts.tree, who)?;
    parts.queues.playing(parts.tree, excl)
}

// Whether this is the serial that was found.
fn is_it(found: Option<u32>, serial: u32) -> bool
    ensures { result ≡ is_option serial found }
{
    match found {
        Some(other) => serial == other,
        None => false,
    }
}
