//! Which element a step of a diary is on, and which access key it hears.

ghost use Rattle.std.specs.Prelude.{◌≡◌};
ghost use Rattle.smil_model.specs.reach.Reach.{key_of, pressed as pressed_in, subject as subject_in, subject_of};

use smil_model::{Happening, Log, Step};

/// The element that a step is on; None where it hears a press of a key, or a log entry that there
/// is not. It takes no memory.
pub fn subject(log: &Log, step: Step) -> Option<u32>
    ensures { result ≡ subject_of log.now step }
{
    match step {
        Step::Began { who, .. }
        | Step::Repeated { who, .. }
        | Step::Ended { who, .. }
        | Step::Cut { who }
        | Step::Paused { who }
        | Step::Resumed { who }
        | Step::Deferred { who, .. }
        | Step::Passed { who, .. } => Some(who),
        Step::Logged { place } => happened_to(&log.get(place as usize)?.what),
    }
}

// Whom a logged event or length is on; a press of a key is on none.
fn happened_to(what: &Happening) -> Option<u32>
    ensures { result ≡ subject_in what.now }
{
    match what {
        Happening::Event { who, .. } | Happening::Media { who, .. } => Some(*who),
        Happening::Key { .. } => None,
    }
}

/// The access key whose press a step hears, if it hears one. It takes no memory.
pub fn key(log: &Log, step: Step) -> Option<u8>
    ensures { result ≡ key_of log.now step }
{
    match step {
        Step::Logged { place } => pressed(&log.get(place as usize)?.what),
        _ => None,
    }
}

// The key of a logged press.
fn pressed(what: &Happening) -> Option<u8>
    ensures { result ≡ pressed_in what.now }
{
    match what {
        Happening::Key { key } => Some(*key),
        _ => None,
    }
}
