//! What decides the state of an element.

ghost use Rattle.std.specs.Prelude.{◌≡◌};
ghost use Rattle.smil_model.specs.shown.Views.{keeps, is_frozen_by};
ghost use Rattle.smil_fill.specs.Current.{playing_state};

use smil_model::{Fill, State, ViewFacts};

// Whether this fill keeps an element, displaced or not, while its time parent shows.
fn is_kept(fill: Fill, displaced: bool) -> bool
    ensures { result ≡ keeps fill displaced }
{
    match fill {
        Fill::Hold => true,
        Fill::Freeze => !displaced,
        _ => false,
    }
}

/// Whether an element that is neither active nor deferred is shown as it was at its end: by its own
/// fill, or since it was cut and its time parent is frozen.
pub fn is_frozen(facts: &ViewFacts) -> bool
    ensures { result ≡ is_frozen_by facts.now }
{
    facts.last.is_some()
        && ((is_kept(facts.fill, facts.displaced) && facts.parent_shows)
            || (facts.cut && facts.parent_frozen))
}

/// The state of an active element.
#[inline(always)]
pub fn playing_state(paused: bool) -> State
    ensures { result ≡ playing_state paused }
{
    if paused { State::Paused } else { State::Active }
}
