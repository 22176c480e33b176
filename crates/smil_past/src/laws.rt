//! The law of where elements stand. The function here has no code: its contract is the law.

ghost use Rattle.smil_past.specs.Makeups.{MakeupsTellPlaces};

/// The makeup of an element leads to it among the nodes, and to its time parent among the elements.
pub fn makeups_tell_places()
    ensures { MakeupsTellPlaces }
{}
