//! The law of what items wait for. The function here has no code: its contract is the law.

ghost use Rattle.smil_past.specs.Syncs.{SyncsTellExpected};

/// The expected times of an element are those of what its items wait for.
pub fn syncs_tell_expected()
    ensures { SyncsTellExpected }
{}
