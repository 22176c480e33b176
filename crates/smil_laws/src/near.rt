//! Laws of how large the numbers of a resolved diary are. A function here has no code: its
//! contract is the law.

ghost use Rattle.smil_laws.specs.Near.{ComingIsNear, IntervalsAreNear, ResolvedIsNear};

/// The numbers of a resolved diary are from -10^12 to 10^12.
pub fn resolved_is_near()
    ensures { ResolvedIsNear }
{}

/// So are those of the intervals that such a diary gives.
pub fn intervals_are_near()
    ensures { IntervalsAreNear }
{}

/// So is the number of what comes first.
pub fn coming_is_near()
    ensures { ComingIsNear }
{}
