//! A worked presentation: what its orders cost. A function here has no code: its contract is what
//! the definitions give.

ghost use Rattle.smil_live.specs.WorkedCounts.{WorkedCounts};

/// A par with two branches: how often a load, an advance, a backward seek and an edit have
/// intervals evaluated.
pub fn worked_counts()
    ensures { WorkedCounts }
{}
