//! Laws of what entries, a longer log, and the passing of time leave as it was. A function here has
//! no code: its contract is the law.

ghost use Rattle.smil_laws.specs.Same.{LogMayBeLonger, TimePassesQuietly};
ghost use Rattle.smil_laws.specs.Touched.{LeavesUntouched, ReachesHold};
ghost use Rattle.smil_laws.specs.Seen.{LeavesViews};

/// Where no entry is later than a moment, the same is current, comes and is shown any number of
/// milliseconds later.
pub fn time_passes_quietly()
    ensures { TimePassesQuietly }
{}

/// Log entries that the diary does not name change nothing.
pub fn log_may_be_longer()
    ensures { LogMayBeLonger }
{}

/// Entries leave the interval, and what comes, of each element that they do not touch, given the
/// same intervals of the others.
pub fn untouched_elements_stay()
    ensures { LeavesUntouched }
{}

/// What entries touch is in their reaches, and so is what reads an element that is.
pub fn reaches_hold()
    ensures { ReachesHold }
{}

/// Entries leave the view of each element in which none of them shows and whose current interval
/// stays.
pub fn other_views_stay()
    ensures { LeavesViews }
{}
