//! Laws of moves and of records. A function here has no code: its contract is the law.

ghost use Rattle.smil_live.specs.Recorded.{RecordsAreLines};
ghost use Rattle.smil_live.specs.Sought.{SeekBackKeepsDiary};

/// The diary of a presentation behind a backward seek is the old one up to the target.
pub fn seek_back_keeps_diary()
    ensures { SeekBackKeepsDiary }
{}

/// The lines of the records of an order that may change something, or of a load, one behind another,
/// are the text of its answer.
pub fn records_are_lines()
    ensures { RecordsAreLines }
{}
