//! Laws from the text that is written to what is accepted. A function here has no code: its
//! contract is the law.

ghost use Rattle.smil_audit_laws.specs.Accepted.{NoOtherDiaryIsAccepted, OnlyOwnDiaryIsAccepted};
ghost use Rattle.smil_audit_laws.specs.Lines.{DiariesArePlain};
ghost use Rattle.smil_audit_laws.specs.Lines.{EntryLinesAreReadAgain, NowLinesAreReadAgain};
ghost use Rattle.smil_audit_laws.specs.Written.{WrittenDiariesAreReadAgain};
ghost use Rattle.smil_audit_laws.specs.Written.{WrittenDiariesAreAccepted, WrittenDiariesAreRight};

/// The line that is written for an entry is read as that entry, and that of one that names a log
/// entry as what came from outside, at the entry's moment. Moments are from 0 to 10^12
/// milliseconds of document time, serials from 1 to 999,999,999, and values have at most 18
/// digits: so it is in the diary of each presentation. The line of the present moment is read as
/// that moment.
pub fn entry_lines_are_read_again()
    ensures entries { EntryLinesAreReadAgain }
    ensures now { NowLinesAreReadAgain }
    ensures plain { DiariesArePlain }
{}

/// What the order `diary` writes before its last line, of a presentation in any state whose diary
/// has no more entries than may be, is read by an audit as the presentation's document, its log,
/// its diary and its moment, and the audit's answer is `yes` and the number of entries, where no
/// line is longer than 16,384 bytes. How long an input may be, faults of reading and writing, and
/// want of memory are matters of `serve`, whose contract names this answer.
pub fn written_diaries_are_accepted()
    ensures again { WrittenDiariesAreReadAgain }
    ensures right { WrittenDiariesAreRight }
    ensures accepted { WrittenDiariesAreAccepted }
{}

/// Where two inputs give one document, one last moment and one list of events, lengths and keys
/// with their moments, and the answer to both is `yes`, they give the same entries. So for the
/// document, the moment and the log of a presentation no list of entries but its own diary is
/// accepted. A list that leaves out an event that nobody hears gives another log, and may be
/// accepted.
pub fn no_other_diary_is_accepted()
    ensures one { NoOtherDiaryIsAccepted }
    ensures own { OnlyOwnDiaryIsAccepted }
{}
