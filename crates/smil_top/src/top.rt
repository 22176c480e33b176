//! The top call.

ghost use Rattle.std.specs.Prelude.{◌≡◌, ◌≢◌, ◌≤◌, ◌-◌, ℕ, List, Some, false};
ghost use Rattle.std.specs.Io.KnownBytes.{Appends};
ghost use Rattle.smil_outside.specs.Faults.{HasRisen};
ghost use Rattle.smil_words.specs.Words.{mode_of};
ghost use Rattle.smil_top.specs.Evaluations.{Evaluates};
ghost use Rattle.smil_top.specs.Running.{asked_by};
ghost use Rattle.smil_top.specs.Serving.{Explains, Generates, Serves, reads};

use super::audit::told_of;
use super::counts::Counts;
use super::generated::summary_of;
use super::reading::Opening;
use super::status::Status;
use smil_interval::Steps;
use smil_model::WordList;
use smil_outside::{Sink, Source, write_out};
use smil_words::{Mode, read_words};
use std::alloc::Global;
use std::sync::ledger::Ledger;

// What faulty words are answered.
const USAGE: &[u8] = b"usage: smilplay run | smilplay check | smilplay gen N | smilplay audit\n";

// What a session begins with: where it takes memory, and whether its loads are only read.
#[derive(Drop)]
struct Setup {
    alloc: Global,
    checks: bool,
}

/// Does what the words ask for.
///
/// `run` reads a session's lines to the end of the input, and writes its transcript: the answer to
/// each order is made whole and then written. `check` does the same with loads that are only read:
/// each is answered by its canonical outline, in the version in which it came; other lines are
/// answered only where they are refused, and a value is preferred as in `run`. `gen N` reads
/// nothing, answers the session that the number makes, and writes how many orders it has, how many
/// were refused, how many lines the transcript has, and the moment at its end. `audit` reads a
/// document with its diary and its last moment to the end of the input, and writes one line: `yes`
/// and how many entries there are where the diary is the one that the document and its log are
/// resolved to by then, `no` and the first place that is wrong, or the first fault. Any other words
/// write the usage line and answer `Words`.
///
/// The answer is `Clean`, or `Refused` where an order was refused, or `Memory` where one was
/// refused since memory ran out. Where a read fails or the input is longer than `INPUT_BYTES`, the
/// orders that were whole before it were answered; where a write fails, a part of the transcript
/// was written. `Memory` also comes where there is none to begin with, and then nothing was read
/// and nothing written; and with `gen N` wherever memory runs out, and then nothing was written.
/// With `audit` it is `Clean` exactly with `yes`, `Refused` with `no` or a fault, and `Memory`
/// where memory ran out that was taken, which is written at line 1; where a read fails or the input
/// is too long nothing is written.
///
/// Where `run` answers `Clean` or `Refused` and no order was refused as `DiaryFull`, the count of
/// evaluations rises by at least the sum of the least numbers of the orders, and by at most the sum
/// of their greatest, each by the state in which the order is answered; a refused order, a close, a
/// preference and a blank line have 0.
pub fn serve<S: Source, K: Sink, L: Ledger>(
    alloc: Global,
    words: &WordList,
    source: &mut S,
    sink: &mut K,
    steps: &mut Steps<L>,
) -> Status
    // What was read and written, by the words and the status.
    ensures serves { Serves (mode_of words.now) result (S.rest source.old) (S.rest source.new)
        (K.taken sink.old) (K.taken sink.new) (K.sure_room sink.old) }

    // Only `run`, `check` and `audit` read.
    ensures unread { reads (mode_of words.now) ≡ false → source.new ≡ source.old }

    // A fault of the source or the sink ends the call so, and nothing else does; a count that
    // stands at the largest `u64` can't rise.
    ensures read_kept { result ≢ Status.ReadFault → S.faults source.new ≡ S.faults source.old }
    ensures read_cause { result ≡ Status.ReadFault
        → HasRisen (S.faults source.old) (S.faults source.new) }
    ensures write_kept { result ≢ Status.WriteFault → K.faults sink.new ≡ K.faults sink.old }
    ensures write_cause { result ≡ Status.WriteFault
        → HasRisen (K.faults sink.old) (K.faults sink.new) }
    ensures sure { S.never_fails source.old → result ≢ Status.ReadFault }

    // How often intervals were evaluated.
    ensures counted { steps.old ≤ steps.new }
    ensures evaluated { Evaluates (mode_of words.now) result (S.rest source.old) (S.rest source.new)
        (K.taken sink.old) (K.taken sink.new) (K.sure_room sink.old) (steps.new - steps.old) }
{
    match read_words(words) {
        Ok(Mode::Run) => {
            let checks = false;
            session(Setup { alloc, checks }, source, sink, steps)
        }
        Ok(Mode::Check) => {
            let checks = true;
            session(Setup { alloc, checks }, source, sink, steps)
        }
        Ok(Mode::Gen(number)) => generated(alloc, number, sink, steps),
        Ok(Mode::Audit) => audited(alloc, source, sink, steps),
        Err(_) => explain(sink),
    }
}

// Writes the usage line.
fn explain<K: Sink>(sink: &mut K) -> Status
    ensures explains { (text : List ℕ) × Appends (K.taken sink.old) (K.taken sink.new) text
        × Explains result text (K.sure_room sink.old) }
    ensures kept { result ≢ Status.WriteFault → K.faults sink.new ≡ K.faults sink.old }
    ensures cause { result ≡ Status.WriteFault → HasRisen (K.faults sink.old) (K.faults sink.new) }
    ensures written { result ≢ Status.ReadFault }
{
    match write_out(sink, USAGE) {
        Ok(()) => Status::Words,
        Err(_) => Status::WriteFault,
    }
}

// Reads a diary with its document and its last moment, and writes the first fault or the verdict.
fn audited<S: Source, K: Sink, L: Ledger>(
    alloc: Global,
    source: &mut S,
    sink: &mut K,
    steps: &mut Steps<L>,
) -> Status
    ensures serves { Serves (Some Mode.Audit) result (S.rest source.old) (S.rest source.new)
        (K.taken sink.old) (K.taken sink.new) (K.sure_room sink.old) }
    ensures read_kept { result ≢ Status.ReadFault → S.faults source.new ≡ S.faults source.old }
    ensures read_cause { result ≡ Status.ReadFault
        → HasRisen (S.faults source.old) (S.faults source.new) }
    ensures write_kept { result ≢ Status.WriteFault → K.faults sink.new ≡ K.faults sink.old }
    ensures write_cause { result ≡ Status.WriteFault
        → HasRisen (K.faults sink.old) (K.faults sink.new) }
    ensures sure { S.never_fails source.old → result ≢ Status.ReadFault }
    ensures counted { steps.old ≤ steps.new }
{
    let told = match told_of(alloc, source, steps) {
        Ok(told) => told,
        Err(status) => return status,
    };
    match write_out(sink, told.line.slice()) {
        Ok(()) => told.status,
        Err(_) => Status::WriteFault,
    }
}

// Reads a session, whose loads are only read or are opened too, and answers it.
fn session<S: Source, K: Sink, L: Ledger>(
    setup: Setup,
    source: &mut S,
    sink: &mut K,
    steps: &mut Steps<L>,
) -> Status
    ensures serves { Serves (Some (asked_by setup.checks)) result (S.rest source.old)
        (S.rest source.new)
        (K.taken sink.old) (K.taken sink.new) (K.sure_room sink.old) }
    ensures read_kept { result ≢ Status.ReadFault → S.faults source.new ≡ S.faults source.old }
    ensures read_cause { result ≡ Status.ReadFault
        → HasRisen (S.faults source.old) (S.faults source.new) }
    ensures write_kept { result ≢ Status.WriteFault → K.faults sink.new ≡ K.faults sink.old }
    ensures write_cause { result ≡ Status.WriteFault
        → HasRisen (K.faults sink.old) (K.faults sink.new) }
    ensures sure { S.never_fails source.old → result ≢ Status.ReadFault }
    ensures counted { steps.old ≤ steps.new }
    ensures evaluated { Evaluates (Some (asked_by setup.checks)) result (S.rest source.old)
        (S.rest source.new)
        (K.taken sink.old) (K.taken sink.new) (K.sure_room sink.old) (steps.new - steps.old) }
{
    match Opening::new(setup.alloc, setup.checks, Counts::without_lines()) {
        Ok(mut opening) => {
            let reader = opening.reader;
            opening.run.answer_all(reader, source, sink, steps)
        }
        Err(_) => Status::Memory,
    }
}

// Answers the session of a number, and writes what is told of it.
fn generated<K: Sink, L: Ledger>(
    alloc: Global,
    number: u32,
    sink: &mut K,
    steps: &mut Steps<L>,
) -> Status
    ensures generates { (text : List ℕ) × Appends (K.taken sink.old) (K.taken sink.new) text
        × Generates number result text (K.sure_room sink.old) }
    ensures kept { result ≢ Status.WriteFault → K.faults sink.new ≡ K.faults sink.old }
    ensures cause { result ≡ Status.WriteFault → HasRisen (K.faults sink.old) (K.faults sink.new) }
    ensures written { result ≢ Status.ReadFault }
    ensures counted { steps.old ≤ steps.new }
{
    let Ok(summary) = summary_of(alloc, number, steps) else {
        return Status::Memory;
    };
    match write_out(sink, summary.text.slice()) {
        Ok(()) => summary.status,
        Err(_) => Status::WriteFault,
    }
}
