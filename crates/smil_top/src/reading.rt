//! A session that is read to its end.

ghost use Rattle.std.specs.Prelude.{◌≡◌, ◌≢◌, ◌⊎◌, ◌<◌, ◌≤◌, ◌-◌, ℕ, Bool, length, true, false, [], ◌++◌, IfOk, OnOk, OnErr};
ghost use Rattle.smil_outside.specs.Faults.{HasRisen};
ghost use Rattle.smil_outside.specs.ReaderState.{fresh_reading};
ghost use Rattle.smil_top.specs.Cut.{CutLines, cut_of, unended};
ghost use Rattle.smil_top.specs.Transcript.{TranscriptState, untold};
ghost use Rattle.smil_top.specs.Evaluations.{AreEvaluated};
ghost use Rattle.smil_top.specs.Running.{AreCounted, CountsFaults, Ends, HasEvaluated, IsRunning, Ran, RanCounted, text_of};

use super::answer::Answer;
use super::counts::Counts;
use super::run::{NumberedLine, Run};
use super::status::Status;
use smil_interval::Steps;
use smil_outside::{Failed, Line, LineReader, Sink, Source};
use std::alloc::{AllocError, Global};
use std::sync::ledger::Ledger;

// How many bytes are taken once, before the first line, and given back.
const ROOM: usize = 2 * 1024 * 1024;

// Takes memory and gives it back unused. The GNU C library keeps as much as twice what was given
// back at once for what is taken next; else most of what a load took would go back to the system
// at its end, and be taken anew, page by page, by the next load. Where there isn't as much, nothing
// is lost.
fn widen(alloc: Global) {
    let _room: Result<Vec<u8>, AllocError> = Vec::with_capacity(alloc, ROOM);
}

/// A reader of lines, and a session before its first one.
#[derive(Drop)]
pub(crate) struct Opening {
    pub reader: LineReader,
    pub run: Run,
}

impl Opening {
    /// A session before its first line, whose loads are only read or are opened too, and what is
    /// counted of it so far; unless memory runs out.
    pub fn new(alloc: Global, checks: bool, counts: Counts) -> Result<Opening, AllocError>
        requires { AreCounted counts [] untold }
        ensures reader { IfOk result (λ opening. opening.reader ≡ fresh_reading) }
        ensures run { IfOk result (λ opening. IsRunning checks opening.run (cut_of []) untold) }
    {
        widen(alloc);
        Ok(Opening {
            reader: LineReader::new(alloc)?,
            run: Run::new(alloc, checks, counts)?,
        })
    }
}

impl Run {
    /// Reads and answers to the end of the input, or up to a fault. What was answered is handed on
    /// before a line is waited for: where no whole line has come that isn't answered yet.
    pub fn answer_all<S: Source, K: Sink, L: Ledger>(
        &mut self,
        mut reader: LineReader,
        source: &mut S,
        sink: &mut K,
        steps: &mut Steps<L>,
    ) -> Status
        requires fresh { reader ≡ fresh_reading }
        ensures ran { (checks : Bool) → IsRunning checks self.old (cut_of []) untold
            → Ran checks result self.new (S.rest source.old) (S.rest source.new)
            (K.taken sink.old) (K.taken sink.new) (K.sure_room sink.old) }
        ensures read_kept { result ≢ Status.ReadFault → S.faults source.new ≡ S.faults source.old }
        ensures read_cause { result ≡ Status.ReadFault
            → HasRisen (S.faults source.old) (S.faults source.new) }
        ensures write_kept { result ≢ Status.WriteFault → K.faults sink.new ≡ K.faults sink.old }
        ensures write_cause { result ≡ Status.WriteFault
            → HasRisen (K.faults sink.old) (K.faults sink.new) }
        ensures sure { S.never_fails source.old → result ≢ Status.ReadFault }
        ensures counted { steps.old ≤ steps.new }
        ensures evaluated { (checks : Bool) → IsRunning checks self.old (cut_of []) untold
            → RanCounted checks result self.new (S.rest source.old) (S.rest source.new)
            (K.taken sink.old) (K.taken sink.new) (K.sure_room sink.old) (steps.new - steps.old) }
    {
        let mut has_told = false;
        'lines: loop {
            let Ok(()) = hand_on_before(has_told, &reader, sink) else {
                return Status::WriteFault;
            };
            let text = match reader.next(source) {
                Line::Bytes => Some(reader.bytes()),
                Line::LongLine => None,
                Line::End => return end(self, sink),
                Line::InputTooLong => return Status::InputTooLong,
                Line::ReadFault => return Status::ReadFault,
            };
            let number = reader.number();
            let line = NumberedLine { number, text };
            if self.line(&line, sink, steps).is_err() {
                return Status::WriteFault;
            }
            has_told = tells(has_told, &self.answer);
        }
    }
}

// Hands on what was told, if anything was, where no whole line has come that isn't answered.
fn hand_on_before<K: Sink>(has_told: bool, reader: &LineReader, sink: &mut K) -> Result<(), Failed>
    ensures bytes { OnOk result (K.taken sink.new ≡ K.taken sink.old) }
    ensures room { OnOk result (K.sure_room sink.old ≤ K.sure_room sink.new) }
    ensures faults { CountsFaults result (K.faults sink.old) (K.faults sink.new) }
    ensures err { OnErr result ((has_told ≡ true) × (K.keeps_back ≡ true)) }
{
    if has_told && !reader.has_line() {
        sink.hand_on()
    } else {
        Ok(())
    }
}

// Answers a load that hasn't ended, has that handed on, and gives the status.
fn end<K: Sink>(run: &mut Run, sink: &mut K) -> Status
    ensures ends { (checks : Bool) (cut : CutLines) (told : TranscriptState)
        → IsRunning checks run.old cut told
        → Ends checks result run.new cut told (K.taken sink.old) (K.taken sink.new)
        (K.sure_room sink.old) (K.sure_room sink.new) }
    ensures kept { result ≢ Status.WriteFault → K.faults sink.new ≡ K.faults sink.old }
    ensures cause { result ≡ Status.WriteFault → HasRisen (K.faults sink.old) (K.faults sink.new) }
    ensures read { result ≢ Status.ReadFault }
    ensures evaluated { (cut : CutLines) (told : TranscriptState) (start now : ℕ)
        → IsRunning false run.old cut told
        → HasEvaluated run.old.counts cut.whole start now
        → AreEvaluated result (cut.whole ++ unended cut.«open») (now - start) }
{
    match run.end(sink) {
        Ok(()) => match hand_on_text(&run.answer, sink) {
            Ok(()) => run.counts.status(),
            Err(_) => Status::WriteFault,
        },
        Err(_) => Status::WriteFault,
    }
}

// Whether something was told before or is told by an answer.
fn tells(has_told: bool, answer: &Answer) -> bool
    ensures { result ≡ true → (has_told ≡ true) ⊎ (0 < length (text_of answer.now)) }
{
    has_told || answer.has_text()
}

// Hands on an answer, if it has a text.
fn hand_on_text<K: Sink>(answer: &Answer, sink: &mut K) -> Result<(), Failed>
    ensures bytes { OnOk result (K.taken sink.new ≡ K.taken sink.old) }
    ensures room { OnOk result (K.sure_room sink.old ≤ K.sure_room sink.new) }
    ensures faults { CountsFaults result (K.faults sink.old) (K.faults sink.new) }
    ensures err { OnErr result ((0 < length (text_of answer.now)) × (K.keeps_back ≡ true)) }
{
    if answer.has_text() {
        sink.hand_on()
    } else {
        Ok(())
    }
}
