//! An audit: a document and its diary are read, and the verdict on the diary is told.

ghost use Rattle.std.specs.Prelude.{◌≡◌, ◌≢◌, ◌≤◌, ℕ, Bool, List, length, option_map, true, false, not, ◌||◌, is_ok, is_some, Result, Ok, Err, IfOk, IfErr, IfSome, OnOk};
ghost use Rattle.smil_model.specs.declared.limits.TheConstants.{LINE_BYTES};
ghost use Rattle.smil_model.specs.document.Values.{is_clock};
ghost use Rattle.smil_model.specs.shown.Answers.{IsRefusedBy};
ghost use Rattle.smil_grammar.specs.Outlines.{header_of, no_lines};
ghost use Rattle.smil_outside.specs.Faults.{HasRisen};
ghost use Rattle.smil_outside.specs.ReaderState.{fresh_reading};
ghost use Rattle.smil_script.specs.Copies.{IsForCopy};
ghost use Rattle.smil_top.specs.Auditing.{IsRecorded, IsSound, ReadsAs, Tells, TellsOf, audit_line, diary_line as diary_line_of, line_takes, memory_line, outline_line as outline_line_of, read_on, reading_takes, recorded, said_line, said_takes, told_by, unfinished as unfinished_after, unrecorded, verdict_on, with_entry};
ghost use Rattle.smil_top.specs.Running.{IsLine};
ghost use Rattle.smil_top.specs.Serving.{Audited, IsWholeInput, StopsAudit};

use super::fault::Fault;
use super::last_line::LastLine;
use super::status::Status;
use smil_attrs::read_header;
use smil_audit::check;
use smil_interval::Steps;
use smil_model::{DIARY_ENTRIES, Diary, Doc, Entry, Log, LogEntry, Refusal, Step};
use smil_outline::Builder;
use smil_outside::{Line, LineReader, Source};
use smil_script::{DiaryLine, ends_load, is_blank, read_diary_line};
use std::alloc::{AllocError, Global};
use std::sync::ledger::Ledger;

/// The one line that an audit writes, and how it ends.
#[derive(Drop)]
pub(crate) struct Told {
    pub line: LastLine,
    pub status: Status,
}

/// What was read of an audit's input: its outline, or the document that stood before `%%` with what
/// was read of its diary.
#[derive(Drop)]
pub(crate) enum AuditInput {
    Outline(Builder),
    Diary(RecordedDiary),
}

/// A document with a log and a diary as they are given, and its last moment once that was read, in
/// milliseconds of document time.
#[derive(Drop)]
pub(crate) struct RecordedDiary {
    pub doc: Doc,
    pub log: Log,
    pub entries: Diary,
    pub last: Option<i64>,
}

/// An input that was read to its end: what it says or its first fault, and how many lines it has.
#[derive(Drop)]
pub(crate) struct WholeInput {
    pub said: Result<AuditInput, Fault>,
    pub lines: u32,
}

/// A reader of lines, and an audit's input before its first one.
#[derive(Drop)]
struct AuditOpening {
    reader: LineReader,
    input: AuditInput,
}

/// What an audit tells of its input, which is read to its end, also past its first fault.
///
/// The input is an outline of version 2, `%%`, the entries of a diary as the order `diary` writes
/// them, and `now` with the last moment, in milliseconds of document time; empty lines and those
/// that begin with `#` are passed over. What is told is `yes` and how many entries there are, with
/// `Clean`, exactly where the diary is the one that the document, the log that its entries name and
/// the last moment are resolved to; else `no` and the first place, from 1, that is wrong, with
/// `Refused`.
///
/// The first faulty line is told in its place, with `Refused`: `LongLine` above 16,384 bytes,
/// before all else; `BadOutline` where the first line is no header of version 2, and what a load is
/// refused for in the outline; `NotACommand` where a line of the diary has no reading, or stands
/// behind the last moment; `DiaryFull` at the entry behind 1,000,000; `UnfinishedLoad` at the last
/// line where the input ends without a last moment, at line 1 where there is no line. Where memory
/// runs out, `Memory` is told at line 1, with `Memory`; none is taken before the header, for a line
/// that is too long, or behind the last moment but for the verdict.
///
/// `Err` with the status where nothing is to be written: `ReadFault` where a read failed,
/// `InputTooLong` where the input is longer than `INPUT_BYTES`, and `Memory` where there was none
/// to begin with, before anything was read.
pub(crate) fn told_of<S: Source, L: Ledger>(
    alloc: Global,
    source: &mut S,
    steps: &mut Steps<L>,
) -> Result<Told, Status>
    ensures told { IfOk result (λ told. Audited told (S.rest source.old) (S.rest source.new)) }
    ensures stopped { IfErr result (λ status. StopsAudit status (S.rest source.old)
        (S.rest source.new)) }
    ensures read_kept { result ≢ Err Status.ReadFault → S.faults source.new ≡ S.faults source.old }
    ensures read_cause { result ≡ Err Status.ReadFault
        → HasRisen (S.faults source.old) (S.faults source.new) }
    ensures sure { S.never_fails source.old → result ≢ Err Status.ReadFault }
    ensures counted { steps.old ≤ steps.new }
{
    let Ok(opening) = AuditOpening::new(alloc) else {
        return Err(Status::Memory);
    };
    let whole = opening.read_all(alloc, source)?;
    Ok(whole.told(alloc, steps))
}

impl AuditOpening {
    // An input before its first line, unless memory runs out.
    fn new(alloc: Global) -> Result<AuditOpening, AllocError>
        ensures reader { IfOk result (λ opening. opening.reader ≡ fresh_reading) }
        ensures input { IfOk result (λ opening. opening.input ≡ AuditInput.Outline no_lines) }
    {
        Ok(AuditOpening {
            reader: LineReader::new(alloc)?,
            input: AuditInput::Outline(Builder::new(alloc)?),
        })
    }

    // Reads to the end of the input, also past its first fault.
    fn read_all<S: Source>(self, alloc: Global, source: &mut S) -> Result<WholeInput, Status>
        requires fresh { self.reader ≡ fresh_reading }
        requires unread { self.input ≡ AuditInput.Outline no_lines }
        ensures whole { IfOk result (λ whole. IsWholeInput whole (S.rest source.old)
            (S.rest source.new)) }
        ensures stopped { IfErr result (λ status. StopsAudit status (S.rest source.old)
            (S.rest source.new)) }
        ensures sound { IfOk result (λ whole. IfOk whole.said IsSound) }
        ensures read_kept { result ≢ Err Status.ReadFault
            → S.faults source.new ≡ S.faults source.old }
        ensures read_cause { result ≡ Err Status.ReadFault
            → HasRisen (S.faults source.old) (S.faults source.new) }
        ensures sure { S.never_fails source.old → result ≢ Err Status.ReadFault }
    {
        let AuditOpening { mut reader, input } = self;
        let mut said = Ok(input);
        'lines: loop {
            let text = match reader.next(source) {
                Line::Bytes => Some(reader.bytes()),
                Line::LongLine => None,
                Line::End => {
                    let lines = reader.number();
                    return Ok(WholeInput { said, lines });
                }
                Line::InputTooLong => return Err(Status::InputTooLong),
                Line::ReadFault => return Err(Status::ReadFault),
            };
            said = with_line(alloc, said, reader.number(), text);
        }
    }
}

// What was read with one more line, or one that is too long; past a fault it stays. The fault
// stands at the line's number, or at line 1 where memory ran out.
fn with_line(
    alloc: Global,
    said: Result<AuditInput, Fault>,
    number: u32,
    text: Option<&[u8]>,
) -> Result<AuditInput, Fault>
    requires short { IfSome text (λ t. length t.now ≤ LINE_BYTES) }
    requires sound { IfOk said IsSound }
    ensures read { (line : List ℕ) (reading : Result AuditInput Fault) (takes : Bool)
        → IsLine (option_map (λ t. t.now) text.entry) line → ReadsAs takes said reading
        → ReadsAs (takes || reading_takes reading line) result (read_on number line reading) }
    ensures sound { IfOk result IsSound }
{
    match said?.with_line(alloc, text) {
        Ok(more) => Ok(more),
        Err(Refusal::Memory) => Err(Fault {
            line: 1,
            refusal: Refusal::Memory,
        }),
        Err(refusal) => Err(Fault {
            line: number,
            refusal,
        }),
    }
}

impl AuditInput {
    // With one more line, or one that is too long.
    fn with_line(self, alloc: Global, text: Option<&[u8]>) -> Result<AuditInput, Refusal>
        requires short { IfSome text (λ t. length t.now ≤ LINE_BYTES) }
        requires sound { IsSound self }
        ensures read { (line : List ℕ) → IsLine (option_map (λ t. t.now) text.entry) line
            → IfOk result (λ more. audit_line self line ≡ Ok more) }
        ensures refusal { (line : List ℕ) → IsLine (option_map (λ t. t.now) text.entry) line
            → IfErr result (IsRefusedBy (audit_line self line)) }
        ensures copied { (line : List ℕ) → IsLine (option_map (λ t. t.now) text.entry) line
            → IsForCopy (line_takes self line) result }
        ensures sound { IfOk result IsSound }
    {
        match text {
            None => Err(Refusal::LongLine),
            Some(line) if is_blank(line) => Ok(self),
            Some(line) => self.with_said(alloc, line),
        }
    }

    // With a line that says something.
    fn with_said(self, alloc: Global, line: &[u8]) -> Result<AuditInput, Refusal>
        requires short { length line.now ≤ LINE_BYTES }
        requires sound { IsSound self }
        ensures read { IfOk result (λ more. said_line self line.now ≡ Ok more) }
        ensures refusal { IfErr result (IsRefusedBy (said_line self line.now)) }
        ensures copied { IsForCopy (said_takes self line.now) result }
        ensures sound { IfOk result IsSound }
    {
        match self {
            AuditInput::Outline(outline) => outline_line(alloc, outline, line),
            AuditInput::Diary(diary) => diary.with_line(alloc, line),
        }
    }
}

// A line of the outline: its header first, then node lines up to `%%`.
fn outline_line(alloc: Global, mut outline: Builder, line: &[u8]) -> Result<AuditInput, Refusal>
    requires short { length line.now ≤ LINE_BYTES }
    ensures read { IfOk result (λ more. outline_line_of outline line.now ≡ Ok more) }
    ensures refusal { IfErr result (IsRefusedBy (outline_line_of outline line.now)) }
    ensures copied { IsForCopy (is_some outline.next || is_some (header_of line.now)) result }
    ensures sound { IfOk result IsSound }
{
    let headed = outline.version() == 2;
    if headed && ends_load(line) {
        return Ok(AuditInput::Diary(RecordedDiary::of(alloc, outline.finish()?)));
    }
    if !headed && read_header(line).is_none() {
        return Err(Refusal::BadOutline);
    }
    outline.push(line)?;
    Ok(AuditInput::Outline(outline))
}

impl RecordedDiary {
    // Behind the outline of a document, before the first line of its diary.
    fn of(alloc: Global, doc: Doc) -> RecordedDiary
        ensures { result ≡ unrecorded doc }
    {
        RecordedDiary {
            doc,
            log: Log::new(alloc),
            entries: Diary::new(alloc),
            last: None,
        }
    }

    // With one more line.
    fn with_line(mut self, alloc: Global, line: &[u8]) -> Result<AuditInput, Refusal>
        requires sound { IsRecorded self }
        ensures read { IfOk result (λ more. said_line (AuditInput.Diary self) line.now ≡ Ok more) }
        ensures refusal { IfErr result
            (IsRefusedBy (said_line (AuditInput.Diary self) line.now)) }
        ensures copied { IsForCopy (not (is_some self.last)) result }
        ensures sound { IfOk result IsSound }
    {
        self.push(alloc, line)?;
        Ok(AuditInput::Diary(self))
    }

    // One more line; nothing stands behind the last moment.
    fn push(&mut self, alloc: Global, line: &[u8]) -> Result<(), Refusal>
        requires sound { IsRecorded self.old }
        ensures ok { OnOk result (diary_line_of self.old self.old.last line.now ≡ Ok self.new) }
        ensures refusal { IfErr result
            (IsRefusedBy (diary_line_of self.old self.old.last line.now)) }
        ensures copied { IsForCopy (not (is_some self.old.last)) result }
        ensures sound { OnOk result (IsRecorded self.new) }
    {
        if self.last.is_some() {
            return Err(Refusal::NotACommand);
        }
        match read_diary_line(alloc, line)? {
            DiaryLine::Now { moment } => {
                self.last = Some(moment);
                Ok(())
            }
            DiaryLine::Happened { entry } => self.note(entry),
            DiaryLine::Heard { entry } => self.hear(entry),
        }
    }

    // Appends an entry, where there is room.
    fn note(&mut self, entry: Entry) -> Result<(), Refusal>
        requires sound { IsRecorded self.old }
        ensures ok { OnOk result (with_entry self.old self.old.log entry ≡ Ok self.new) }
        ensures refusal { IfErr result (IsRefusedBy (with_entry self.old self.old.log entry)) }
        ensures sound { OnOk result (IsRecorded self.new) }
    {
        if self.entries.len() < DIARY_ENTRIES {
            Ok(self.entries.push(entry)?)
        } else {
            Err(Refusal::DiaryFull)
        }
    }

    // Appends what came from outside to the log, and an entry that names its place.
    fn hear(&mut self, entry: LogEntry) -> Result<(), Refusal>
        requires sound { IsRecorded self.old }
        ensures ok { OnOk result (recorded self.old (DiaryLine.Heard entry) ≡ Ok self.new) }
        ensures refusal { IfErr result (IsRefusedBy (recorded self.old (DiaryLine.Heard entry))) }
        ensures sound { OnOk result (IsRecorded self.new) }
    {
        let place = self.log.len() as u32;
        self.note(Entry {
            moment: entry.moment,
            step: Step::Logged { place },
        })?;
        Ok(self.log.push(entry)?)
    }

    // The verdict on the diary up to its last moment.
    fn verdict<L: Ledger>(&self, alloc: Global, now: i64, steps: &mut Steps<L>) -> Told
        requires sound { IsRecorded self.now }
        requires clock { is_clock now ≡ true }
        ensures told { TellsOf true result (Ok (verdict_on self.now now)) }
        ensures counted { steps.old ≤ steps.new }
    {
        match check(alloc, &self.doc, &self.log, &self.entries, now, steps) {
            Ok(None) => Told {
                line: LastLine::counted(b"yes", self.entries.len()),
                status: Status::Clean,
            },
            Ok(Some(place)) => Told {
                line: LastLine::counted(b"no", place),
                status: Status::Refused,
            },
            Err(_) => Told::out_of_memory(),
        }
    }
}

impl WholeInput {
    // What is told of it.
    fn told<L: Ledger>(&self, alloc: Global, steps: &mut Steps<L>) -> Told
        requires sound { IfOk self.now.said IsSound }
        ensures told { (reading : Result AuditInput Fault) (takes : Bool)
            → ReadsAs takes self.now.said reading
            → TellsOf (takes || is_ok (told_by self.now.lines reading)) result
            (told_by self.now.lines reading) }
        ensures counted { steps.old ≤ steps.new }
    {
        match &self.said {
            Ok(AuditInput::Diary(diary)) => match diary.last {
                Some(now) => diary.verdict(alloc, now, steps),
                None => self.unfinished(),
            },
            Ok(AuditInput::Outline(_)) => self.unfinished(),
            Err(fault) => Told::refused(fault),
        }
    }

    // What is told where there is no last moment.
    fn unfinished(&self) -> Told
        ensures { TellsOf false result (Err (unfinished_after self.now.lines)) }
    {
        Told::refused(&Fault {
            line: self.lines.max(1),
            refusal: Refusal::UnfinishedLoad,
        })
    }
}

impl Told {
    // The first fault of an input, or that memory ran out.
    fn refused(fault: &Fault) -> Told
        ensures fault { fault.now.refusal ≢ Refusal.Memory → TellsOf false result (Err fault.now) }
        ensures memory { fault.now.refusal ≡ Refusal.Memory
            → Tells result memory_line Status.Memory }
    {
        match fault.refusal {
            Refusal::Memory => Told::out_of_memory(),
            _ => Told {
                line: LastLine::refused(fault.line, &fault.refusal),
                status: Status::Refused,
            },
        }
    }

    // Memory ran out.
    fn out_of_memory() -> Told
        ensures { Tells result memory_line Status.Memory }
    {
        Told {
            line: LastLine::refused(1, &Refusal::Memory),
            status: Status::Memory,
        }
    }
}
