//! A session that a host holds, and to which it gives one line after another.

ghost use Rattle.std.specs.Prelude.{◌≡◌, ℕ, List, false, ◌≤◌, ◌++◌, [], length, option_and_then, option_map, pos, is_some, None, Some, IfOk, IfSome, OnErr, OnOk};
ghost use Rattle.smil_model.specs.shown.Orders.{Presentation};
ghost use Rattle.smil_model.specs.shown.Answers.{IsGiven};
ghost use Rattle.smil_house.specs.Next.{NothingChangesBefore, next_of};
ghost use Rattle.smil_house.specs.Screen.{serial_in};
ghost use Rattle.smil_report.specs.Tellings.{is_telling};
ghost use Rattle.smil_top.specs.Answers.{close_answer};
ghost use Rattle.smil_top.specs.GivenLoads.{IsLikeLoad, LoadsInto, load_behind, with_load};
ghost use Rattle.smil_top.specs.Cut.{CutLines, cut_of, with_line};
ghost use Rattle.smil_top.specs.Held.{HasTaken, IsHeld, answer_of, counts_of, last_number};
ghost use Rattle.smil_top.specs.Recorded.{CarriesOut, ClosesIn, HasPresentations, IsLikeLine, Says, SaysClose, SaysWhetherTaken, StandsAt, WhereTaken, element_at};
ghost use Rattle.smil_top.specs.Running.{EvaluatesOn, IsLine};
ghost use Rattle.smil_top.specs.Session.{Session, presentation_of};
ghost use Rattle.smil_top.specs.Transcript.{TranscriptState, untold};

use super::counts::Counts;
use super::fault::Fault;
use super::load::Load;
use super::nowhere::Nowhere;
use super::recorded::NumberedOrder;
use super::run::{NumberedLine, Run};
use smil_house::OnScreen;
use smil_interval::Steps;
use smil_model::{Order, Refusal, Who};
use smil_outside::LINE_BYTES;
use smil_report::{Change, Changes};
use std::alloc::{AllocError, Global};
use std::sync::ledger::Ledger;

/// A session that is given its lines and orders from outside. It keeps the answer to the last line,
/// and the records of what the last call changed.
///
/// It answers its lines as `serve` answers those of an input, by `run`. An order that is given by a
/// call counts as a line that says it.
#[derive(Drop)]
pub struct Held {
    run: Run,
    number: u32,
    changes: Changes,
    fault: Option<Fault>,
}

/// There were as many lines as can be numbered, `u32::MAX`.
#[derive(Clone, Copy, Drop)]
pub struct TooManyLines;

/// Why an order that was given by a call changed nothing.
#[derive(Clone, Copy, Drop)]
pub enum CallRefusal {
    /// It is refused as a line that says it is.
    Refused(Refusal),
    /// A load that was begun by a line hasn't ended.
    OpenLoad,
    /// There were as many lines and orders as can be numbered, `u32::MAX`.
    TooManyCalls,
}

impl Held {
    /// A session before its first line; unless memory runs out.
    pub fn new(alloc: Global) -> Result<Held, AllocError>
        ensures held { IfOk result (λ held. IsHeld held (cut_of []) untold) }
        ensures answer { IfOk result (λ held. answer_of held ≡ []) }
        ensures changes { IfOk result (λ held. held.changes ≡ []) }
        ensures fault { IfOk result (λ held. held.fault ≡ None) }
    {
        Ok(Held {
            run: Run::new(alloc, false, Counts::without_lines())?,
            number: 0,
            changes: Changes::new(alloc),
            fault: None,
        })
    }

    /// Takes in the next line, without its line feed, and keeps its answer. That is empty where no
    /// order is whole with the line: it is blank, or in a load that goes on. Any bytes may stand in
    /// it. An order for which memory runs out is refused, and leaves all presentations as they
    /// were.
    ///
    /// The error comes only where `u32::MAX` lines were taken in, and then all is as before.
    pub fn line<L: Ledger>(&mut self, text: &[u8], steps: &mut Steps<L>) -> Result<(), TooManyLines>
        // More is told, and it is the answer.
        ensures answers { (cut : CutLines) (told : TranscriptState) → IsHeld self.old cut told
            → OnOk result (HasTaken self.new (with_line cut text.now) told) }

        // A line leaves no records, and no fault of a call.
        ensures changes { OnOk result (self.new.changes ≡ []) }
        ensures fault { OnOk result (self.new.fault ≡ None) }

        // A line too many changes nothing.
        ensures full { (cut : CutLines) (told : TranscriptState) → IsHeld self.old cut told
            → OnErr result (last_number ≤ cut.count) }
        ensures kept { OnErr result (self.new ≡ self.old) }

        // How often intervals were evaluated.
        ensures counted { steps.old ≤ steps.new }
        ensures evaluated { (cut : CutLines) (told : TranscriptState) → IsHeld self.old cut told
            → OnOk result (EvaluatesOn (counts_of self.old) (counts_of self.new) cut.whole
            (with_line cut text.now).whole steps.old steps.new) }
    {
        if self.number == u32::MAX {
            return Err(TooManyLines);
        }
        self.number += 1;
        self.changes.cut_back(0);
        self.fault = None;
        let line = NumberedLine {
            number: self.number,
            text: shown(text),
        };
        let _ = self.run.line(&line, &mut Nowhere, steps);
        Ok(())
    }

    /// Gives an order that may change something to the presentation of this name, in the place of a
    /// line that says it, and keeps the records of what it changes. Gives the moment of the
    /// presentation, in milliseconds of document time, or why nothing changed; where an order is
    /// refused nothing is recorded. The answer to the last line stays.
    ///
    /// The order's moments and lengths are clock values, its event and its key are such as a line
    /// may name, and its columns and the lengths of its texts are below 2^31.
    pub fn change<L: Ledger>(
        &mut self,
        name: &[u8],
        order: &Order,
        steps: &mut Steps<L>,
    ) -> Result<i64, CallRefusal>
        requires given { IsGiven order.now }
        requires changes { is_telling order.now ≡ false }

        // What it makes of the presentations, whatever came before.
        ensures carried { (session : Session) → HasPresentations self.old session
            → CarriesOut result self.old self.new session name.now order.now }

        // The session goes on as by a line.
        ensures like { (cut : CutLines) (told : TranscriptState) (line : List ℕ)
            → IsHeld self.old cut told → Says line name.now order.now
            → IsLikeLine result self.old self.new cut told line }
        ensures answer { answer_of self.new ≡ answer_of self.old }
        ensures fault { StandsAt result self.old self.new }

        // Whether it was taken in.
        ensures taken { SaysWhetherTaken result self.old self.new }

        // How often intervals were evaluated.
        ensures counted { steps.old ≤ steps.new }
        ensures evaluated { (cut : CutLines) (told : TranscriptState) (line : List ℕ)
            → IsHeld self.old cut told → Says line name.now order.now
            → WhereTaken result (EvaluatesOn (counts_of self.old) (counts_of self.new) cut.whole
            (with_line cut line).whole steps.old steps.new) }
    {
        if self.number == u32::MAX {
            return Err(CallRefusal::TooManyCalls);
        }
        if self.is_loading() {
            return Err(CallRefusal::OpenLoad);
        }
        let given = NumberedOrder {
            number: self.number + 1,
            name,
            order,
        };
        self.number = given.number;
        self.changes.cut_back(0);
        match self.run.change(&given, &mut self.changes, steps) {
            Ok(now) => {
                self.fault = None;
                Ok(now)
            }
            Err(refusal) => {
                self.fault = Some(Fault {
                    line: given.number,
                    refusal,
                });
                Err(CallRefusal::Refused(refusal))
            }
        }
    }

    // Whether a load that was begun by a line hasn't ended.
    fn is_loading(&self) -> bool
        ensures { result ≡ is_some self.now.run.load }
    {
        self.run.load.is_some()
    }

    /// Loads a presentation, by the line that opens the load and the outline, in the place of these
    /// lines and a line that ends the load, and keeps the records of what is told of it. A line of
    /// the outline is what stands between its line feeds; none ends the load, so that `%%` is
    /// refused as any word that names no node. The answer to the last line stays.
    ///
    /// The line that opens the load is `load NAME` or `load NAME at INSTANT`; else it is refused as
    /// `NotACommand`. It has at most `LINE_BYTES` bytes. `TooManyCalls` comes where the lines might
    /// be numbered beyond `u32::MAX`.
    pub fn load<L: Ledger>(
        &mut self,
        head: &[u8],
        outline: &[u8],
        steps: &mut Steps<L>,
    ) -> Result<(), CallRefusal>
        requires short { length head.now ≤ LINE_BYTES }

        // What it makes of the presentations, whatever came before.
        ensures loaded { (session : Session) → HasPresentations self.old session
            → LoadsInto result self.old self.new session
            (load_behind self.old.number head.now outline.now) }

        // The session goes on as by the lines.
        ensures like { (cut : CutLines) (told : TranscriptState) → IsHeld self.old cut told
            → IsLikeLoad result self.old self.new cut told head.now outline.now }
        ensures answer { answer_of self.new ≡ answer_of self.old }
        ensures fault { OnOk result (self.new.fault ≡ None) }

        // How often intervals were evaluated.
        ensures counted { steps.old ≤ steps.new }
        ensures evaluated { (cut : CutLines) (told : TranscriptState) → IsHeld self.old cut told
            → WhereTaken result (EvaluatesOn (counts_of self.old) (counts_of self.new) cut.whole
            (with_load cut head.now outline.now).whole steps.old steps.new) }
    {
        let room = (u32::MAX - self.number) as usize;
        if room < 3 || room - 3 < outline.len() {
            return Err(CallRefusal::TooManyCalls);
        }
        if self.is_loading() {
            return Err(CallRefusal::OpenLoad);
        }
        let first = self.number + 1;
        let session = &self.run.session;
        let opened = Load::open(session.alloc, first, head, &session.preferences);
        let (load, last) = opened.read(first, outline);
        self.number = last + 1;
        self.changes.cut_back(0);
        match self
            .run
            .record_load(load, self.number, &mut self.changes, steps)
        {
            Ok(()) => {
                self.fault = None;
                Ok(())
            }
            Err(fault) => {
                self.fault = Some(fault);
                Err(CallRefusal::Refused(fault.refusal))
            }
        }
    }

    /// Closes the presentation of this name, in the place of a line that says it; `NoPresentation`
    /// where there is none. It leaves no records, and the answer to the last line stays.
    pub fn close(&mut self, name: &[u8]) -> Result<(), CallRefusal>
        // What it makes of the presentations, whatever came before.
        ensures closed { (session : Session) (number : ℕ) → HasPresentations self.old session
            → ClosesIn result self.old self.new session (close_answer session number name.now) }

        // The session goes on as by a line.
        ensures like { (cut : CutLines) (told : TranscriptState) (line : List ℕ)
            → IsHeld self.old cut told → SaysClose line name.now
            → IsLikeLine result self.old self.new cut told line }
        ensures answer { answer_of self.new ≡ answer_of self.old }
        ensures fault { StandsAt result self.old self.new }

        // Whether it was taken in.
        ensures taken { SaysWhetherTaken result self.old self.new }

        // No interval was evaluated.
        ensures evaluated { (cut : CutLines) (told : TranscriptState) (line : List ℕ) (steps : ℕ)
            → IsHeld self.old cut told → SaysClose line name.now
            → WhereTaken result (EvaluatesOn (counts_of self.old) (counts_of self.new) cut.whole
            (with_line cut line).whole steps steps) }
    {
        if self.number == u32::MAX {
            return Err(CallRefusal::TooManyCalls);
        }
        if self.is_loading() {
            return Err(CallRefusal::OpenLoad);
        }
        self.number += 1;
        self.changes.cut_back(0);
        match self.run.unload(self.number, name) {
            Ok(()) => {
                self.fault = None;
                Ok(())
            }
            Err(refusal) => {
                self.fault = Some(Fault {
                    line: self.number,
                    refusal,
                });
                Err(CallRefusal::Refused(refusal))
            }
        }
    }

    /// The refusal of the last call, and the number of the line at which it stands, counting as the
    /// session does; None where the call was carried out, and where the last was a line.
    pub fn fault(&self) -> Option<Fault>
        ensures { result ≡ self.now.fault }
    {
        self.fault
    }

    /// The serial of a node of the presentation of this name, by its id or its serial; None where
    /// there is no such node, or no such presentation.
    pub fn find(&self, name: &[u8], who: &Who) -> Option<u32>
        ensures { (session : Session) → HasPresentations self.now session
            → result ≡ option_and_then (serial_in who.now) (presentation_of name.now session) }
    {
        self.run.session.house.find(name, who)
    }

    /// What is on the screen of the element at a place in document order, from 0, of the
    /// presentation of this name; None past the last one, or where there is no such presentation.
    pub fn on_screen(&self, name: &[u8], index: usize) -> Option<OnScreen>
        ensures { (session : Session) → HasPresentations self.now session
            → result ≡ option_and_then (element_at index) (presentation_of name.now session) }
    {
        self.run.session.house.on_screen(name, index)
    }

    /// What the last call changed, in the order of the transcript; nothing where it was a line.
    pub fn changes(&self) -> &[Change]
        ensures { result.now ≡ self.now.changes }
    {
        self.changes.slice()
    }

    /// The answer to the last line, in two pieces; both are empty where it had none.
    pub fn answer(&self) -> (&[u8], &[u8])
        ensures { result.0.now ++ result.1.now ≡ answer_of self.now }
    {
        let answer = &self.run.answer;
        (answer.told.slice(), answer.last.slice())
    }

    /// The moment of the presentation of this name, in milliseconds of document time; None exactly
    /// where there is none.
    pub fn moment(&self, name: &[u8]) -> Option<i64>
        ensures { (cut : CutLines) (told : TranscriptState) → IsHeld self.now cut told
            → result ≡ option_map (λ (p : Presentation). pos p.now)
            (presentation_of name.now told.session) }
    {
        self.run.session.house.moment(name)
    }

    /// The moment at which something comes next in the presentation of this name, in milliseconds
    /// of document time, if no order comes before; None where nothing does, or there is none. An
    /// advance to a moment before it changes nothing.
    pub fn next_due(&self, name: &[u8]) -> Option<i64>
        ensures next { (cut : CutLines) (told : TranscriptState) → IsHeld self.now cut told
            → result ≡ option_and_then next_of (presentation_of name.now told.session) }
        ensures quiet { (cut : CutLines) (told : TranscriptState) → IsHeld self.now cut told
            → IfSome (presentation_of name.now told.session) (NothingChangesBefore result) }
    {
        self.run.session.house.next_due(name)
    }
}

// A line as a reader shows it: none where it is too long.
pub(crate) fn shown(text: &[u8]) -> Option<&[u8]>
    ensures line { IsLine (option_map (λ t. t.now) result) text.now }
    ensures short { IfSome result (λ t. length t.now ≤ LINE_BYTES) }
{
    if text.len() <= LINE_BYTES {
        Some(text)
    } else {
        None
    }
}
