//! A session, line by line.

ghost use Rattle.std.specs.Prelude.{◌≡◌, ◌≤◌, ◌-◌, ℕ, Bool, false, suc, List, ◌∷◌, ◌++◌, [], length, min, option_map, None, Some, IfOk, IfSome, IsSome};
ghost use Rattle.smil_outside.specs.Faults.{last_count};
ghost use Rattle.smil_top.specs.Cut.{CutLines, LoadLines, OrderLines, single, load as load_order, cut_of, unended, with_line};
ghost use Rattle.smil_top.specs.Session.{Session as Presentations};
ghost use Rattle.smil_top.specs.Summary.{line_count};
ghost use Rattle.smil_top.specs.Transcript.{TranscriptState, untold};
ghost use Rattle.smil_top.specs.Houses.{Keeps};
ghost use Rattle.smil_top.specs.Evaluations.{Bound, number_of};
ghost use Rattle.smil_top.specs.Running.{answering, finished, no_text, with_order, said, Answers, AnswersOrders, AreCounted, CountsFaults, EvaluatesOn, IsOrderCounted, IsRead, IsRunning, IsLine, MakesAnswer, Tells, Writes};

use super::answer::Answer;
use super::counts::Counts;
use super::fault::Fault;
use super::load::Load;
use super::session::Session;
use smil_interval::Steps;
use smil_model::Refusal;
use smil_outside::{Failed, LINE_BYTES, Sink};
use smil_script::{LastOrder, ends_load, is_blank, opens_load};
use std::alloc::{AllocError, Global};
use std::sync::ledger::Ledger;

/// A line as it was read: its number, and its text, or none where it is too long.
#[derive(Clone, Copy)]
pub(crate) struct NumberedLine<'a> {
    pub number: u32,
    pub text: Option<&'a [u8]>,
}

/// A session between two lines: the load that hasn't ended, the order that was read last, the last
/// answer, and what is counted so far.
#[derive(Drop)]
pub(crate) struct Run {
    pub session: Session,
    pub load: Option<Load>,
    pub order: LastOrder,
    pub answer: Answer,
    pub counts: Counts,
}

impl Run {
    /// A session before its first line, whose loads are only read or are opened too, and what is
    /// counted of it so far; unless memory runs out.
    pub fn new(alloc: Global, checks: bool, counts: Counts) -> Result<Run, AllocError>
        requires { AreCounted counts [] untold }
        ensures running { IfOk result (λ run. IsRunning checks run (cut_of []) untold) }
        ensures empty { IfOk result (λ run. run.answer ≡ no_text) }
    {
        Ok(Run {
            session: Session::new(alloc, checks)?,
            load: None,
            order: LastOrder::new(alloc),
            answer: Answer::new(alloc),
            counts,
        })
    }

    /// Takes in the next line, and writes the answer of the order that is whole with it. The answer
    /// stands until the next line; it is empty where no order is whole with this one.
    pub fn line<K: Sink, L: Ledger>(
        &mut self,
        next: &NumberedLine<'_>,
        sink: &mut K,
        steps: &mut Steps<L>,
    ) -> Result<(), Failed>
        requires short { IfSome next.now.text (λ t. length t.now ≤ LINE_BYTES) }
        ensures answers { (checks : Bool) (cut : CutLines) (told : TranscriptState) (line : List ℕ)
            → IsRunning checks self.old cut told
            → next.now.number ≡ suc cut.count → IsLine (option_map (λ t. t.now) next.now.text) line
            → Answers checks result self.new (with_line cut line) told (K.taken sink.old)
            (K.taken sink.new) (K.sure_room sink.old) (K.sure_room sink.new) }
        ensures faults { CountsFaults result (K.faults sink.old) (K.faults sink.new) }
        ensures counted { steps.old ≤ steps.new }
        ensures evaluated { (cut : CutLines) (told : TranscriptState) (line : List ℕ)
            → IsRunning false self.old cut told
            → next.now.number ≡ suc cut.count → IsLine (option_map (λ t. t.now) next.now.text) line
            → EvaluatesOn self.old.counts self.new.counts cut.whole (with_line cut line).whole
            steps.old steps.new }
    {
        self.answer.clear();
        if self.load.is_none() {
            self.line_outside(next, sink, steps)
        } else {
            self.line_inside(next, sink, steps)
        }
    }

    // A line inside a load.
    #[inline(never)]
    fn line_inside<K: Sink, L: Ledger>(
        &mut self,
        next: &NumberedLine<'_>,
        sink: &mut K,
        steps: &mut Steps<L>,
    ) -> Result<(), Failed>
        requires short { IfSome next.now.text (λ t. length t.now ≤ LINE_BYTES) }
        requires inside { IsSome self.old.load }
        requires empty { self.old.answer ≡ no_text }
        ensures answers { (checks : Bool) (cut : CutLines) (told : TranscriptState) (line : List ℕ)
            → IsRunning checks self.old cut told
            → next.now.number ≡ suc cut.count → IsLine (option_map (λ t. t.now) next.now.text) line
            → Answers checks result self.new (with_line cut line) told (K.taken sink.old)
            (K.taken sink.new) (K.sure_room sink.old) (K.sure_room sink.new) }
        ensures faults { CountsFaults result (K.faults sink.old) (K.faults sink.new) }
        ensures counted { steps.old ≤ steps.new }
        ensures evaluated { (cut : CutLines) (told : TranscriptState) (line : List ℕ)
            → IsRunning false self.old cut told
            → next.now.number ≡ suc cut.count → IsLine (option_map (λ t. t.now) next.now.text) line
            → EvaluatesOn self.old.counts self.new.counts cut.whole (with_line cut line).whole
            steps.old steps.new }
    {
        match next.text {
            Some(text) if ends_load(text) => {
                let load = self.load.take().unwrap();
                self.end_load(load, next.number, sink, steps)
            }
            Some(text) if is_blank(text) => Ok(()),
            _ => {
                let Some(load) = &mut self.load else {
                    return Ok(());
                };
                load.push(next.number, next.text);
                Ok(())
            }
        }
    }

    // A line outside loads.
    fn line_outside<K: Sink, L: Ledger>(
        &mut self,
        next: &NumberedLine<'_>,
        sink: &mut K,
        steps: &mut Steps<L>,
    ) -> Result<(), Failed>
        requires short { IfSome next.now.text (λ t. length t.now ≤ LINE_BYTES) }
        requires outside { self.old.load ≡ None }
        requires empty { self.old.answer ≡ no_text }
        ensures answers { (checks : Bool) (cut : CutLines) (told : TranscriptState) (line : List ℕ)
            → cut.«open» ≡ None
            → Tells checks self.old cut.whole told → next.now.number ≡ suc cut.count
            → IsLine (option_map (λ t. t.now) next.now.text) line
            → Answers checks result self.new (with_line cut line) told (K.taken sink.old)
            (K.taken sink.new) (K.sure_room sink.old) (K.sure_room sink.new) }
        ensures faults { CountsFaults result (K.faults sink.old) (K.faults sink.new) }
        ensures counted { steps.old ≤ steps.new }
        ensures evaluated { (cut : CutLines) (told : TranscriptState) (line : List ℕ)
            → cut.«open» ≡ None
            → Tells false self.old cut.whole told
            → next.now.number ≡ suc cut.count → IsLine (option_map (λ t. t.now) next.now.text) line
            → EvaluatesOn self.old.counts self.new.counts cut.whole (with_line cut line).whole
            steps.old steps.new }
    {
        match next.text {
            None => self.tell(
                Err(Fault {
                    line: next.number,
                    refusal: Refusal::LongLine,
                }),
                sink,
            ),
            Some(text) if opens_load(text) => {
                self.load = Some(Load::open(
                    self.session.alloc,
                    next.number,
                    text,
                    &self.session.preferences,
                ));
                Ok(())
            }
            Some(text) if is_blank(text) => Ok(()),
            Some(text) => self.answer_single(next.number, text, sink, steps),
        }
    }

    // A single line.
    fn answer_single<K: Sink, L: Ledger>(
        &mut self,
        number: u32,
        text: &[u8],
        sink: &mut K,
        steps: &mut Steps<L>,
    ) -> Result<(), Failed>
        requires short { length text.now ≤ LINE_BYTES }
        requires empty { self.old.answer ≡ no_text }
        ensures answers { (checks : Bool) (whole : List OrderLines) (told : TranscriptState)
            → Tells checks self.old whole told
            → AnswersOrders checks result self.new
            (whole ++ single (record { number = number; text = text.now }) ∷ []) told
            (K.taken sink.old) (K.taken sink.new) (K.sure_room sink.old) (K.sure_room sink.new) }
        ensures load { self.new.load ≡ self.old.load }
        ensures faults { CountsFaults result (K.faults sink.old) (K.faults sink.new) }
        ensures counted { steps.old ≤ steps.new }
        ensures evaluated { (whole : List OrderLines) (told : TranscriptState)
            → Tells false self.old whole told
            → EvaluatesOn self.old.counts self.new.counts
            whole (whole ++ single (record { number = number; text = text.now }) ∷ []) steps.old
            steps.new }
    {
        let answered = self
            .session
            .answer_line(number, text, &mut self.order, &mut self.answer, steps);
        self.tell(Fault::at(number, answered), sink)
    }

    // The line that ends a load.
    fn end_load<K: Sink, L: Ledger>(
        &mut self,
        load: Load,
        number: u32,
        sink: &mut K,
        steps: &mut Steps<L>,
    ) -> Result<(), Failed>
        requires empty { self.old.answer ≡ no_text }
        ensures answers { (checks : Bool) (whole : List OrderLines) (lines : LoadLines)
            (told : TranscriptState)
            → IsRead load told.session.wanted lines → Tells checks self.old whole told
            → AnswersOrders checks result self.new (whole ++ load_order lines (Some number) ∷ [])
            told
            (K.taken sink.old) (K.taken sink.new) (K.sure_room sink.old) (K.sure_room sink.new) }
        ensures load { self.new.load ≡ self.old.load }
        ensures faults { CountsFaults result (K.faults sink.old) (K.faults sink.new) }
        ensures counted { steps.old ≤ steps.new }
        ensures evaluated { (whole : List OrderLines) (lines : LoadLines) (told : TranscriptState)
            → IsRead load told.session.wanted lines
            → Tells false self.old whole told
            → EvaluatesOn self.old.counts self.new.counts
            whole (whole ++ load_order lines (Some number) ∷ []) steps.old steps.new }
    {
        let answered = self.answer_load(load, number, steps);
        self.tell(answered, sink)
    }

    // Answers a load whose last line has this number.
    fn answer_load<L: Ledger>(
        &mut self,
        load: Load,
        number: u32,
        steps: &mut Steps<L>,
    ) -> Result<(), Fault>
        requires empty { self.old.answer ≡ no_text }
        ensures answer { (session : Presentations) (lines : LoadLines)
            → Keeps self.old.session session → IsRead load session.wanted lines
            → MakesAnswer result self.new.answer self.new.session session
            (answering self.old.session.checks) (load_order lines (Some number)) }
        ensures checks { self.new.session.checks ≡ self.old.session.checks }
        ensures load { self.new.load ≡ self.old.load }
        ensures counts { self.new.counts ≡ self.old.counts }
        ensures counted { steps.old ≤ steps.new }
        ensures evaluated { (session : Presentations) (lines : LoadLines)
            → Keeps self.old.session session
            → IsRead load session.wanted lines → self.old.session.checks ≡ false
            → IsOrderCounted result (λ (bound : Bound). number_of bound session
            (load_order lines (Some number)))
            (steps.new - steps.old) }
    {
        let line = load.line;
        let given = load.finish(number)?;
        let answered = self
            .session
            .answer_load(line, given, &mut self.answer, steps);
        Fault::at(line, answered)
    }

    /// The end of the input, at which a load that hasn't ended is refused.
    pub fn end<K: Sink>(&mut self, sink: &mut K) -> Result<(), Failed>
        ensures answers { (checks : Bool) (cut : CutLines) (told : TranscriptState)
            → IsRunning checks self.old cut told
            → AnswersOrders checks result self.new (cut.whole ++ unended cut.«open») told
            (K.taken sink.old) (K.taken sink.new) (K.sure_room sink.old) (K.sure_room sink.new) }
        ensures faults { CountsFaults result (K.faults sink.old) (K.faults sink.new) }
        ensures evaluated { (cut : CutLines) (told : TranscriptState) (steps : ℕ)
            → IsRunning false self.old cut told
            → EvaluatesOn self.old.counts self.new.counts cut.whole
            (cut.whole ++ unended cut.«open») steps steps }
    {
        self.answer.clear();
        match self.load.take() {
            Some(load) => self.tell(
                Err(Fault {
                    line: load.line,
                    refusal: Refusal::UnfinishedLoad,
                }),
                sink,
            ),
            None => Ok(()),
        }
    }

    // Writes the answer of an order, and counts it.
    fn tell<K: Sink>(&mut self, answered: Result<(), Fault>, sink: &mut K) -> Result<(), Failed>
        ensures writes { Writes result (K.taken sink.old) (K.taken sink.new) (K.sure_room sink.old)
            (K.sure_room sink.new) (said answered self.old.answer) }
        ensures answer { self.new.answer ≡ finished answered self.old.answer }
        ensures session { self.new.session ≡ self.old.session }
        ensures load { self.new.load ≡ self.old.load }
        ensures counts { self.new.counts ≡ with_order answered
            (min (line_count (said answered self.old.answer)) last_count) self.old.counts }
        ensures faults { CountsFaults result (K.faults sink.old) (K.faults sink.new) }
    {
        self.answer.finish(&answered);
        self.counts.count_answer(&answered, &self.answer);
        self.answer.write(sink)
    }
}
