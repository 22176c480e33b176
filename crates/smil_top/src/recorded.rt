//! Orders that a host gives without a line.

ghost use Rattle.std.specs.Prelude.{◌≡◌, ◌≤◌, ◌-◌, ◌++◌, ◌∷◌, [], List, ℕ, false};
ghost use Rattle.smil_model.specs.shown.Answers.{IsGiven};
ghost use Rattle.smil_report.specs.Tellings.{is_telling};
ghost use Rattle.smil_top.specs.Cut.{OrderLines, single};
ghost use Rattle.smil_top.specs.Evaluations.{Bound, ordered_number};
ghost use Rattle.smil_top.specs.Houses.{Keeps};
ghost use Rattle.smil_top.specs.Answers.{close_answer};
ghost use Rattle.smil_top.specs.Recorded.{Closes, Records, Says, SaysClose, answered_by, done};
ghost use Rattle.smil_top.specs.Running.{EvaluatesOn, IsCounted, Tells};
ghost use Rattle.smil_top.specs.Session.{Session as Presentations};
ghost use Rattle.smil_top.specs.Transcript.{TranscriptState, with_answer};

use super::counts::UNCOUNTED;
use super::fault::Fault;
use super::run::Run;
use super::session::Session;
use smil_interval::Steps;
use smil_model::{Order, Refusal};
use smil_report::Changes;
use std::sync::ledger::Ledger;

/// An order, the name of the presentation that it is for, and the number of the line that it
/// stands for.
#[derive(Clone, Copy)]
pub(crate) struct NumberedOrder<'a> {
    pub number: u32,
    pub name: &'a [u8],
    pub order: &'a Order,
}

impl Session {
    /// Carries out an order that may change something, and appends the records of what it changes;
    /// gives the moment of its presentation, or why it is refused. After a refusal the session is
    /// as before.
    pub fn change<L: Ledger>(
        &mut self,
        name: &[u8],
        order: &Order,
        changes: &mut Changes,
        steps: &mut Steps<L>,
    ) -> Result<i64, Refusal>
        requires given { IsGiven order.now }
        requires changes { is_telling order.now ≡ false }
        requires empty { changes.old ≡ [] }
        ensures recorded { (session : Presentations) → Keeps self.old session
            → Records result changes.new self.new session name.now order.now }
        ensures checks { self.new.checks ≡ self.old.checks }
        ensures counted { steps.old ≤ steps.new }
        ensures evaluated { (session : Presentations) → Keeps self.old session
            → IsCounted (done result) (λ (bound : Bound). ordered_number bound session
            name.now order.now)
            (steps.new - steps.old) }
    {
        self.house.record(name, order, changes, steps)
    }

    /// Closes the presentation of this name, or gives why it is refused, and then the session is as
    /// before.
    pub fn unload(&mut self, name: &[u8]) -> Result<(), Refusal>
        ensures closed { (session : Presentations) (number : ℕ) → Keeps self.old session
            → Closes result self.new session (close_answer session number name.now) }
        ensures checks { self.new.checks ≡ self.old.checks }
    {
        self.house.close(name)
    }
}

impl Run {
    /// Carries out an order as a line of this number would that says it, but appends the records of
    /// what it changes, and leaves the answer as it is.
    pub fn change<L: Ledger>(
        &mut self,
        given: &NumberedOrder<'_>,
        changes: &mut Changes,
        steps: &mut Steps<L>,
    ) -> Result<i64, Refusal>
        requires given { IsGiven given.now.order.now }
        requires changes { is_telling given.now.order.now ≡ false }
        requires empty { changes.old ≡ [] }
        ensures recorded { (session : Presentations) → Keeps self.old.session session
            → Records result changes.new self.new.session session given.now.name.now
            given.now.order.now }
        ensures tells { (whole : List OrderLines) (told : TranscriptState) (line : List ℕ)
            → Says line given.now.name.now given.now.order.now → Tells false self.old whole told
            → Tells false self.new
            (whole ++ single (record { number = given.now.number; text = line }) ∷ [])
            (with_answer told (answered_by result told.session
            (single (record { number = given.now.number; text = line })))) }
        ensures load { self.new.load ≡ self.old.load }
        ensures answer { self.new.answer ≡ self.old.answer }
        ensures counted { steps.old ≤ steps.new }
        ensures evaluated { (whole : List OrderLines) (told : TranscriptState) (line : List ℕ)
            → Says line given.now.name.now given.now.order.now → Tells false self.old whole told
            → EvaluatesOn self.old.counts self.new.counts whole
            (whole ++ single (record { number = given.now.number; text = line }) ∷ []) steps.old
            steps.new }
    {
        let changed = self.session.change(given.name, given.order, changes, steps);
        let answered = Fault::at(given.number, done(&changed));
        self.counts.count(&answered, UNCOUNTED);
        changed
    }

    /// Closes the presentation of this name as a line of this number would that says it, but leaves
    /// the answer as it is.
    pub fn unload(&mut self, number: u32, name: &[u8]) -> Result<(), Refusal>
        ensures closed { (session : Presentations) (number : ℕ) → Keeps self.old.session session
            → Closes result self.new.session session (close_answer session number name.now) }
        ensures tells { (whole : List OrderLines) (told : TranscriptState) (line : List ℕ)
            → SaysClose line name.now → Tells false self.old whole told
            → Tells false self.new (whole ++ single (record { number = number; text = line }) ∷ [])
            (with_answer told (answered_by result told.session
            (single (record { number = number; text = line })))) }
        ensures load { self.new.load ≡ self.old.load }
        ensures answer { self.new.answer ≡ self.old.answer }
        ensures evaluated { (whole : List OrderLines) (told : TranscriptState) (line : List ℕ)
            (steps : ℕ) → SaysClose line name.now → Tells false self.old whole told
            → EvaluatesOn self.old.counts self.new.counts whole
            (whole ++ single (record { number = number; text = line }) ∷ []) steps steps }
    {
        let closed = self.session.unload(name);
        self.counts.count(&Fault::at(number, closed), UNCOUNTED);
        closed
    }
}

// Whether an order was carried out, whatever it gave.
fn done(changed: &Result<i64, Refusal>) -> Result<(), Refusal>
    ensures { result ≡ done changed.now }
{
    match changed {
        Ok(_) => Ok(()),
        Err(refusal) => Err(*refusal),
    }
}
