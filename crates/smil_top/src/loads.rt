//! Loads that are given by calls.

ghost use Rattle.std.specs.Prelude.{◌≡◌, ◌≤◌, ◌<◌, ◌+◌, ◌-◌, ◌++◌, ◌∷◌, ℕ, suc, List, [], length, option_map, false, IfSome, MatchOption, Some};
ghost use Rattle.smil_model.specs.document.Limits.{limits};
ghost use Rattle.smil_model.specs.document.Valid.{IsValid};
ghost use Rattle.smil_switch.specs.Preferences.{Wanted};
ghost use Rattle.smil_top.specs.Answers.{loaded_within};
ghost use Rattle.smil_top.specs.Cut.{LoadLines, OrderLines, is_silent, load as load_order};
ghost use Rattle.smil_top.specs.Evaluations.{Bound, loaded_number, number_of};
ghost use Rattle.smil_top.specs.GivenLoads.{RecordsGiven, RecordsLoad, answered_as, nodes_from, outline_lines};
ghost use Rattle.smil_top.specs.Held.{last_number};
ghost use Rattle.smil_top.specs.Houses.{Keeps};
ghost use Rattle.smil_top.specs.Running.{EvaluatesOn, IsCounted, IsLine, IsOrderCounted, IsRead, Tells, given_of};
ghost use Rattle.smil_top.specs.Session.{Session as Presentations};
ghost use Rattle.smil_top.specs.Transcript.{TranscriptState, with_answer};

use super::counts::UNCOUNTED;
use super::fault::Fault;
use super::held::shown;
use super::load::Load;
use super::loaded::LoadedDoc;
use super::run::Run;
use super::session::Session;
use smil_interval::Steps;
use smil_lexis::texts::cut;
use smil_live::Presentation;
use smil_model::Refusal;
use smil_report::Changes;
use smil_script::is_blank;
use std::sync::ledger::Ledger;

// The first line of an outline that has a line feed, and what stands behind that.
fn first_line(text: &[u8]) -> Option<(&[u8], &[u8])>
    ensures lines { MatchOption result (outline_lines text.now ≡ text.now ∷ [])
        (λ cut. outline_lines text.now ≡ cut.0.now ∷ outline_lines cut.1.now) }
    ensures length { IfSome result
        (λ cut. length cut.0.now + 1 + length cut.1.now ≡ length text.now) }
{
    cut(text, b'\n')
}

// Whether a line, as a reader shows it, is silent: blank, and not too long.
fn is_silent(text: Option<&[u8]>) -> bool
    ensures { (line : List ℕ) → IsLine (option_map (λ t. t.now) text.entry) line
        → result ≡ is_silent line }
{
    match text {
        Some(text) => is_blank(text),
        None => false,
    }
}

impl Load {
    /// Reads the lines of an outline, behind the line with this number; gives the number of the
    /// last of them too.
    pub fn read(self, number: u32, outline: &[u8]) -> (Load, u32)
        requires room { number + length outline.now < last_number }
        ensures read { (wanted : Wanted) (lines : LoadLines) → IsRead self wanted lines
            → IsRead result.0 wanted (record lines {
              nodes = lines.nodes ++ nodes_from (suc number) (outline_lines outline.now);
            }) }
        ensures last { result.1 ≡ number + length (outline_lines outline.now) }
        ensures within { result.1 ≤ number + length outline.now + 1 }
    {
        let mut load = self;
        let mut last = number;
        let mut rest = outline;
        'lines: while let Some((line, behind)) = first_line(rest) {
            last += 1;
            load = load.read_line(last, line);
            rest = behind;
        }
        (load.read_line(last + 1, rest), last + 1)
    }

    // Reads one more line, unless it is silent.
    fn read_line(mut self, number: u32, line: &[u8]) -> Load
        ensures { (wanted : Wanted) (lines : LoadLines) → IsRead self wanted lines
            → IsRead result wanted (record lines {
              nodes = lines.nodes ++ nodes_from number (line.now ∷ []);
            }) }
    {
        let text = shown(line);
        if is_silent(text) {
            return self;
        }
        self.push(number, text);
        self
    }
}

impl Session {
    // Opens what a load gives, and appends the records of what is told of it; or gives why it is
    // refused, and then the session is as before.
    fn record_given<L: Ledger>(
        &mut self,
        given: LoadedDoc,
        changes: &mut Changes,
        steps: &mut Steps<L>,
    ) -> Result<(), Refusal>
        requires valid { IsValid given.doc }
        requires empty { changes.old ≡ [] }
        ensures recorded { (session : Presentations) (number : ℕ) → Keeps self.old session
            → RecordsGiven result changes.new self.new session
            (loaded_within limits session number (given_of given)) }
        ensures checks { self.new.checks ≡ self.old.checks }
        ensures counted { steps.old ≤ steps.new }
        ensures evaluated { (session : Presentations) → Keeps self.old session
            → IsCounted result (λ (bound : Bound). loaded_number bound session (given_of given))
            (steps.new - steps.old) }
    {
        let LoadedDoc { name, doc, .. } = given;
        self.house.may_load(name.slice())?;
        let player = Presentation::new(self.alloc, doc, changes, steps)?;
        self.house.load(name, player);
        Ok(())
    }

    // The same of a load whose last line has this number, or its first fault.
    fn record_load<L: Ledger>(
        &mut self,
        load: Load,
        number: u32,
        changes: &mut Changes,
        steps: &mut Steps<L>,
    ) -> Result<(), Fault>
        requires empty { changes.old ≡ [] }
        ensures recorded { (session : Presentations) (lines : LoadLines) → Keeps self.old session
            → IsRead load session.wanted lines
            → RecordsLoad result changes.new self.new session (load_order lines (Some number)) }
        ensures checks { self.new.checks ≡ self.old.checks }
        ensures counted { steps.old ≤ steps.new }
        ensures evaluated { (session : Presentations) (lines : LoadLines) → Keeps self.old session
            → IsRead load session.wanted lines
            → IsOrderCounted result (λ (bound : Bound). number_of bound session
            (load_order lines (Some number)))
            (steps.new - steps.old) }
    {
        let line = load.line;
        let given = load.finish(number)?;
        let recorded = self.record_given(given, changes, steps);
        Fault::at(line, recorded)
    }
}

impl Run {
    /// Ends a load as a line of this number would that ends it, but appends the records of what is
    /// told of its presentation, and leaves the answer as it is.
    pub fn record_load<L: Ledger>(
        &mut self,
        load: Load,
        number: u32,
        changes: &mut Changes,
        steps: &mut Steps<L>,
    ) -> Result<(), Fault>
        requires empty { changes.old ≡ [] }
        ensures recorded { (session : Presentations) (lines : LoadLines)
            → Keeps self.old.session session → IsRead load session.wanted lines
            → RecordsLoad result changes.new self.new.session session
            (load_order lines (Some number)) }
        ensures tells { (whole : List OrderLines) (told : TranscriptState) (lines : LoadLines)
            → IsRead load told.session.wanted lines → Tells false self.old whole told
            → Tells false self.new (whole ++ load_order lines (Some number) ∷ [])
            (with_answer told (answered_as result told.session (load_order lines (Some number)))) }
        ensures load { self.new.load ≡ self.old.load }
        ensures answer { self.new.answer ≡ self.old.answer }
        ensures counted { steps.old ≤ steps.new }
        ensures evaluated { (whole : List OrderLines) (told : TranscriptState) (lines : LoadLines)
            → IsRead load told.session.wanted lines → Tells false self.old whole told
            → EvaluatesOn self.old.counts self.new.counts whole
            (whole ++ load_order lines (Some number) ∷ []) steps.old steps.new }
    {
        let recorded = self.session.record_load(load, number, changes, steps);
        self.counts.count(&recorded, UNCOUNTED);
        recorded
    }
}
