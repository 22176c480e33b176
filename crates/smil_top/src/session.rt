//! The presentations that are held, what is preferred, and the answers to orders.

ghost use Rattle.std.specs.Prelude.{◌≡◌, ◌≤◌, ◌-◌, ℕ, [], length, false, IfOk};
ghost use Rattle.smil_model.specs.declared.limits.TheConstants.{NAME_BYTES};
ghost use Rattle.smil_model.specs.document.Limits.{limits};
ghost use Rattle.smil_model.specs.document.Valid.{IsValid};
ghost use Rattle.smil_model.specs.shown.Answers.{IsGiven};
ghost use Rattle.smil_grammar.specs.declared.read.Read.TheVariants.{To};
ghost use Rattle.smil_script.specs.Copies.{IsForCopy, line_copies};
ghost use Rattle.smil_script.specs.Gives.{HoldsGiven};
ghost use Rattle.smil_top.specs.Session.{Session as Presentations};
ghost use Rattle.smil_switch.specs.Preferences.{at_first};
ghost use Rattle.smil_top.specs.Answers.{check_said, checked, close_answer, loaded_within, ordered_within, preferring};
ghost use Rattle.smil_top.specs.Evaluations.{Bound, line_number, loaded_number, ordered_number, said_number};
ghost use Rattle.smil_top.specs.Houses.{Keeps};
ghost use Rattle.smil_top.specs.Running.{given_of, line_by, load_by, no_text, single_by, Checks, HasShortName, IsCounted, Makes, PrefersAs};

use super::answer::Answer;
use super::last_line::LastLine;
use super::loaded::LoadedDoc;
use smil_grammar::Read;
use smil_house::House;
use smil_interval::Steps;
use smil_live::Presentation;
use smil_model::{Bytes, Order, Refusal};
use smil_outline::{write_doc, write_doc_2};
use smil_outside::LINE_BYTES;
use smil_script::{LastOrder, read_line};
use smil_switch::Preferences;
use std::alloc::{AllocError, Global};
use std::sync::ledger::Ledger;

/// The presentations that are held, what is preferred in loads, whether loads are only read, and
/// where memory is taken.
#[derive(Drop)]
pub(crate) struct Session {
    pub house: House<Presentation>,
    pub preferences: Preferences,
    pub checks: bool,
    pub alloc: Global,
}

// An order, with the name of the presentation that it is for.
#[derive(Clone, Copy)]
struct NamedOrder<'a> {
    name: &'a [u8],
    order: &'a Order,
}

impl Session {
    /// No presentation, with room for all that may be held, and the first preferences; unless
    /// memory runs out.
    pub fn new(alloc: Global, checks: bool) -> Result<Session, AllocError>
        ensures { IfOk result
            (λ session. session ≡ record {
              house = [];
              preferences = at_first;
              checks = checks;
              alloc = alloc;
            }) }
    {
        Ok(Session {
            house: House::new(alloc)?,
            preferences: Preferences::new(alloc)?,
            checks,
            alloc,
        })
    }

    /// Answers a single line: its text, or why it is refused. After a refusal the session is as
    /// before. An order of it is put in place of the one that was read last.
    pub fn answer_line<L: Ledger>(
        &mut self,
        number: u32,
        line: &[u8],
        order: &mut LastOrder,
        answer: &mut Answer,
        steps: &mut Steps<L>,
    ) -> Result<(), Refusal>
        requires short { length line.now ≤ LINE_BYTES }
        requires empty { answer.old ≡ no_text }
        ensures answer { (session : Presentations) → Keeps self.old session
            → Makes result answer.new self.new session
            (line_by self.old.checks session number line.now) }
        ensures copied { IsForCopy (line_copies line.now) result }
        ensures checks { self.new.checks ≡ self.old.checks }
        ensures counted { steps.old ≤ steps.new }
        ensures evaluated { (session : Presentations) → Keeps self.old session
            → self.old.checks ≡ false
            → IsCounted result (λ (bound : Bound). line_number bound session line.now)
            (steps.new - steps.old) }
    {
        if let Some(name) = order.read(self.alloc, line)? {
            let given = order.order();
            let named = NamedOrder { name, order: given };
            return self.answer_order(number, &named, answer, steps);
        }
        self.answer_other(number, line, answer, steps)
    }

    // Answers a line that is no order to a presentation: a function of its own, so that an order
    // needs no room for what it reads.
    #[inline(never)]
    fn answer_other<L: Ledger>(
        &mut self,
        number: u32,
        line: &[u8],
        answer: &mut Answer,
        steps: &mut Steps<L>,
    ) -> Result<(), Refusal>
        requires short { length line.now ≤ LINE_BYTES }
        requires empty { answer.old ≡ no_text }
        ensures answer { (session : Presentations) → Keeps self.old session
            → Makes result answer.new self.new session
            (line_by self.old.checks session number line.now) }
        ensures copied { IsForCopy (line_copies line.now) result }
        ensures checks { self.new.checks ≡ self.old.checks }
        ensures counted { steps.old ≤ steps.new }
        ensures evaluated { (session : Presentations) → Keeps self.old session
            → self.old.checks ≡ false
            → IsCounted result (λ (bound : Bound). line_number bound session line.now)
            (steps.new - steps.old) }
    {
        let read = read_line(self.alloc, line)?;
        self.answer_read(number, &read, answer, steps)
    }

    // Answers an order to a presentation, unless loads are only read.
    fn answer_order<L: Ledger>(
        &mut self,
        number: u32,
        named: &NamedOrder<'_>,
        answer: &mut Answer,
        steps: &mut Steps<L>,
    ) -> Result<(), Refusal>
        requires given { IsGiven named.now.order.now }
        requires name { length named.now.name.now ≤ NAME_BYTES }
        requires empty { answer.old ≡ no_text }
        ensures answer { (session : Presentations) → Keeps self.old session
            → Makes result answer.new self.new session
            (single_by self.old.checks session number (To named.now.name.now named.now.order.now)) }
        ensures checks { self.new.checks ≡ self.old.checks }
        ensures counted { steps.old ≤ steps.new }
        ensures evaluated { (session : Presentations) → Keeps self.old session
            → self.old.checks ≡ false
            → IsCounted result (λ (bound : Bound). said_number bound session
            (To named.now.name.now named.now.order.now))
            (steps.new - steps.old) }
    {
        if self.checks {
            return Ok(());
        }
        self.answer_to(number, named, answer, steps)
    }

    // Answers a line by what it says.
    fn answer_read<L: Ledger>(
        &mut self,
        number: u32,
        read: &Read,
        answer: &mut Answer,
        steps: &mut Steps<L>,
    ) -> Result<(), Refusal>
        requires given { HoldsGiven read.now }
        requires name { HasShortName read.now }
        requires empty { answer.old ≡ no_text }
        ensures answer { (session : Presentations) → Keeps self.old session
            → Makes result answer.new self.new session
            (single_by self.old.checks session number read.now) }
        ensures checks { self.new.checks ≡ self.old.checks }
        ensures counted { steps.old ≤ steps.new }
        ensures evaluated { (session : Presentations) → Keeps self.old session
            → self.old.checks ≡ false
            → IsCounted result (λ (bound : Bound). said_number bound session read.now)
            (steps.new - steps.old) }
    {
        if self.checks {
            return self.check_read(read);
        }
        match read {
            Read::Blank => Ok(()),
            Read::Load { .. } | Read::LoadAt { .. } => Err(Refusal::NotACommand),
            Read::Prefer { word, value } => {
                self.prefer(word, value)?;
                answer.last = LastLine::preferred(number);
                Ok(())
            }
            Read::Close { name } => self.close(number, name, answer),
            Read::To { name, order } => {
                let name = name.slice();
                let named = NamedOrder { name, order };
                self.answer_to(number, &named, answer, steps)
            }
        }
    }

    // Answers a line by what it says, where loads are only read: it has no text; a value is
    // preferred all the same.
    fn check_read(&mut self, read: &Read) -> Result<(), Refusal>
        ensures answer { (session : Presentations) → Keeps self.old session
            → Makes result no_text self.new session (check_said session read.now) }
        ensures checks { self.new.checks ≡ self.old.checks }
    {
        match read {
            Read::Prefer { word, value } => self.prefer(word, value),
            _ => Ok(()),
        }
    }

    // Prefers a value for a word; after a refusal the session is as before.
    fn prefer(&mut self, word: &Bytes, value: &Bytes) -> Result<(), Refusal>
        ensures preferring { (session : Presentations) → Keeps self.old session
            → PrefersAs result self.new session (preferring session word.now value.now) }
        ensures checks { self.new.checks ≡ self.old.checks }
    {
        if self.preferences.prefer(word.slice(), value.slice())? {
            Ok(())
        } else {
            Err(Refusal::NotACommand)
        }
    }

    // Answers an order to the presentation of this name.
    fn answer_to<L: Ledger>(
        &mut self,
        number: u32,
        named: &NamedOrder<'_>,
        answer: &mut Answer,
        steps: &mut Steps<L>,
    ) -> Result<(), Refusal>
        requires given { IsGiven named.now.order.now }
        requires name { length named.now.name.now ≤ NAME_BYTES }
        requires empty { answer.old ≡ no_text }
        ensures answer { (session : Presentations) → Keeps self.old session
            → Makes result answer.new self.new session
            (ordered_within limits session number named.now.name.now named.now.order.now) }
        ensures checks { self.new.checks ≡ self.old.checks }
        ensures counted { steps.old ≤ steps.new }
        ensures evaluated { (session : Presentations) → Keeps self.old session
            → IsCounted result (λ (bound : Bound). ordered_number bound session
            named.now.name.now named.now.order.now)
            (steps.new - steps.old) }
    {
        let now = self
            .house
            .answer(named.name, named.order, &mut answer.told, steps)?;
        answer.last.put_ok(number, named.name, now);
        Ok(())
    }

    // Closes the presentation of this name.
    fn close(&mut self, number: u32, name: &Bytes, answer: &mut Answer) -> Result<(), Refusal>
        requires name { length name.now ≤ NAME_BYTES }
        requires empty { answer.old ≡ no_text }
        ensures answer { (session : Presentations) → Keeps self.old session
            → Makes result answer.new self.new session
            (close_answer session number name.now) }
        ensures checks { self.new.checks ≡ self.old.checks }
    {
        self.house.close(name.slice())?;
        answer.last = LastLine::closed(number, name.slice());
        Ok(())
    }

    /// Answers a load that begins at a line and that was read without a fault: it is opened, or
    /// written where loads are only read. After a refusal the session is as before.
    pub fn answer_load<L: Ledger>(
        &mut self,
        number: u32,
        given: LoadedDoc,
        answer: &mut Answer,
        steps: &mut Steps<L>,
    ) -> Result<(), Refusal>
        requires valid { IsValid given.doc }
        requires empty { answer.old ≡ no_text }
        ensures answer { (session : Presentations) → Keeps self.old session
            → Makes result answer.new self.new session
            (load_by self.old.checks session number (given_of given)) }
        ensures checks { self.new.checks ≡ self.old.checks }
        ensures counted { steps.old ≤ steps.new }
        ensures evaluated { (session : Presentations) → Keeps self.old session
            → self.old.checks ≡ false
            → IsCounted result (λ (bound : Bound). loaded_number bound session (given_of given))
            (steps.new - steps.old) }
    {
        if self.checks {
            check(number, &given, answer)
        } else {
            self.open(number, given, answer, steps)
        }
    }

    // Opens what a load gives.
    fn open<L: Ledger>(
        &mut self,
        number: u32,
        given: LoadedDoc,
        answer: &mut Answer,
        steps: &mut Steps<L>,
    ) -> Result<(), Refusal>
        requires valid { IsValid given.doc }
        requires empty { answer.old ≡ no_text }
        ensures answer { (session : Presentations) → Keeps self.old session
            → Makes result answer.new self.new session
            (loaded_within limits session number (given_of given)) }
        ensures checks { self.new.checks ≡ self.old.checks }
        ensures counted { steps.old ≤ steps.new }
        ensures evaluated { (session : Presentations) → Keeps self.old session
            → IsCounted result (λ (bound : Bound). loaded_number bound session (given_of given))
            (steps.new - steps.old) }
    {
        let LoadedDoc { name, doc, .. } = given;
        self.house.may_load(name.slice())?;
        let player = Presentation::new(self.alloc, doc, &mut answer.told, steps)?;
        answer.last = LastLine::ok(number, name.slice(), 0);
        self.house.load(name, player);
        Ok(())
    }
}

// Writes the canonical outline of a load, in the version in which it came.
fn check(number: u32, given: &LoadedDoc, answer: &mut Answer) -> Result<(), Refusal>
    requires valid { IsValid given.now.doc }
    requires empty { answer.old ≡ no_text }
    ensures { Checks result answer.new number (given_of given.now) }
{
    let written = if given.version == 2 {
        write_doc_2(&given.doc, &mut answer.told)
    } else {
        write_doc(&given.doc, &mut answer.told)
    };
    written?;
    answer.last = LastLine::checked(number, given.name.slice());
    Ok(())
}
