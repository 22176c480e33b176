//! Presentations under their names.

ghost use Rattle.std.specs.Prelude.{◌≡◌, ℕ, ◌≤◌, ◌-◌, ◌++◌, ◌∷◌, [], drop, length, Result, Ok, Err, None, Some, false, OnOk, OnErr, IfOk, IfErr, IfSome};
ghost use Rattle.smil_model.specs.declared.order.Refusal.TheVariants as refusal;
ghost use Rattle.smil_model.specs.shown.Answers.{IsGiven};
ghost use Rattle.smil_report.specs.Tellings.{is_telling};
ghost use Rattle.smil_house.specs.House.{place_of, load_refusal, moment_of, named, without, AreKept, IsAnsweredBy, IsRecordedBy, IsRefused};
ghost use Rattle.smil_house.specs.Marks.{mark_of};
ghost use Rattle.smil_house.specs.Next.{NothingChangesBefore, next_in};
ghost use Rattle.smil_house.specs.Screen.{element_in, found_in};

use super::player::Player;
use super::screen::OnScreen;
use smil_interval::Steps;
use smil_model::{Bytes, Order, PRESENTATIONS, Refusal, Who};
use smil_report::Changes;
use std::alloc::{AllocError, Global};
use std::marker::Model;
use std::sync::ledger::Ledger;

/// What keeps a presentation, under its name.
#[derive(Drop)]
pub struct NamedPlayer<P> {
    pub name: Bytes,
    pub player: P,
}

/// At most `PRESENTATIONS` presentations, each under its name, seen as the list of them in the
/// order in which they were loaded. The marks of their names stand close together, so that a name
/// is found without a look at each.
#[derive(Drop)]
pub struct House<P> {
    held: Vec<NamedPlayer<P>>,
    marks: Vec<u32>,
}

impl<P> Model for House<P> {
    ghost use Rattle.std.specs.Prelude.{◌≡◌, List, length, ◌≤◌, vec_capacity};
    ghost use Rattle.smil_model.specs.declared.limits.TheConstants.{PRESENTATIONS as the_most};
    ghost use Rattle.smil_house.specs.Marks.{marks_of};
    ghost use Rattle.smil_house.specs.declared.house.NamedPlayer.{NamedPlayer as AnyHeld};

    ghost Value = { List (AnyHeld P) };

    ghost view = { λ h. h.held.items };

    ghost invariant = { λ h. (length h.held.items ≤ the_most) × (the_most ≤ vec_capacity h.held)
        × (the_most ≤ vec_capacity h.marks) × (h.marks.items ≡ marks_of h.held.items) };
}

impl<P: Player + Drop> House<P> {
    /// No presentation, with room for `PRESENTATIONS`; unless memory runs out.
    pub fn new(alloc: Global) -> Result<House<P>, AllocError>
        ensures { IfOk result (λ house. house ≡ []) }
    {
        Ok(House {
            held: Vec::with_capacity(alloc, PRESENTATIONS)?,
            marks: Vec::with_capacity(alloc, PRESENTATIONS)?,
        })
    }

    /// Whether a presentation may be loaded under this name. Refused with `NameTaken` where one is
    /// held under it, and else with `TooManyPresentations` where there are `PRESENTATIONS` already.
    /// It takes no memory.
    pub fn may_load(&self, name: &[u8]) -> Result<(), Refusal>
        ensures { result ≡ load_refusal name.now self.now }
    {
        if self.index_of(name).is_some() {
            Err(Refusal::NameTaken)
        } else if self.held.len() == PRESENTATIONS {
            Err(Refusal::TooManyPresentations)
        } else {
            Ok(())
        }
    }

    /// Holds a presentation under this name, behind all others. It may be loaded. It takes no
    /// memory.
    pub fn load(&mut self, name: Bytes, player: P)
        requires { load_refusal name self.old ≡ Ok tt }
        ensures { self.new ≡ self.old ++ record { name = name; player = player } ∷ [] }
    {
        self.marks.push(mark_of(name.slice())).unwrap();
        self.held.push(NamedPlayer { name, player }).unwrap();
    }

    /// Answers an order to the presentation of this name: appends its text but for the `ok` line,
    /// and gives its moment, in milliseconds of document time. `NoPresentation` where there is none
    /// of this name, and else the first refusal of the presentation, or `Memory`. All others stay
    /// as they are, and after a refusal all and the text are as before.
    pub fn answer<L: Ledger>(
        &mut self,
        name: &[u8],
        order: &Order,
        out: &mut Bytes,
        steps: &mut Steps<L>,
    ) -> Result<i64, Refusal>
        requires given { IsGiven order.now }
        ensures ok { IfOk result (IsAnsweredBy P.formats P.presentation P.least_steps P.most_steps
            name.now order.now self.old self.new (drop (length out.old) out.new)
            (steps.new - steps.old)) }
        ensures appended { OnOk result (out.new ≡ out.old ++ drop (length out.old) out.new) }
        ensures refused { IfErr result
            (IsRefused P.formats P.presentation P.most_steps name.now order.now self.old
            (steps.new - steps.old)) }
        ensures kept { OnErr result (AreKept P.formats P.presentation name.now self.old self.new) }
        ensures text { OnErr result (out.new ≡ out.old) }
        ensures counted { steps.old ≤ steps.new }
    {
        let Some(index) = self.index_of(name) else {
            return Err(Refusal::NoPresentation);
        };
        let player = &mut self.held[index].player;
        player.answer(order, out, steps)?;
        Ok(player.now())
    }

    /// Answers an order that may change something to the presentation of this name, as `answer`
    /// does, but appends what it changes as records in the place of their lines.
    pub fn record<L: Ledger>(
        &mut self,
        name: &[u8],
        order: &Order,
        out: &mut Changes,
        steps: &mut Steps<L>,
    ) -> Result<i64, Refusal>
        requires given { IsGiven order.now }
        requires changes { is_telling order.now ≡ false }
        ensures ok { IfOk result (IsRecordedBy P.formats P.presentation P.least_steps P.most_steps
            name.now order.now self.old self.new (drop (length out.old) out.new)
            (steps.new - steps.old)) }
        ensures appended { OnOk result (out.new ≡ out.old ++ drop (length out.old) out.new) }
        ensures refused { IfErr result
            (IsRefused P.formats P.presentation P.most_steps name.now order.now self.old
            (steps.new - steps.old)) }
        ensures kept { OnErr result (AreKept P.formats P.presentation name.now self.old self.new) }
        ensures records { OnErr result (out.new ≡ out.old) }
        ensures counted { steps.old ≤ steps.new }
    {
        let Some(index) = self.index_of(name) else {
            return Err(Refusal::NoPresentation);
        };
        let held = &mut self.held[index];
        held.player.record(order, out, steps)?;
        Ok(held.player.now())
    }

    /// Closes the presentation of this name. `NoPresentation` exactly where there is none, and then
    /// all is as before. It takes no memory.
    pub fn close(&mut self, name: &[u8]) -> Result<(), Refusal>
        ensures absent { place_of name.now self.old ≡ None → result ≡ Err refusal.NoPresentation }
        ensures closed { (place : ℕ) → place_of name.now self.old ≡ Some place → (result ≡ Ok tt)
            × (self.new ≡ without place self.old) }
        ensures kept { OnErr result (self.new ≡ self.old) }
    {
        let Some(index) = self.index_of(name) else {
            return Err(Refusal::NoPresentation);
        };
        self.marks.remove(index);
        self.held.remove(index);
        Ok(())
    }

    /// The moment of the presentation of this name, in milliseconds of document time; None exactly
    /// where there is none. It takes no memory.
    pub fn moment(&self, name: &[u8]) -> Option<i64>
        ensures { result ≡ moment_of P.presentation name.now self.now }
    {
        match self.index_of(name) {
            Some(index) => Some(self.held[index].player.now()),
            None => None,
        }
    }

    /// The moment at which something comes next in the presentation of this name, in milliseconds
    /// of document time, if no order comes before; None where nothing does, or there is none. An
    /// advance to a moment before it changes nothing. It takes no memory.
    pub fn next_due(&self, name: &[u8]) -> Option<i64>
        ensures next { result ≡ next_in P.presentation name.now self.now }
        ensures quiet { IfSome (named name.now self.now)
            (λ held. NothingChangesBefore result (P.presentation held.player)) }
    {
        match self.index_of(name) {
            Some(index) => self.held[index].player.next_due(),
            None => None,
        }
    }

    /// The serial of a node of the presentation of this name, by its id or its serial; None where
    /// there is no such node, or no such presentation. It takes no memory.
    pub fn find(&self, name: &[u8], who: &Who) -> Option<u32>
        ensures { result ≡ found_in P.presentation who.now name.now self.now }
    {
        match self.index_of(name) {
            Some(index) => self.held[index].player.find(who),
            None => None,
        }
    }

    /// What is on the screen of the element at a place in document order, from 0, of the
    /// presentation of this name; None past the last one, or where there is no such presentation.
    /// It takes no memory.
    pub fn on_screen(&self, name: &[u8], index: usize) -> Option<OnScreen>
        ensures { result ≡ element_in P.presentation index name.now self.now }
    {
        match self.index_of(name) {
            Some(place) => self.held[place].player.on_screen(index),
            None => None,
        }
    }

    // The index of the presentation of this name.
    fn index_of(&self, name: &[u8]) -> Option<usize>
        ensures { result ≡ place_of name.now self.now }
    {
        let mark = mark_of(name);
        for index in 0..self.marks.len() {
            if self.marks[index] == mark && self.held[index].name.slice() == name {
                return Some(index);
            }
        }
        None
    }
}

// The mark of a name: a number that follows from its bytes, so that names of different marks
// differ.
fn mark_of(name: &[u8]) -> u32
    ensures { result ≡ mark_of name.now }
{
    name.iter().fold(0, |mark: u32, byte: &u8| {
        mark.wrapping_mul(31).wrapping_add(u32::from(*byte))
    })
}
