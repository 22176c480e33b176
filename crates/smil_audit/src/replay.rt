//! A resolution made anew, as far as a diary agrees with it.

ghost use Rattle.std.specs.Prelude.{true, ◌≡◌, ◌≤◌, ◌≤ℤ◌, ◌++◌, ◌+◌, ◌-◌, ◌*◌, ℤ, List, pos, nat_abs, length, take, Some, IfOk, OnOk, option_map};
ghost use Rattle.smil_model.specs.declared.times.TheConstants.{HORIZON as the_horizon};
ghost use Rattle.smil_model.specs.declared.limits.TheConstants.{DIARY_ENTRIES as the_entries};
ghost use Rattle.smil_model.specs.document.Document.{elements};
ghost use Rattle.smil_model.specs.document.Valid.{IsValid};
ghost use Rattle.smil_model.specs.diary.Lawful.{has_element};
ghost use Rattle.smil_model.specs.happening.Groups.{group as group_at};
ghost use Rattle.smil_past.specs.Past as past_of;
ghost use Rattle.smil_rounds.specs.Appended.{MayAppendAll};
ghost use Rattle.smil_rounds.specs.Current.{IsCurrent};
ghost use Rattle.smil_rounds.specs.Round.{AreOfElements, IsRowEvaluated, due_in, keys_in};
ghost use Rattle.smil_element.specs.Parts.{coming_meant, meant};
ghost use Rattle.smil_audit.specs.Replayed.{Follows, IsLastOr, IsLate, IsPassed, IsQuietUntil, IsUntil, NothingDue, begun, first_at, next_logged};
ghost use Rattle.smil_audit.specs.Steps.{AgreesTo, IsReplay, MayTakeIn, TakenIn, WentBy, replayed};

use super::entries::agreed;
use smil_due::least_scan;
use smil_element::{DueChange, Parts, Present, Room, group_of};
use smil_interval::Steps;
use smil_laws::courses::reached_is_past;
use smil_laws::firsts::first_is_of_element;
use smil_laws::laws::quiet_may_be_jumped;
use smil_laws::near::resolved_is_near;
use smil_laws::stays::time_passes_quietly;
use smil_model::{Doc, Duplicate, Entry, Key, Log, Step};
use smil_past::Past;
use smil_rounds::current_rows::{CurrentRow, CurrentRows, IndexedElement, row_of};
use smil_rounds::groups::{append_all, fill_group};
use smil_tree::Tree;
use std::alloc::{AllocError, Global};
use std::sync::ledger::Ledger;

/// How far a diary agrees with a resolution, and whether the resolution ends there.
#[derive(Clone, Copy)]
pub struct Agreement {
    pub same: usize,
    pub ended: bool,
}

/// What a step of a resolution came to: entries that agree with a diary, one that doesn't, at this
/// index of the diary, or the end.
#[derive(Clone, Copy)]
pub enum Went {
    On,
    Off { index: usize },
    Ended,
}

/// A document whose resolution is made anew with a log, up to a last moment in milliseconds of
/// document time, from nothing: after each step all elements are evaluated, and the least key is
/// looked for among all.
pub struct Replay {
    past: Past,
    moment: i64,
    heard: usize,
    last: i64,
    known: CurrentRows,
    keys: Vec<Key>,
    group: Vec<Entry>,
    room: Room,
}

impl Drop for Replay {
    // Dropped by a call of its own, not field by field in each function that drops one.
    fn drop(self) {
        let Replay {
            past: _past,
            moment: _moment,
            heard: _heard,
            last: _last,
            known: _known,
            keys: _keys,
            group: _group,
            room: _room,
        } = self;
    }
}

impl Replay {
    /// A valid document to which nothing has happened yet, with a log of which nothing was heard
    /// yet, and a last moment from 0 to 10^12; unless memory runs out.
    pub fn new(alloc: Global, doc: &Doc, log: Log, last: i64) -> Result<Replay, AllocError>
        requires valid { IsValid doc.now }
        requires from { pos 0 ≤ℤ last }
        requires within { last ≤ℤ the_horizon }
        ensures begun { IfOk result (λ r. replayed r ≡ begun doc.now log (nat_abs last)) }
        ensures sound { IfOk result IsReplay }
    {
        let tree = Tree::of_doc(alloc, doc.copy()?)?;
        let past = Past::new(alloc, tree, log)?;
        let known = CurrentRows::of(alloc, &past)?;
        Ok(Replay {
            past,
            moment: 0,
            heard: 0,
            last,
            known,
            keys: Vec::new(alloc),
            group: Vec::new(alloc),
            room: Room::new(alloc),
        })
    }

    /// How many entries of a diary agree with the resolution, which goes on until one differs, or
    /// until its end. The diary is what the resolution came to, and goes on with at most so many
    /// entries that there are 1,000,000. Refused where memory runs out. All elements are evaluated
    /// at most once for each entry with which the diary goes on, and once more.
    pub fn agreed<L: Ledger>(
        &mut self,
        given: &[Entry],
        steps: &mut Steps<L>,
    ) -> Result<Agreement, AllocError>
        requires sound { IsReplay self.old }
        requires follows { Follows (replayed self.old) given.now }
        requires few { length given.now ≤ the_entries }
        ensures agrees { IfOk result (AgreesTo (replayed self.old) given.now) }
        ensures counted { steps.old ≤ steps.new }
        ensures most { steps.new ≤ steps.old + (length given.now - length self.old.past.diary + 1)
            * length (elements self.old.past.document.nodes) }
    {
        'steps: loop {
            match self.go_on(given, steps)? {
                Went::On => (),
                Went::Off { index } => {
                    return Ok(Agreement {
                        same: index,
                        ended: false,
                    });
                }
                Went::Ended => {
                    return Ok(Agreement {
                        same: self.past.book().len(),
                        ended: true,
                    });
                }
            }
        }
    }

    // Goes on by what comes first, or by what is logged before that, at its moment; where that
    // agrees with the diary.
    fn go_on<L: Ledger>(
        &mut self,
        given: &[Entry],
        steps: &mut Steps<L>,
    ) -> Result<Went, AllocError>
        requires sound { IsReplay self.old }
        requires follows { Follows (replayed self.old) given.now }
        requires few { length given.now ≤ the_entries }
        ensures went { IfOk result (WentBy (replayed self.old) (replayed self.new) given.now) }
        ensures sound { OnOk result (IsReplay self.new) }
        ensures counted { steps.old ≤ steps.new }
        ensures most { steps.new ≤ steps.old + length (elements self.old.past.document.nodes) }
    {
        let first = self.first(steps)?;
        let until = self.until();
        match first {
            Some(coming) if coming.key.value <= until => {
                self.come_to(coming, until);
                self.happen(coming, given)
            }
            _ => {
                self.wait(until);
                self.hear(given)
            }
        }
    }

    // The moment of the next log entry where that is before the last moment, else the last moment;
    // the present one where it is later.
    fn until(&self) -> i64
        requires { IsReplay self.now }
        ensures { IsUntil (replayed self.now) result }
    {
        match self.past.log().get(self.heard) {
            Some(entry) if entry.moment < self.last => entry.moment.max(self.moment),
            _ => self.last,
        }
    }

    // Moves on to the moment of what comes first, where that is later; nothing is logged before it.
    fn come_to(&mut self, coming: DueChange, until: i64)
        requires sound { IsReplay self.old }
        requires is { IsUntil (replayed self.old) until }
        requires first { first_at (replayed self.old) ≡ Some (coming_meant coming) }
        requires due { coming.key.value ≤ℤ until }
        ensures passed { IsPassed (replayed self.old) (replayed self.new) }
        ensures sound { IsReplay self.new }
        ensures first { first_at (replayed self.new) ≡ Some (coming_meant coming) }
        ensures due { coming.key.value ≤ℤ self.new.moment }
    {
        if self.moment < coming.key.value {
            self.pass_to(coming.key.value);
        }
    }

    // Moves on to a moment before which nothing is logged, and up to which nothing comes.
    fn wait(&mut self, until: i64)
        requires sound { IsReplay self.old }
        requires is { IsUntil (replayed self.old) until }
        requires late { IsLate (first_at (replayed self.old)) until }
        ensures passed { IsPassed (replayed self.old) (replayed self.new) }
        ensures sound { IsReplay self.new }
        ensures quiet { NothingDue (replayed self.new) }
        ensures edge { IsLastOr (nat_abs self.new.last) self.new.moment
            (next_logged (replayed self.new)) }
    {
        if self.moment < until {
            self.pass_to(until);
        }
    }

    // Moves on to a later moment, before which nothing comes and nothing is logged.
    fn pass_to(&mut self, moment: i64)
        requires sound { IsReplay self.old }
        requires from { self.old.moment ≤ℤ moment }
        requires within { moment ≤ℤ self.old.last }
        requires quiet { IsQuietUntil (replayed self.old) moment }
        ensures moved { self.new ≡ record self.old { moment = moment } }
        ensures sound { IsReplay self.new }
        ensures first { first_at (replayed self.new) ≡ first_at (replayed self.old) }
    {
        quiet_may_be_jumped();
        time_passes_quietly();
        reached_is_past();
        self.past.possible();
        self.moment = moment;
    }

    // What comes first: all elements are evaluated, and the least key is looked for.
    fn first<L: Ledger>(&mut self, steps: &mut Steps<L>) -> Result<Option<DueChange>, AllocError>
        requires { IsReplay self.old }
        ensures sound { OnOk result (IsReplay self.new) }
        ensures same { OnOk result (replayed self.new ≡ replayed self.old) }
        ensures first { IfOk result (λ first. option_map coming_meant first
            ≡ first_at (replayed self.old)) }
        ensures counted { steps.old ≤ steps.new }
        ensures most { steps.new ≤ steps.old + length (elements self.old.past.document.nodes) }
    {
        evaluate_all(
            &self.past,
            self.moment,
            &mut self.known,
            &mut self.room,
            steps,
        )?;
        fill_keys(self.known.rows(), &mut self.keys)?;
        match least_scan(&self.keys) {
            Some(key) => Ok(self.known.coming(key)),
            None => Ok(None),
        }
    }

    // Appends the group of what comes first, which is due, where it agrees with the diary.
    fn happen(&mut self, coming: DueChange, given: &[Entry]) -> Result<Went, AllocError>
        requires sound { IsReplay self.old }
        requires first { first_at (replayed self.old) ≡ Some (coming_meant coming) }
        requires due { coming.key.value ≤ℤ self.old.moment }
        requires follows { Follows (replayed self.old) given.now }
        requires few { length given.now ≤ the_entries }
        ensures went { IfOk result (WentBy (replayed self.old) (replayed self.new) given.now) }
        ensures sound { OnOk result (IsReplay self.new) }
    {
        first_is_of_element();
        resolved_is_near();
        reached_is_past();
        self.past.possible();
        fill_group(&self.past, self.moment, coming, &mut self.group)?;
        self.go_through(self.heard, given)
    }

    // Appends that the next log entry was heard, where there is one that is not later than the
    // present moment and the diary agrees; else the resolution has ended. Nothing that comes is due,
    // and the present moment is that of the log entry, or the last one.
    fn hear(&mut self, given: &[Entry]) -> Result<Went, AllocError>
        requires sound { IsReplay self.old }
        requires quiet { NothingDue (replayed self.old) }
        requires edge { IsLastOr (nat_abs self.old.last) self.old.moment
            (next_logged (replayed self.old)) }
        requires follows { Follows (replayed self.old) given.now }
        requires few { length given.now ≤ the_entries }
        ensures went { IfOk result (WentBy (replayed self.old) (replayed self.new) given.now) }
        ensures sound { OnOk result (IsReplay self.new) }
    {
        resolved_is_near();
        reached_is_past();
        self.past.possible();
        match self.past.log().get(self.heard) {
            Some(entry) if entry.moment <= self.moment => {
                self.group.clear();
                self.group.push(Entry {
                    moment: self.moment,
                    step: Step::Logged {
                        place: self.heard as u32,
                    },
                })?;
                self.go_through(self.heard + 1, given)
            }
            _ => Ok(Went::Ended),
        }
    }

    // Appends the entries of a step, after which so much was heard, where they agree with the diary.
    fn go_through(&mut self, heard: usize, given: &[Entry]) -> Result<Went, AllocError>
        requires sound { IsReplay self.old }
        requires step { MayTakeIn self.old heard }
        requires follows { Follows (replayed self.old) given.now }
        requires few { length given.now ≤ the_entries }
        ensures went { IfOk result (WentBy (replayed self.old) (replayed self.new) given.now) }
        ensures sound { OnOk result (IsReplay self.new) }
    {
        match take_in(&mut self.past, &self.group, given)? {
            Some(index) => Ok(Went::Off { index }),
            None => {
                self.heard = heard;
                Ok(Went::On)
            }
        }
    }
}

// Appends the entries of a step where they agree with a diary, of which what has happened is the
// front; else gives the index of the first entry that differs.
fn take_in(past: &mut Past, group: &[Entry], given: &[Entry]) -> Result<Option<usize>, AllocError>
    requires may { MayAppendAll past.old group.now }
    requires follows { take (length past.old.diary) given.now ≡ past.old.diary }
    requires few { length given.now ≤ the_entries }
    ensures { IfOk result (TakenIn past.old group.now given.now past.new) }
{
    let from = past.book().len();
    let same = agreed(&given[from..], group);
    if same < group.len() {
        return Ok(Some(from + same));
    }
    match append_all(past, group) {
        Ok(()) => Ok(None),
        Err(_) => Err(AllocError),
    }
}

// Evaluates all elements of what has happened at a moment.
fn evaluate_all<L: Ledger>(
    past: &Past,
    moment: i64,
    known: &mut CurrentRows,
    room: &mut Room,
    steps: &mut Steps<L>,
) -> Result<(), AllocError>
    requires moment { past_of.IsPresent past.now moment }
    requires of_elements { AreOfElements past.now.document.nodes known.old }
    ensures current { OnOk result (IsCurrent known.new (due_in known.new)
        (past_of.history_of past.now) moment) }
    ensures counted { steps.old ≤ steps.new }
    ensures steps { OnOk result (steps.new ≡ steps.old
        + length (elements past.now.document.nodes)) }
    ensures most { steps.new ≤ steps.old + length (elements past.now.document.nodes) }
{
    past.possible();
    for who in past.graph().order() {
        let present = Present {
            past,
            who: *who,
            moment,
        };
        evaluate(&present, known, room, steps)?;
    }
    Ok(())
}

// Evaluates an element, and puts its row in the place of the one that it had.
fn evaluate<L: Ledger>(
    present: &Present<'_>,
    known: &mut CurrentRows,
    room: &mut Room,
    steps: &mut Steps<L>,
) -> Result<(), AllocError>
    requires element { has_element present.now.past.now.document.nodes present.now.who ≡ true }
    requires moment { past_of.IsPresent present.now.past.now present.now.moment }
    requires of_elements { AreOfElements present.now.past.now.document.nodes known.old }
    ensures evaluated { OnOk result (IsRowEvaluated (past_of.history_of present.now.past.now)
        present.now.moment present.now.who known.old known.new) }
    ensures counted { steps.old ≤ steps.new }
    ensures steps { OnOk result (steps.new ≡ steps.old + 1) }
    ensures most { steps.new ≤ steps.old + 1 }
{
    present.past.possible();
    let index = known.index_of(present.who).unwrap();
    let element = IndexedElement {
        present: *present,
        index,
    };
    let row = row_of(&element, known, room, steps)?;
    known.put(index, row);
    Ok(())
}

// Fills a list with the keys of what comes of the elements that have these rows.
fn fill_keys(rows: &[CurrentRow], keys: &mut Vec<Key>) -> Result<(), AllocError>
    ensures { OnOk result (keys.new.items ≡ keys_in rows.now) }
{
    keys.clear();
    for row in rows {
        if let Some(moved) = row.comings.moved() {
            keys.push(moved.key)?;
        }
        if let Some(repeat) = row.comings.repeat() {
            keys.push(repeat.key)?;
        }
    }
    Ok(())
}
