//! Lines of an outline, chosen one by one.

ghost use Rattle.std.specs.Prelude.{◌≡◌, ◌<◌, ◌≤◌, ◌+◌, ◌∷◌, [], ◌++◌, take, length, slice_get, count_by, Some, Ok, IfSome, IfOk, IfErr, OnOk, OnErr, ◌^◌, ◌-◌};
ghost use Rattle.smil_model.specs.declared.order.Refusal.TheVariants.{Memory};
ghost use Rattle.smil_switch.specs.declared.chosen.Chosen.TheVariants.{Kept};
ghost use Rattle.std.specs.List.{prefix_len};
ghost use Rattle.smil_grammar.specs.Nodes.{is_space, shape_of};
ghost use Rattle.smil_attrs.specs.Within.{AllWithin};
ghost use Rattle.smil_model.specs.shown.Answers.{IsText};
ghost use Rattle.smil_switch.specs.declared.chosen.Below.TheVariants as BelowValue;
ghost use Rattle.smil_switch.specs.Choices.{unchosen, pushed, seen, tested, behind_kept as behind_kept_level, is_of_switch as is_of_switch_level, raised as raised_in, with_levels};
ghost use Rattle.smil_switch.specs.Gives.{GivesChosen};

use super::choice::{holds, is_plain, is_switch, repeats_test, without_tests};
use super::chosen::{Below, Chosen};
use super::preferences::Preferences;
use smil_attrs::Shape;
use smil_lexis::runs;
use smil_lexis::texts::past;
use smil_model::{Bytes, Refusal};
use std::alloc::{AllocError, Global};
use std::marker::Model;
use std::mem::replace;

/// How the lines below each open line fare, from the outline down.
#[derive(Drop)]
pub struct Levels {
    levels: Vec<Below>,
}

impl Model for Levels {
    ghost use Rattle.std.specs.Prelude.{List};
    ghost use Rattle.smil_switch.specs.declared.chosen.Below.{Below as BelowValue};

    ghost Value = { List BelowValue };

    ghost view = { λ a. a.levels.items };
}

// Whether a level is that of a switch.
fn is_of_switch(below: Below) -> bool
    ensures { result ≡ is_of_switch_level below }
{
    matches!(below, Below::Switch | Below::Taken)
}

// How other lines fare beside one that was kept.
fn behind_kept(below: Below) -> Below
    ensures { result ≡ behind_kept_level below }
{
    match below {
        Below::Switch => Below::Taken,
        other => other,
    }
}

impl Levels {
    /// Before the first line, unless memory runs out.
    pub fn new(alloc: Global) -> Result<Levels, AllocError>
        ensures { IfOk result (λ levels. levels ≡ BelowValue.Open ∷ []) }
    {
        let mut levels = Vec::new(alloc);
        levels.push(Below::Open)?;
        Ok(Levels { levels })
    }

    /// How lines at this depth fare; none is so deep.
    pub fn at(&self, depth: usize) -> Option<Below>
        ensures { result ≡ slice_get self.now depth }
    {
        self.levels.get(depth).copied()
    }

    /// How many switches a line at this depth stands below.
    pub fn switches(&self, depth: usize) -> usize
        requires { depth < length self.now }
        ensures { result ≡ count_by is_of_switch_level (take (depth + 1) self.now) }
    {
        self.levels[..=depth]
            .iter()
            .filter(|below| is_of_switch(**below))
            .count()
    }

    // Puts the level at this depth, the last one, and one below it.
    #[tactic(auto, using(crate::proofs::LastLevels::put_behind))]
    fn put_last(&mut self, depth: usize, beside: Below, below: Below) -> Result<(), AllocError>
        requires { length self.old ≡ depth + 1 }
        ensures ok { OnOk result (self.new ≡ take depth self.old ++ beside ∷ below ∷ []) }
        ensures err { OnErr result (self.new ≡ self.old) }
    {
        self.levels.push(below)?;
        self.levels[depth] = beside;
        Ok(())
    }

    // Puts the level at this depth, and the one below it in place of all below.
    #[tactic(auto, using(crate::proofs::LastLevels::put_among))]
    fn put_among(&mut self, depth: usize, beside: Below, below: Below)
        requires { depth + 1 < length self.old }
        ensures { self.new ≡ take depth self.old ++ beside ∷ below ∷ [] }
    {
        self.levels.truncate(depth + 2);
        self.levels[depth + 1] = below;
        self.levels[depth] = beside;
    }

    // How many levels there are.
    fn len(&self) -> usize
        ensures { result ≡ length self.now }
    {
        self.levels.len()
    }

    /// Puts a line at this depth: how those beside it fare, and those below it. Where memory runs
    /// out, the levels are as before.
    pub fn put(&mut self, depth: usize, beside: Below, below: Below) -> Result<(), AllocError>
        requires { depth < length self.old }
        ensures ok { OnOk result (self.new ≡ take depth self.old ++ beside ∷ below ∷ []) }
        ensures err { OnErr result (self.new ≡ self.old) }
    {
        if self.len() == depth + 1 {
            return self.put_last(depth, beside, below);
        }
        self.put_among(depth, beside, below);
        Ok(())
    }
}

/// Chooses among the lines of an outline, by preferences; seen as these, how the lines below each
/// open line fare, and the last line that was kept.
#[derive(Drop)]
pub struct Chooser {
    alloc: Global,
    wanted: Preferences,
    levels: Levels,
    line: Bytes,
    /// The line kept before it, for its memory.
    spare: Bytes,
}

impl Model for Chooser {
    ghost use Rattle.smil_switch.specs.Choices.{Choice};

    ghost Value = { Choice };

    ghost view = { λ a. record { wanted = a.wanted; levels = a.levels; line = a.line } };
}

// The shape of a line behind so many spaces.
fn shape_in<'a>(text: &'a [u8], spaces: usize) -> Option<Shape<'a>>
    requires { length text.now + spaces < 2 ^ 31 }
    ensures shape { result ≡ shape_of text.now }
    ensures within { IfSome result (λ shape. AllWithin (2 ^ 31 - spaces) shape.attributes) }
{
    Shape::of(text)
}

impl Chooser {
    /// Before the first line, by these preferences, unless memory runs out.
    pub fn new(alloc: Global, preferences: &Preferences) -> Result<Chooser, AllocError>
        ensures { IfOk result (λ chooser. chooser ≡ unchosen preferences.now) }
    {
        Ok(Chooser {
            alloc,
            wanted: preferences.copy()?,
            levels: Levels::new(alloc)?,
            line: Bytes::new(alloc),
            spare: Bytes::new(alloc),
        })
    }

    /// The last line that was kept, with spaces in the place of its tests. It takes no memory.
    pub fn line(&self) -> &[u8]
        ensures { result.now ≡ self.now.line }
    {
        self.line.slice()
    }

    // Keeps this line at this depth, below a level that is open to it.
    fn keep(&mut self, depth: usize, parent: Below, line: Bytes) -> Result<Chosen, Refusal>
        requires depth { depth < 2 ^ 31 }
        requires level { slice_get self.old.levels depth ≡ Some parent }
        ensures ok { IfOk result (λ answer. answer ≡ Kept (raised_in self.old depth)) }
        ensures new { OnOk result (self.new ≡ record (with_levels self.old depth
            (behind_kept_level parent) BelowValue.Open) { line = line }) }
        ensures err { IfErr result (λ refusal. refusal ≡ Memory) }
        ensures unchanged { OnErr result (self.new ≡ self.old) }
    {
        let removed = self.levels.switches(depth) as u32;
        self.levels.put(depth, behind_kept(parent), Below::Open)?;
        self.spare = replace(&mut self.line, line);
        Ok(Chosen::Kept { removed })
    }

    // Keeps this line as it is, at this depth, below a level that is open to it.
    fn keep_whole(&mut self, depth: usize, parent: Below, line: &[u8]) -> Result<Chosen, Refusal>
        requires depth { depth < 2 ^ 31 }
        requires level { slice_get self.old.levels depth ≡ Some parent }
        ensures { GivesChosen self.old result self.new (Ok (
          record (with_levels self.old depth
              (behind_kept_level parent) BelowValue.Open) { line = line.now },
          Kept (raised_in self.old depth),
        )) }
    {
        let mut kept = replace(&mut self.spare, Bytes::new(self.alloc));
        kept.cut_back(0);
        kept.append(line)?;
        self.keep(depth, parent, kept)
    }

    // A line of this shape, below a level that is open to it.
    fn judge(
        &mut self,
        depth: usize,
        parent: Below,
        line: &[u8],
        spaces: usize,
        shape: &Shape<'_>,
    ) -> Result<Chosen, Refusal>
        requires depth { depth < 2 ^ 31 }
        requires spaces { spaces ≤ 2 ^ 31 }
        requires level { slice_get self.old.levels depth ≡ Some parent }
        requires within { AllWithin (2 ^ 31 - spaces) shape.now.attributes }
        ensures { GivesChosen self.old result self.new (tested self.old depth parent (record
            { line = line.now; spaces = spaces; shape = Some shape.now })) }
    {
        if repeats_test(shape) {
            return Err(Refusal::BadOutline);
        }
        if !holds(&self.wanted, spaces, shape)? {
            self.levels.put(depth, parent, Below::Aside)?;
            return Ok(Chosen::Dropped);
        }
        if is_switch(shape) {
            self.levels.put(depth, behind_kept(parent), Below::Switch)?;
            return Ok(Chosen::Dropped);
        }
        let kept = without_tests(self.alloc, line, spaces, shape)?;
        self.keep(depth, parent, kept)
    }

    // A line behind so many spaces, below a level that is open to it.
    #[tactic(auto, using(crate::proofs::PlainLines::plain_kept))]
    fn choose(
        &mut self,
        depth: usize,
        parent: Below,
        line: &[u8],
        spaces: usize,
    ) -> Result<Chosen, Refusal>
        requires depth { depth < 2 ^ 31 }
        requires spaces { spaces ≡ prefix_len is_space line.now }
        requires within { spaces ≤ length line.now }
        requires text { length line.now < 2 ^ 31 }
        requires level { slice_get self.old.levels depth ≡ Some parent }
        ensures { GivesChosen self.old result self.new
            (tested self.old depth parent (seen line.now)) }
    {
        let text = past(line, spaces);
        if is_plain(text) {
            return self.keep_whole(depth, parent, line);
        }
        match shape_in(text, spaces) {
            Some(shape) => self.judge(depth, parent, line, spaces, &shape),
            None => self.keep_whole(depth, parent, line),
        }
    }

    /// One more line, of fewer than 2,147,483,648 bytes without its line feed: whether it is kept,
    /// and how many levels higher.
    ///
    /// A line whose tests don't hold is dropped with all below it. A switch is replaced by the first
    /// line below it whose tests hold, chosen further in the same way; those behind that one are
    /// set aside. Refused, in this order: `BadOutline` for an odd number of spaces before it; and
    /// where the line isn't set aside, `BadOutline` for a test that stands twice, or in a switch
    /// any attribute; `DepthJump` more than one level below the line before; then from left to
    /// right `BadValue` for a test whose value has no reading, `Unsupported` for a test that is
    /// left out, and in a switch `UnknownAttribute` for any attribute but `id` and tests, with
    /// their columns from 1. `Memory` may come at any line. After a refusal all is as before. SMIL
    /// 3.0, "The switch element".
    pub fn push(&mut self, line: &[u8]) -> Result<Chosen, Refusal>
        requires { IsText line.now }
        ensures { GivesChosen self.old result self.new (pushed self.old line.now) }
    {
        let spaces = runs::spaces(line);
        if spaces % 2 == 1 {
            return Err(Refusal::BadOutline);
        }
        let depth = spaces / 2;
        match self.levels.at(depth) {
            Some(parent @ (Below::Aside | Below::Taken)) => {
                self.levels.put(depth, parent, Below::Aside)?;
                Ok(Chosen::Dropped)
            }
            Some(parent) => self.choose(depth, parent, line, spaces),
            None => match shape_in(past(line, spaces), spaces) {
                Some(shape) if repeats_test(&shape) => Err(Refusal::BadOutline),
                _ => Err(Refusal::DepthJump),
            },
        }
    }
}
