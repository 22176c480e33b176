//! The lines of a load: chosen, rewritten and read.

ghost use Rattle.std.specs.Prelude.{◌≡◌, ◌≤◌, ◌+◌, ◌*◌, Some, None, Ok, unwrap_or, IfOk, IfErr, OnOk};
ghost use Rattle.smil_model.specs.declared.limits.TheConstants.{LINE_BYTES};
ghost use Rattle.smil_model.specs.document.Limits.{limits};
ghost use Rattle.smil_model.specs.document.Valid.{IsValid};
ghost use Rattle.smil_model.specs.shown.Answers.{IsRefusedBy};
ghost use Rattle.smil_grammar.specs.Outlines.{ended, version_of};
ghost use Rattle.smil_outline.specs.Gives.{GivesDocument};
ghost use Rattle.smil_outline.specs.Steps.{last_column, HasNearColumn};
ghost use Rattle.smil_wall.specs.Rewriting.{FaultWithin};
ghost use Rattle.smil_top.specs.Loading.{unread, root_of as root_of_line, walled, wall_refusal, lowered as lowered_refusal, raised_within, with_root, kept_within, chosen_within, saved_within, loading_within, is_saved as is_saved_line, last_level, GivesText};

use smil_lexis::texts::past;
use smil_model::{Bytes, Doc, LINE_BYTES, Refusal};
use smil_outline::Builder;
use smil_switch::test_attributes::front;
use smil_switch::{Chooser, Chosen, Preferences};
use smil_wall::{WallFault, anchor, rewrite};
use std::alloc::{AllocError, Global};
use std::marker::Model;

/// The lines of a load so far; seen as whether there was none, the choice among them, the id of the
/// root by which items are rewritten once its line was kept, and the outline.
#[derive(Drop)]
pub(crate) struct Loading {
    alloc: Global,
    first: bool,
    chooser: Chooser,
    root: Option<Option<Bytes>>,
    outline: Box<Builder>,
}

impl Model for Loading {
    ghost use Rattle.smil_top.specs.Loading.{Loading as LoadingSoFar};

    ghost Value = { LoadingSoFar };

    ghost view = { λ a.
        record { first = a.first; choice = a.chooser; root = a.root; outline = a.outline.value } };
}

// The id of a root by which items are rewritten: none where its line has no id, or has a begin.
#[inline(never)]
fn root_of(alloc: Global, line: &[u8]) -> Result<Option<Bytes>, AllocError>
    ensures { IfOk result (λ root. root ≡ root_of_line line.now) }
{
    match anchor(line) {
        Some((place, length)) => Ok(Some(Bytes::of(alloc, front(past(line, place), length))?)),
        None => Ok(None),
    }
}

// The column from 1 of a place in a line.
fn column(place: usize) -> u32
    requires { place ≤ LINE_BYTES }
    ensures { result ≡ place + 1 }
{
    place as u32 + 1
}

// The refusal of a line that can't be rewritten.
fn refusal(fault: WallFault) -> Refusal
    requires { FaultWithin LINE_BYTES fault }
    ensures { result ≡ wall_refusal fault }
{
    match fault {
        WallFault::NoAnchor => Refusal::NoAnchor,
        WallFault::BadValue { place } => Refusal::BadValue {
            column: column(place),
        },
        WallFault::Unsupported { place } => Refusal::Unsupported {
            column: column(place),
        },
        WallFault::Memory => Refusal::Memory,
    }
}

// A column of a line that was raised by so many levels, in the line before.
fn behind(removed: u32, column: u32) -> u32
    requires levels { removed ≤ last_level }
    requires column { column ≤ 2 * last_column }
    ensures { result ≡ column + 2 * removed }
{
    column + 2 * removed
}

// The refusal of a line that was raised by so many levels: columns are those of the line before.
fn lowered(removed: u32, refusal: Refusal) -> Refusal
    requires levels { removed ≤ last_level }
    requires near { HasNearColumn refusal }
    ensures { result ≡ lowered_refusal removed refusal }
{
    match refusal {
        Refusal::UnknownAttribute { column } => Refusal::UnknownAttribute {
            column: behind(removed, column),
        },
        Refusal::Unsupported { column } => Refusal::Unsupported {
            column: behind(removed, column),
        },
        Refusal::BadValue { column } => Refusal::BadValue {
            column: behind(removed, column),
        },
        Refusal::TooManyItems { column } => Refusal::TooManyItems {
            column: behind(removed, column),
        },
        other => other,
    }
}

// Reads a line so many levels higher.
fn push_raised(outline: &mut Builder, text: &[u8], removed: u32) -> Result<(), Refusal>
    requires levels { removed ≤ last_level }
    ensures ok { OnOk result (raised_within limits outline.old text.now removed ≡ Ok outline.new) }
    ensures refusal { IfErr result
        (IsRefusedBy (raised_within limits outline.old text.now removed)) }
{
    if text.len() > LINE_BYTES {
        return Err(Refusal::LongLine);
    }
    let raised = past(text, 2 * removed as usize);
    if outline.opens(raised) {
        return Err(Refusal::BadOutline);
    }
    match outline.push(raised) {
        Ok(()) => Ok(()),
        Err(refusal) => Err(lowered(removed, refusal)),
    }
}

impl Loading {
    /// Before the first line, by these preferences; unless memory runs out.
    pub fn new(alloc: Global, preferences: &Preferences) -> Result<Loading, AllocError>
        ensures { IfOk result (λ loading. loading ≡ unread preferences.now) }
    {
        Ok(Loading {
            alloc,
            first: true,
            chooser: Chooser::new(alloc, preferences)?,
            root: None,
            outline: Box::new(alloc, Builder::new(alloc)?)?,
        })
    }

    /// The version of the outline: 2 exactly where a header was read, and else 1.
    pub fn version(&self) -> u32
        ensures { result ≡ version_of self.now.outline }
    {
        self.outline.version()
    }

    // Whether a line is of an outline with serials, or opens one.
    fn is_saved(&self, line: &[u8]) -> bool
        ensures { result ≡ is_saved_line self.now line.now }
    {
        self.version() == 2 || (self.first && self.outline.opens(line))
    }

    // A line of an outline with serials is read as it is.
    #[inline(never)]
    fn push_saved(&mut self, line: &[u8]) -> Result<(), Refusal>
        ensures ok { OnOk result (saved_within limits self.old line.now ≡ Ok self.new) }
        ensures refusal { IfErr result (IsRefusedBy (saved_within limits self.old line.now)) }
    {
        self.outline.push(line)?;
        self.first = false;
        Ok(())
    }

    // Takes the root's id from the line that was kept, where it is the first one.
    fn find_root(&mut self) -> Result<(), AllocError>
        ensures { OnOk result (self.new ≡ with_root self.old) }
    {
        if self.root.is_none() {
            self.root = Some(root_of(self.alloc, self.chooser.line())?);
        }
        Ok(())
    }

    // The line that was kept, with its items as they are where moment 0 is this instant.
    #[inline(never)]
    fn rewritten(&self, start: i64) -> Result<Bytes, Refusal>
        ensures { GivesText result
            (walled (Some start) (unwrap_or self.now.root None) self.now.choice.line) }
    {
        let root = match &self.root {
            Some(Some(root)) => Some(root.slice()),
            _ => None,
        };
        match rewrite(self.alloc, self.chooser.line(), root, start) {
            Ok(text) => Ok(text),
            Err(fault) => Err(refusal(fault)),
        }
    }

    // Reads the line that was kept, so many levels higher.
    fn push_kept(&mut self, start: Option<i64>, removed: u32) -> Result<(), Refusal>
        requires { removed ≤ last_level }
        ensures ok { OnOk result
            (kept_within limits start (with_root self.old) removed ≡ Ok self.new) }
        ensures refusal { IfErr result
            (IsRefusedBy (kept_within limits start (with_root self.old) removed)) }
    {
        self.find_root()?;
        match start {
            Some(start) => {
                let text = self.rewritten(start)?;
                push_raised(&mut self.outline, text.slice(), removed)
            }
            None => push_raised(&mut self.outline, self.chooser.line(), removed),
        }
    }

    // A line of an outline without serials.
    fn push_chosen(&mut self, start: Option<i64>, line: &[u8]) -> Result<(), Refusal>
        ensures ok { OnOk result (chosen_within limits start self.old line.now ≡ Ok self.new) }
        ensures refusal { IfErr result
            (IsRefusedBy (chosen_within limits start self.old line.now)) }
    {
        if line.len() > LINE_BYTES {
            return Err(Refusal::LongLine);
        }
        let chosen = self.chooser.push(line)?;
        self.first = false;
        match chosen {
            Chosen::Dropped => Ok(()),
            Chosen::Kept { removed } => self.push_kept(start, removed),
        }
    }

    /// One more line, without its line feed, where moment 0 is at this instant or at none. After a
    /// refusal nothing more is to be read.
    pub fn push(&mut self, start: Option<i64>, line: &[u8]) -> Result<(), Refusal>
        ensures ok { OnOk result (loading_within limits start self.old line.now ≡ Ok self.new) }
        ensures refusal { IfErr result
            (IsRefusedBy (loading_within limits start self.old line.now)) }
    {
        if self.is_saved(line) {
            self.push_saved(line)
        } else {
            self.push_chosen(start, line)
        }
    }

    /// The document of the lines so far.
    pub fn finish(self) -> Result<Doc, Refusal>
        ensures document { GivesDocument result (ended self.outline) }
        ensures valid { IfOk result IsValid }
    {
        Box::into_inner(self.outline).finish()
    }
}
