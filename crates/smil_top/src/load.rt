//! A load whose lines are being read.

ghost use Rattle.std.specs.Prelude.{◌≡◌, ◌⊎◌, ◌≤◌, ℕ, List, [], ◌∷◌, ◌++◌, length, option_map, Ok, Err, IfOk};
ghost use Rattle.smil_model.specs.declared.limits.TheConstants.{NAME_BYTES};
ghost use Rattle.smil_model.specs.document.Limits.{limits};
ghost use Rattle.smil_model.specs.document.Valid.{IsValid};
ghost use Rattle.smil_attrs.specs.Filled.{filled};
ghost use Rattle.smil_switch.specs.Preferences.{Wanted};
ghost use Rattle.smil_top.specs.Cut.{LoadLines};
ghost use Rattle.smil_top.specs.Answers.{given_within};
ghost use Rattle.smil_top.specs.Loading.{unread};
ghost use Rattle.smil_top.specs.Running.{Gives, IsRead, IsLine, Reads, ReadsHead, given_at, head_read, with_node};

use super::fault::Fault;
use super::loaded::{LoadedDoc, NamedLines};
use super::loading::Loading;
use smil_grammar::Read;
use smil_model::{Bytes, Refusal};
use smil_outside::LINE_BYTES;
use smil_script::read_line;
use smil_switch::Preferences;
use std::alloc::{AllocError, Global};

/// A load: the number of its first line, and what its lines say so far, or their first fault.
#[derive(Drop)]
pub(crate) struct Load {
    pub line: u32,
    pub reading: Result<NamedLines, Fault>,
}

impl Load {
    /// A load that this line opens, whose lines are chosen by these preferences.
    #[inline(never)]
    pub fn open(alloc: Global, line: u32, head: &[u8], preferences: &Preferences) -> Load
        requires { length head.now ≤ LINE_BYTES }
        ensures { IsRead result preferences.now (record
            { head = record { number = line; text = head.now }; nodes = [] }) }
    {
        let reading = match read_head(alloc, head, preferences) {
            Ok(named) => Ok(named),
            Err(refusal) => Err(Fault { line, refusal }),
        };
        Load { line, reading }
    }

    /// Reads one more line, or one that is too long.
    pub fn push(&mut self, line: u32, text: Option<&[u8]>)
        ensures { (wanted : Wanted) (lines : LoadLines) (node : List ℕ) → IsRead self.old wanted lines
            → IsLine (option_map (λ t. t.now) text.entry) node
            → IsRead self.new wanted (record lines {
              nodes = lines.nodes
                  ++ record { number = line; text = node } ∷ [];
            }) }
    {
        let Ok(so_far) = &mut self.reading else {
            return;
        };
        if let Err(fault) = push_node(so_far, self.line, line, text) {
            self.reading = Err(fault);
        }
    }

    /// What the load gives, or the first fault, at its end.
    pub fn finish(self, end_line: u32) -> Result<LoadedDoc, Fault>
        ensures valid { IfOk result (λ given. IsValid given.doc) }
        ensures given { (wanted : Wanted) (lines : LoadLines) → IsRead self wanted lines
            → Gives result (given_within limits wanted lines end_line)
            ⊎ (result ≡ Err (record { line = lines.head.number; refusal = Refusal.Memory })) }
    {
        let first = self.line;
        match self.reading {
            Ok(named) => end_outline(named, first, end_line),
            Err(fault) => Err(fault),
        }
    }
}

// A load of this name before its first line.
fn named(
    alloc: Global,
    name: Bytes,
    start: Option<i64>,
    preferences: &Preferences,
) -> Result<NamedLines, AllocError>
    requires { length name ≤ NAME_BYTES }
    ensures { IfOk result (λ named. (head_read named ≡ record { name = name; start = start })
        × (named.lines ≡ unread preferences.now)) }
{
    let lines = Loading::new(alloc, preferences)?;
    Ok(NamedLines { name, start, lines })
}

// What a load line gives, before the first line behind it.
fn read_head(alloc: Global, head: &[u8], preferences: &Preferences) -> Result<NamedLines, Refusal>
    requires { length head.now ≤ LINE_BYTES }
    ensures { ReadsHead result preferences.now head.now }
{
    match read_line(alloc, head) {
        Ok(Read::Load { name }) => Ok(named(alloc, name, None, preferences)?),
        Ok(Read::LoadAt { name, start }) => Ok(named(alloc, name, Some(start), preferences)?),
        Ok(_) => Err(Refusal::NotACommand),
        Err(refusal) => Err(refusal),
    }
}

// One more node line. Its fault stands at its number, or at the load's first line where memory ran
// out.
fn push_node(
    so_far: &mut NamedLines,
    first: u32,
    line: u32,
    text: Option<&[u8]>,
) -> Result<(), Fault>
    ensures { (node : List ℕ) → IsLine (option_map (λ t. t.now) text.entry) node
        → Reads (filled result so_far.new) (with_node (head_read so_far.old) so_far.old.lines
        (record { number = line; text = node }))
        ⊎ (result ≡ Err (record { line = first; refusal = Refusal.Memory })) }
{
    let pushed = match text {
        Some(text) => so_far.lines.push(so_far.start, text),
        None => Err(Refusal::LongLine),
    };
    match pushed {
        Ok(()) => Ok(()),
        Err(Refusal::Memory) => Err(Fault {
            line: first,
            refusal: Refusal::Memory,
        }),
        Err(refusal) => Err(Fault { line, refusal }),
    }
}

// The document of an outline whose load begins and ends at these lines.
fn end_outline(named: NamedLines, first: u32, end_line: u32) -> Result<LoadedDoc, Fault>
    ensures valid { IfOk result (λ given. IsValid given.doc) }
    ensures given { Gives result (given_at named.name named.lines.outline end_line)
        ⊎ (result ≡ Err (record { line = first; refusal = Refusal.Memory })) }
{
    let NamedLines { name, lines, .. } = named;
    let version = lines.version();
    match lines.finish() {
        Ok(doc) => Ok(LoadedDoc { name, doc, version }),
        Err(Refusal::Memory) => Err(Fault {
            line: first,
            refusal: Refusal::Memory,
        }),
        Err(refusal) => Err(Fault {
            line: end_line,
            refusal,
        }),
    }
}
