//! The session of a number, and what is told of it.

ghost use Rattle.std.specs.Prelude.{◌≡◌, ◌≤◌, ◌++◌, ℕ, List, false, IfOk, OnOk};
ghost use Rattle.smil_top.specs.Cut.{OrderLines};
ghost use Rattle.smil_top.specs.Summary.{count_line, count_lines, told_of};
ghost use Rattle.smil_top.specs.Transcript.{TranscriptState};
ghost use Rattle.smil_top.specs.Running.{IsSummary, Tells};

use super::counts::Counts;
use super::nowhere::Nowhere;
use super::reading::Opening;
use super::run::Run;
use super::status::Status;
use itoa::Buffer;
use smil_gen::session_bytes;
use smil_interval::Steps;
use smil_model::Bytes;
use smil_outside::{CHUNK_BYTES, MemSource};
use std::alloc::{AllocError, Global};
use std::sync::ledger::Ledger;

/// The lines that tell of a session, and how it ended.
#[derive(Drop)]
pub(crate) struct Summary {
    pub text: Bytes,
    pub status: Status,
}

/// Answers the session of a number, and tells how many orders it has, how many were refused, how
/// many lines the transcript has, and the moment at its end; unless memory runs out, also where an
/// order of the session is refused for it.
pub(crate) fn summary_of<L: Ledger>(
    alloc: Global,
    number: u32,
    steps: &mut Steps<L>,
) -> Result<Summary, AllocError>
    ensures summary { IfOk result (IsSummary number) }
    ensures counted { steps.old ≤ steps.new }
{
    let bytes = session_bytes(alloc, number)?;
    let mut source = MemSource::new(alloc, bytes.slice(), CHUNK_BYTES, &[])?;
    let mut opening = Opening::new(alloc, false, Counts::new())?;
    let reader = opening.reader;
    let status = opening
        .run
        .answer_all(reader, &mut source, &mut Nowhere, steps);
    if !status.is_told() {
        return Err(AllocError);
    }
    Ok(Summary {
        text: summary_text(alloc, number, &opening.run)?,
        status,
    })
}

// The lines that tell of a session that was answered; unless memory runs out, or a count stands at
// its end.
fn summary_text(alloc: Global, number: u32, run: &Run) -> Result<Bytes, AllocError>
    ensures { (orders : List OrderLines) (told : TranscriptState) → Tells false run.now orders told
        → IfOk result (λ text. text ≡ told_of number orders told) }
{
    if !run.counts.are_exact() {
        return Err(AllocError);
    }
    let moment = run.session.house.moment(b"g").unwrap_or(0);
    lines(alloc, u64::from(number), &run.counts, moment.unsigned_abs())
}

// The lines of these counts and this moment, unless memory runs out.
fn lines(alloc: Global, number: u64, counts: &Counts, moment: u64) -> Result<Bytes, AllocError>
    ensures { IfOk result (λ text. text
        ≡ count_lines number counts.now.orders counts.now.refused counts.now.lines moment) }
{
    let mut out = Bytes::new(alloc);
    put_count(b"session", number, &mut out)?;
    put_count(b"orders", counts.orders, &mut out)?;
    put_count(b"refused", counts.refused, &mut out)?;
    put_count(b"lines", counts.lines, &mut out)?;
    put_count(b"moment", moment, &mut out)?;
    Ok(out)
}

// Appends a line of a word and a number.
fn put_count(word: &[u8], number: u64, out: &mut Bytes) -> Result<(), AllocError>
    ensures { OnOk result (out.new ≡ out.old ++ count_line word.now number) }
{
    let mut buffer = Buffer::new();
    out.append(word)?;
    out.append(b" ")?;
    out.append(buffer.format(number).as_bytes())?;
    out.append(b"\n")
}
