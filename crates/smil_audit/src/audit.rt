//! The audit of a whole diary.

ghost use Rattle.std.specs.Prelude.{◌≡◌, ◌≤◌, ◌≤ℤ◌, ◌+◌, ◌*◌, pos, nat_abs, length, IfOk};
ghost use Rattle.smil_model.specs.declared.times.TheConstants.{HORIZON as the_horizon};
ghost use Rattle.smil_model.specs.declared.limits.TheConstants.{DIARY_ENTRIES as the_entries};
ghost use Rattle.smil_model.specs.document.Document.{elements};
ghost use Rattle.smil_model.specs.document.Valid.{IsValid};
ghost use Rattle.smil_audit.specs.Verdict.{first_wrong};
ghost use Rattle.smil_audit.specs.Replayed.{place_after};

use super::placed::{logged, placed_len};
use super::replay::{Agreement, Replay};
use smil_interval::Steps;
use smil_model::{Diary, Doc, Duplicate, Log};
use std::alloc::{AllocError, Global};
use std::sync::ledger::Ledger;

/// The first place, from 1, at which a diary of at most 1,000,000 entries is not that of a valid
/// document and a log up to a last moment, from 0 to 10^12; None exactly where it is. The diary
/// names the places of the log in order, each at its moment. Refused where memory runs out. Each
/// step of the resolution that agrees evaluates all elements, and the first that differs ends it:
/// so each is evaluated at most once for each entry of the diary, and once more.
pub fn check<L: Ledger>(
    alloc: Global,
    doc: &Doc,
    log: &Log,
    diary: &Diary,
    now: i64,
    steps: &mut Steps<L>,
) -> Result<Option<usize>, AllocError>
    requires valid { IsValid doc.now }
    requires few { length diary.now ≤ the_entries }
    requires from { pos 0 ≤ℤ now }
    requires within { now ≤ℤ the_horizon }
    ensures verdict { IfOk result (λ place. place
        ≡ first_wrong doc.now.nodes log.now diary.now (nat_abs now)) }
    ensures counted { steps.old ≤ steps.new }
    ensures most { steps.new ≤ steps.old + (length diary.now + 1)
        * length (elements doc.now.nodes) }
{
    let entries = diary.slice();
    let front = &entries[..placed_len(entries, now)];
    let mut part = log.copy()?;
    part.cut_back(logged(front).min(part.len()));
    let mut replay = Replay::new(alloc, doc, part, now)?;
    let agreement = replay.agreed(front, steps)?;
    Ok(wrong_after(agreement, entries.len()))
}

// The place behind what agrees; none where that is the whole diary, and the resolution has ended.
fn wrong_after(agreement: Agreement, entries: usize) -> Option<usize>
    requires { agreement.same ≤ the_entries }
    ensures { result ≡ place_after agreement.ended agreement.same entries }
{
    if agreement.ended && entries <= agreement.same {
        None
    } else {
        Some(agreement.same + 1)
    }
}
