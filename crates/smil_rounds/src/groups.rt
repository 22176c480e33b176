//! The group of what comes, and entries that are appended.

ghost use Rattle.std.specs.Prelude.{◌≡◌, ◌+◌, ◌<◌, ◌++◌, length, true, OnOk, OnErr, IfErr};
ghost use Rattle.smil_model.specs.declared.limits.TheConstants as limits;
ghost use Rattle.smil_model.specs.diary.Lawful.{has_element};
ghost use Rattle.smil_model.specs.happening.Groups.{group as group_at};
ghost use Rattle.smil_diary.specs.declared.fault.BookFault.TheVariants as book_fault;
ghost use Rattle.smil_past.specs.Past as past_of;
ghost use Rattle.smil_element.specs.Parts.{meant};
ghost use Rattle.smil_rounds.specs.Appended.{IsPart, MayAppendAll};

use smil_diary::BookFault;
use smil_element::{DueChange, Parts, group_of};
use smil_model::Entry;
use smil_past::Past;
use std::alloc::AllocError;

/// Fills a list with the group of what comes, which is of an element, at a moment; unless memory
/// runs out.
pub fn fill_group(
    past: &Past,
    moment: i64,
    coming: DueChange,
    entries: &mut Vec<Entry>,
) -> Result<(), AllocError>
    requires element { has_element past.now.document.nodes coming.key.serial ≡ true }
    requires moment { past_of.IsPresent past.now moment }
    ensures { OnOk result (entries.new.items
        ≡ group_at (past_of.history_of past.now) moment coming.key.serial (meant coming.change)) }
{
    entries.clear();
    let parts = Parts {
        tree: past.tree(),
        book: past.book(),
        clocks: past.clocks(),
        queues: past.queues(),
        moment,
    };
    group_of(&parts, coming.key.serial, coming.change, entries)
}

/// Appends entries, one after another, each of which may follow what has happened by then. Refused
/// where the diary would have too many entries, or memory runs out; then some of them were appended.
pub fn append_all(past: &mut Past, entries: &[Entry]) -> Result<(), BookFault>
    requires { MayAppendAll past.old entries.now }
    ensures ok { OnOk result (past.new
        ≡ past_of.with_diary past.old (past.old.diary ++ entries.now)) }
    ensures err { OnErr result (IsPart past.old entries.now past.new) }
    ensures full { IfErr result (λ fault. fault ≡ book_fault.DiaryFull
        → (length past.new.diary ≡ limits.DIARY_ENTRIES)
        × (limits.DIARY_ENTRIES < length past.old.diary + length entries.now)) }
{
    for entry in entries {
        past.append(*entry)?;
    }
    Ok(())
}
