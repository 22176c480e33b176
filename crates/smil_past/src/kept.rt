//! Readings of the first entries of a diary, kept so that going back can begin with them.

ghost use Rattle.std.specs.Prelude.{ℕ, ◌<◌, List, [], length, take, OnOk, IfOk};
ghost use Rattle.smil_model.specs.declared.diary.Entry.{Entry as AnyEntry};
ghost use Rattle.smil_model.specs.declared.diary.LogEntry.{LogEntry as AnyLogEntry};
ghost use Rattle.smil_model.specs.document.Document.{Document};
ghost use Rattle.smil_past.specs.Chronicle.{Lags, TellsNothing};
ghost use Rattle.smil_past.specs.Past.{IsPossible};
ghost use Rattle.smil_past.specs.Readings.{AreReadingsOf};
ghost use Rattle.smil_past.specs.Kept.{AreKept, AreWithin, IsBroughtUp};

use super::chronicle::Chronicle;
use super::document::PreparedDocument;
use super::readings::Readings;
use smil_diary::Book;
use smil_model::{Duplicate, Entry, Log};
use smil_tree::Tree;
use std::alloc::{AllocError, Global};

// How many readings are kept at most.
const MOST_KEPT: usize = 32;

// So many entries are taken in without keeping readings on the way.
const FEW_ENTRIES: usize = 16;

/// The readings of the first `len` entries of a diary.
pub struct KeptReadings {
    pub len: usize,
    pub readings: Readings,
}

impl Drop for KeptReadings {
    // Dropped by a call of its own, not field by field in each function that drops one.
    fn drop(self) {
        let KeptReadings {
            len: _len,
            readings: _readings,
        } = self;
    }
}

/// Drops the readings of more than `len` entries. It takes no memory.
pub fn drop_later(kept: &mut Vec<KeptReadings>, len: usize)
    ensures { (document : Document) (log : List AnyLogEntry) (diary : List AnyEntry)
        → AreKept document log diary kept.old.items
        → AreKept document log (take len diary) kept.new.items }
{
    kept.retain(|readings| readings.len <= len);
}

/// The chronicle of the first entries of a book: as many as the last of the kept readings are of,
/// and none where no readings are kept; unless memory runs out. What the document alone gives is
/// shared with the present readings.
pub fn nearest(
    alloc: Global,
    document: &PreparedDocument,
    book: &Book,
    present: &Readings,
    kept: &[KeptReadings],
) -> Result<Chronicle, AllocError>
    requires within { AreWithin (length book.now) kept.now }
    requires present { (log : List AnyLogEntry) × (diary : List AnyEntry)
        × AreReadingsOf present.now document.now log diary }
    ensures { (log : List AnyLogEntry) (len : ℕ)
        → IsPossible document.now log (take len book.now)
        → AreKept document.now log (take len book.now) kept.now
        → IfOk result (Lags document.now log (take len book.now)) }
{
    let Some(last) = kept.last() else {
        return nothing_yet(alloc, document, present);
    };
    let mut book = book.copy()?;
    book.cut_back(last.len);
    Ok(Chronicle {
        book,
        readings: last.readings.copy()?,
    })
}

// The chronicle of a document to which nothing has happened yet; what the document alone gives is
// shared with readings of it.
fn nothing_yet(
    alloc: Global,
    document: &PreparedDocument,
    present: &Readings,
) -> Result<Chronicle, AllocError>
    requires { (log : List AnyLogEntry) × (diary : List AnyEntry)
        × AreReadingsOf present.now document.now log diary }
    ensures { (log : List AnyLogEntry) → IfOk result (TellsNothing document.now log) }
{
    let tree = document.tree();
    let places = document.syncs().places().clone()?;
    let shared = places.clone()?;
    let instances = present.instances.revised(tree, shared, true)?;
    let mut clocks = present.clocks.copy()?;
    clocks.reset();
    Chronicle::over(alloc, tree, places, clocks, instances)
}

/// Appends the entries that a chronicle lacks, and keeps the readings at the middle of what is
/// left, again and again, while that is more than a few entries, and not much less than the
/// elements, whose readings are copied.
pub fn catch_up_keeping(
    chronicle: &mut Chronicle,
    kept: &mut Vec<KeptReadings>,
    tree: &Tree,
    log: &Log,
    entries: &[Entry],
) -> Result<(), AllocError>
    requires possible { IsPossible tree.now log.now entries.now }
    requires lags { Lags tree.now log.now entries.now chronicle.old }
    requires kept { AreKept tree.now log.now entries.now kept.old.items }
    ensures { OnOk result (IsBroughtUp tree.now log.now entries.now chronicle.new
        kept.new.items) }
{
    let few = few_entries(tree);
    let mut left = entries.len() - chronicle.book.len();
    while left >= few {
        left /= 2;
        chronicle.catch_up(tree, log, &entries[..entries.len() - left])?;
        keep(kept, chronicle)?;
    }
    chronicle.catch_up(tree, log, entries)
}

// How many entries are taken in without keeping readings on the way: to take one in costs as much
// as to keep the readings of a few elements.
fn few_entries(tree: &Tree) -> usize
    ensures { 0 < result }
{
    FEW_ENTRIES.max(tree.elements().len() / 4)
}

// Keeps the readings of a chronicle.
fn keep(kept: &mut Vec<KeptReadings>, chronicle: &Chronicle) -> Result<(), AllocError>
    ensures { (document : Document) (log : List AnyLogEntry) (diary : List AnyEntry)
        → Lags document log diary chronicle.now → AreKept document log diary kept.old.items
        → OnOk result (AreKept document log diary kept.new.items) }
{
    make_room(kept);
    kept.push(KeptReadings {
        len: chronicle.book.len(),
        readings: chronicle.readings.copy()?,
    })?;
    Ok(())
}

// Drops the first of the readings where no more may be kept.
fn make_room(kept: &mut Vec<KeptReadings>)
    ensures { (document : Document) (log : List AnyLogEntry) (diary : List AnyEntry)
        → AreKept document log diary kept.old.items → AreKept document log diary kept.new.items }
{
    if kept.len() >= MOST_KEPT {
        drop(kept.remove(0));
    }
}
