//! The diary, and its readings.

ghost use Rattle.std.specs.Prelude.{◌≡◌, ◌≤◌, ◌-◌, ◌↔◌, List, [], ◌∷◌, ◌++◌, length, take, Result, Err, OnOk, OnErr, IfSome, ◌<◌, slice_get, Option};
ghost use Rattle.std.specs.List.{position};
ghost use Rattle.smil_model.specs.declared.limits.TheConstants as limits;
ghost use Rattle.smil_model.specs.declared.document.Node.{Node};
ghost use Rattle.smil_model.specs.diary.Diary.{History, last_place, gives_birth, birth_under, lives_under, is_active, is_paused, is_deferred, is_step as is_step_of, iteration, last_step};
ghost use Rattle.smil_model.specs.diary.Plays.{plays};
ghost use Rattle.smil_model.specs.declared.diary.Entry.{Entry as GivenEntry};
ghost use Rattle.smil_diary.specs.Readings.{IsOf};
ghost use Rattle.smil_model.specs.document.Document.{serial_of};
ghost use Rattle.smil_diary.specs.ElementPlaces.{element_of};
ghost use Rattle.smil_diary.specs.declared.fault.BookFault.TheVariants as book_fault;

use super::element::ElementPlaces;
use super::fault::BookFault;
use super::index::Index;
use super::subject::{is_step, subject};
use super::tally::Tally;
use smil_model::{DIARY_ENTRIES, Duplicate, Entry, StepKind};
use std::alloc::{AllocError, Global};
use std::marker::Model;

/// What happened so far, in order: a diary of at most `DIARY_ENTRIES` entries, seen as the list of
/// its entries. An index of the last entries on each element stands beside it, so that no reading
/// but `first` and `finished` goes through the entries.
pub struct Book {
    entries: Vec<Entry>,
    index: Index,
}

impl Drop for Book {
    // Dropped by a call of its own, not field by field in each function that drops one.
    fn drop(self) {
        let Book {
            entries: _entries,
            index: _index,
        } = self;
    }
}

impl Model for Book {
    ghost use Rattle.std.specs.Prelude.{List};
    ghost use Rattle.smil_model.specs.declared.diary.Entry.{Entry as GivenEntry};
    ghost use Rattle.smil_diary.specs.ElementPlaces.{IsBook};

    ghost Value = { List GivenEntry };

    ghost view = { λ b. b.entries.items };

    ghost invariant = { λ b. IsBook b.entries.items b.index };
}

impl Duplicate for Book {
    fn copy(&self) -> Result<Self, AllocError> {
        Ok(Book {
            entries: Vec::from_slice(*self.entries.allocator(), &self.entries)?,
            index: self.index.copy()?,
        })
    }
}

impl Book {
    /// The empty diary, which takes no memory.
    pub fn new(alloc: Global) -> Self
        ensures { result ≡ [] }
    {
        Book {
            entries: Vec::new(alloc),
            index: Index::new(alloc),
        }
    }

    /// Appends an entry. `DiaryFull` exactly where the diary has `DIARY_ENTRIES` entries already;
    /// after a refusal it is as before.
    pub fn push(&mut self, entry: Entry) -> Result<(), BookFault>
        ensures ok { OnOk result (self.new ≡ self.old ++ entry ∷ []) }
        ensures err { OnErr result (self.new ≡ self.old) }
        ensures full { (result ≡ Err book_fault.DiaryFull) ↔
            (length self.old ≡ limits.DIARY_ENTRIES) }
    {
        if self.len() == DIARY_ENTRIES {
            return Err(BookFault::DiaryFull);
        }
        self.append(entry)?;
        Ok(())
    }

    /// Leaves the first `len` entries, of which there are as many at least. It takes no memory;
    /// where entries go, a step for each that stays and for each element that any is on.
    pub fn cut_back(&mut self, len: usize)
        requires { len ≤ length self.old }
        ensures { self.new ≡ take len self.old }
    {
        if len < self.len() {
            self.entries.truncate(len);
            self.index.begin_anew(&self.entries);
        }
    }

    /// How many entries the diary has. It takes no memory.
    pub fn len(&self) -> usize
        ensures value { result ≡ length self.now }
        ensures bound { result ≤ limits.DIARY_ENTRIES }
    {
        self.entries.len()
    }

    /// The entry at a place from 0; None exactly where the place is not below the length. It takes
    /// no memory.
    pub fn entry(&self, place: usize) -> Option<Entry>
        ensures { result ≡ slice_get self.now place }
    {
        self.entries.get(place).copied()
    }

    /// All entries, in order. It takes no memory.
    pub fn entries(&self) -> &[Entry]
        ensures { result.now ≡ self.now }
    {
        self.entries.as_slice()
    }

    /// How many entries there are up to and with the birth of the time children of `parent`, its
    /// last begin or repeat: 0 for None, which stands for the root's lack of a time parent, and all
    /// of them where `parent` never began. It takes no memory.
    pub fn birth(&self, parent: Option<u32>) -> usize
        ensures { (node : Option Node) → serial_of node ≡ parent
            → result ≡ birth_under node self.now }
    {
        let Some(parent) = parent else {
            return 0;
        };
        let all = self.len();
        match self.last_birth(parent) {
            Some(place) => place + 1,
            None => all,
        }
    }

    /// Whether the element is active. It takes no memory.
    pub fn active(&self, who: u32) -> bool
        ensures { result ≡ is_active self.now who }
    {
        self.element(who).active()
    }

    /// Whether the element is active and paused. It takes no memory.
    pub fn paused(&self, who: u32) -> bool
        ensures { result ≡ is_paused self.now who }
    {
        self.element(who).paused()
    }

    /// Whether the begin of the element, whose time parent is `parent`, is put off. It takes no
    /// memory.
    pub fn deferred(&self, who: u32, parent: Option<u32>) -> bool
        ensures { (h : History) → IsOf h self.now who parent → result ≡ is_deferred h who }
    {
        self.lives_under(parent) && self.element(who).deferred_since(self.birth(parent))
    }

    /// The number of the iteration of the element, whose time parent is `parent`: that of its last
    /// play since its birth, from 0, and 0 where there is none. It takes no memory.
    pub fn iteration(&self, who: u32, parent: Option<u32>) -> u32
        ensures { (h : History) → IsOf h self.now who parent → result ≡ iteration h who }
    {
        let element = self.element(who);
        match element.last(StepKind::Began) {
            Some(began) if self.birth(parent) <= began => element.repeats.unwrap_or(0),
            _ => 0,
        }
    }

    /// How many intervals of the element, whose time parent is `parent`, finished since its birth.
    /// It takes no memory, and a step for each entry.
    pub fn finished(&self, who: u32, parent: Option<u32>) -> u32
        ensures { (h : History) → IsOf h self.now who parent
            → result ≡ length (plays h who).finished }
    {
        prove!(self.len() <= DIARY_ENTRIES);
        let mut tally = Tally {
            playing: false,
            finished: 0,
        };
        for entry in self.entries() {
            tally = tally.after(parent, who, entry.step);
        }
        tally.finished
    }

    /// The place of the last entry of this kind on the element; None where there is none. It takes
    /// no memory.
    pub fn last(&self, who: u32, kind: StepKind) -> Option<usize>
        ensures value { result ≡ last_step self.now kind who }
        ensures within { IfSome result (λ place. place < length self.now) }
    {
        self.element(who).last(kind)
    }

    /// The place of the first entry of this kind on the element; None where there is none. It takes
    /// no memory, and a step for each entry up to that one.
    pub fn first(&self, who: u32, kind: StepKind) -> Option<usize>
        ensures value { result ≡ position (λ (x : GivenEntry). is_step_of kind who x.step) self.now }
        ensures within { IfSome result (λ place. place < length self.now) }
    {
        self.entries()
            .iter()
            .position(|entry| is_step(kind, who, entry.step))
    }

    // What the index has of an element.
    fn element(&self, who: u32) -> ElementPlaces
        ensures places { result ≡ element_of self.now who }
        ensures few { length self.now ≤ limits.DIARY_ENTRIES }
    {
        self.index.element(who)
    }

    // Whether a time parent is active, or absent.
    fn lives_under(&self, parent: Option<u32>) -> bool
        ensures { (node : Option Node) → serial_of node ≡ parent
            → result ≡ lives_under node self.now }
    {
        match parent {
            Some(parent) => self.active(parent),
            None => true,
        }
    }

    // The place of the last begin or repeat of the element.
    fn last_birth(&self, who: u32) -> Option<usize>
        ensures value { result ≡ last_place (λ (x : GivenEntry). gives_birth who x.step) self.now }
        ensures within { IfSome result (λ place. place < length self.now) }
        ensures few { length self.now ≤ limits.DIARY_ENTRIES }
    {
        self.element(who).last_birth()
    }

    // Appends an entry where there is room for one. Where memory runs out the diary is as before.
    fn append(&mut self, entry: Entry) -> Result<(), AllocError>
        requires { length self.old < limits.DIARY_ENTRIES }
        ensures ok { OnOk result (self.new ≡ self.old ++ entry ∷ []) }
        ensures err { OnErr result (self.new ≡ self.old) }
    {
        let place = self.len();
        self.entries.push(entry)?;
        let Some((who, kind)) = subject(&entry.step) else {
            return Ok(());
        };
        let alloc = *self.entries.allocator();
        let noted = self.index.note(alloc, who, kind, place);
        if noted.is_err() {
            self.entries.pop();
        }
        noted
    }
}
