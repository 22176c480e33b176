//! The last entry of a diary, as it is taken in.

ghost use Rattle.std.specs.Prelude.{◌≡◌, List, [], ◌∷◌, ◌++◌, length};
ghost use Rattle.smil_model.specs.declared.diary.Entry.{Entry as AnyEntry};
ghost use Rattle.smil_model.specs.diary.Diary.{History};
ghost use Rattle.smil_model.specs.Times.{IsMoment};
ghost use Rattle.smil_instances.specs.Entry.{HasArrived, IsArrivalOf};

use super::before::last_entry;
use super::dependents::Dependents;
use super::history::DocumentHistory;
use smil_model::Entry;
use smil_stretch::Clocks;

/// The last entry of a diary, as it is taken in: what has happened with it, what the document's
/// items depend on, and the clocks before the entry.
#[derive(Clone, Copy)]
pub struct Arrival<'a> {
    pub history: DocumentHistory<'a>,
    pub dependents: &'a Dependents,
    pub clocks: &'a Clocks,
}

impl Arrival<'_> {
    /// The entry. It takes no memory.
    pub fn last_entry(&self) -> Entry
        requires { HasArrived self.now }
        ensures value { (before : List AnyEntry) (y : AnyEntry)
            → self.now.history.book.now ≡ before ++ y ∷ [] → result ≡ y }
        ensures moment { IsMoment result.moment }
    {
        last_entry(self.history.book)
    }

    /// The place of the entry in the diary. It takes no memory.
    pub fn place(&self) -> usize
        requires { HasArrived self.now }
        ensures { (h : History) (y : AnyEntry) → IsArrivalOf h y self.now
            → result ≡ length h.diary }
    {
        self.history.book.len() - 1
    }
}
