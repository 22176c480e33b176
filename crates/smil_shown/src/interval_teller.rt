//! The intervals of an element, told one after another.

ghost use Rattle.std.specs.Prelude.{◌≡◌, ◌++◌, List, [], ℕ, None, IfOk, OnOk, OnErr};
ghost use Rattle.smil_model.specs.declared.order.Who.{Who as AnyWho};
ghost use Rattle.smil_model.specs.diary.Diary.{History, up_to, with_entry};
ghost use Rattle.smil_model.specs.diary.Lawful.{IsLawful};
ghost use Rattle.smil_laws.specs.Near.{AllNear, HasNear};
ghost use Rattle.smil_stretch.specs.Clocks.{AreClocksOf, MayFollow};
ghost use Rattle.smil_model.specs.document.Words.{Begins};
ghost use Rattle.smil_report.specs.Words.{who_of};
ghost use Rattle.smil_shown.specs.Histories.{IsTold, MayTell, begin_after, closed_text, finish_line, told_begin};

use smil_diary::Book;
use smil_model::{Bytes, Entry, How, Shown, Step};
use smil_report::{Name, put_history};
use smil_stretch::Clocks;
use smil_tree::Tree;
use std::alloc::{AllocError, Global};

/// An element whose intervals are told: the clocks after the entries so far, and the begin of its
/// present play, in milliseconds of document time, None where it is not playing.
pub struct IntervalTeller {
    who: u32,
    clocks: Clocks,
    pub present: Option<i64>,
}

impl Drop for IntervalTeller {
    // Dropped by a call of its own, not field by field in each function that drops one.
    fn drop(self) {
        let IntervalTeller {
            who: _who,
            clocks: _clocks,
            present: _present,
        } = self;
    }
}

impl IntervalTeller {
    /// An element to which nothing has happened yet, unless memory runs out.
    pub fn new(alloc: Global, tree: &Tree, who: u32) -> Result<IntervalTeller, AllocError>
        ensures who { IfOk result (λ told. told.who ≡ who) }
        ensures nothing { (h : History) (name : AnyWho) (start : List ℕ) → h.nodes ≡ tree.now.nodes
            → IfOk result (λ told. IsTold (up_to h []) name start told start) }
    {
        Ok(IntervalTeller {
            who,
            clocks: Clocks::of(alloc, tree, &Book::new(alloc))?,
            present: None,
        })
    }

    /// Takes in the entries of a diary, and appends the lines of the intervals that have finished.
    /// Where memory is refused, some of the lines stand in `out`.
    pub fn follow_all(
        &mut self,
        book: &Book,
        name: Name<'_>,
        out: &mut Bytes,
    ) -> Result<(), AllocError>
        requires may { MayTell book.now (who_of name) self.old out.old }
        requires near { AllNear book.now }
        ensures told { (h : History) (start : List ℕ) → h.diary ≡ book.now → IsLawful h
            → IsTold (up_to h []) (who_of name.entry) start self.old out.old
            → OnOk result (IsTold h (who_of name.entry) start self.new out.new) }
        ensures who { self.new.who ≡ self.old.who }
        ensures begins { Begins out.old out.new }
    {
        for entry in book.entries() {
            self.follow(*entry, name, out)?;
        }
        Ok(())
    }

    // Takes in an entry, and appends the line of the interval that it finishes.
    fn follow(&mut self, entry: Entry, name: Name<'_>, out: &mut Bytes) -> Result<(), AllocError>
        requires follows { MayFollow self.old.clocks entry }
        requires near { HasNear entry.step }
        ensures told { (h : History) (start : List ℕ)
            → IsTold h (who_of name.entry) start self.old out.old → IsLawful (with_entry h entry)
            → OnOk result (IsTold (with_entry h entry) (who_of name.entry) start self.new out.new) }
        ensures who { self.new.who ≡ self.old.who }
        ensures begins { Begins out.old out.new }
    {
        let told = self.tell(entry, name, out);
        self.clocks.follow(entry);
        told
    }

    // Tells what an entry makes of the element's play: the begin of its present one, and the line
    // of the interval that it finishes.
    fn tell(&mut self, entry: Entry, name: Name<'_>, out: &mut Bytes) -> Result<(), AllocError>
        requires follows { MayFollow self.old.clocks entry }
        requires near { HasNear entry.step }
        ensures present { (h : History) → AreClocksOf self.old.clocks h
            → IsLawful (with_entry h entry) → self.old.present ≡ told_begin h self.old.who
            → self.new.present ≡ begin_after h entry self.old.who }
        ensures text { (h : History) → AreClocksOf self.old.clocks h → IsLawful (with_entry h entry)
            → self.old.present ≡ told_begin h self.old.who
            → OnOk result (out.new ≡ out.old
            ++ closed_text h entry self.old.who (who_of name.entry)) }
        ensures who { self.new.who ≡ self.old.who }
        ensures clocks { self.new.clocks ≡ self.old.clocks }
        ensures begins { Begins out.old out.new }
    {
        let moment = entry.moment;
        match entry.step {
            Step::Began { who, begin } if who == self.who => {
                self.present = Some(self.clocks.to_document(who, begin, moment));
                Ok(())
            }
            Step::Ended { who, end } if who == self.who => {
                let end = self.clocks.to_document(who, end, moment);
                self.finish(end, How::Ended, name, out)
            }
            Step::Cut { who } if who == self.who => self.finish(moment, How::Cut, name, out),
            _ => Ok(()),
        }
    }

    // Appends the line of the present play, which finishes at a moment of document time.
    fn finish(
        &mut self,
        end: i64,
        how: How,
        name: Name<'_>,
        out: &mut Bytes,
    ) -> Result<(), AllocError>
        ensures ok { OnOk result (out.new ≡ out.old
            ++ finish_line (who_of name.entry) self.old.present end how) }
        ensures err { OnErr result (out.new ≡ out.old) }
        ensures present { self.new.present ≡ None }
        ensures who { self.new.who ≡ self.old.who }
        ensures clocks { self.new.clocks ≡ self.old.clocks }
    {
        match self.present.take() {
            Some(begin) => put_history(out, name, Shown::At(begin), Shown::At(end), how),
            None => Ok(()),
        }
    }
}
