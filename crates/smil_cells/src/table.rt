//! Current intervals, and what comes next, however they are kept.

ghost use Rattle.std.specs.Prelude.{◌≡◌, ◌-◌, ◌≤◌, ℕ, ℤ, drop, length, Bool, true, false, Option, OnOk, IfOk, option_map};
ghost use Rattle.smil_model.specs.document.Closure.{has};
ghost use Rattle.smil_model.specs.document.Document.{elements};
ghost use Rattle.smil_model.specs.diary.Diary.{History};
ghost use Rattle.smil_model.specs.interval.Current.{current_interval};
ghost use Rattle.smil_model.specs.happening.Keys.{coming, first_coming};
ghost use Rattle.smil_model.specs.reach.Bounds.{reaches};
ghost use Rattle.smil_laws.specs.Same.{IsSame};
ghost use Rattle.smil_element.specs.Parts.{coming_meant};
ghost use Rattle.smil_past.specs.Past.{IsPresent, front, history_of};
ghost use Rattle.smil_cells.specs.CellsState.{WhereTold, any_interval, fresh};
ghost use Rattle.smil_cells.specs.Evaluated.{AreChanged, HasEvaluated};

use smil_element::DueChange;
use smil_interval::Steps;
use smil_model::{Interval, Serials};
use smil_past::Past;
use std::alloc::{AllocError, Global};
use std::sync::ledger::Ledger;

/// What has happened, the index of the first of its entries that a table has not taken in, and the
/// moment at which that and all later ones were appended, in milliseconds of document time.
#[derive(Clone, Copy)]
pub struct Since<'a> {
    pub past: &'a Past,
    pub from: usize,
    pub moment: i64,
}

/// The current interval of each element of a document, and what comes next, kept while entries are
/// appended. Its meanings are whether they are those of a history at a moment, whether `back` gives
/// those of a history at a moment, whether a mark stands, and whether it tells how often intervals
/// are evaluated. After a refusal of `refresh` nothing is known of it but what `back` gives.
pub trait Table: Drop {
    ghost is_current: { Self → History → ℤ → Type 0 };

    ghost is_marked: { Self → History → ℤ → Type 0 };

    ghost has_mark: { Self → Bool };

    ghost counts: { Bool };

    /// The table of what has happened, at a moment, unless memory runs out; where steps are counted,
    /// there are at most as many as elements.
    fn of<L: Ledger>(
        alloc: Global,
        past: &Past,
        moment: i64,
        steps: &mut Steps<L>,
    ) -> Result<Self, AllocError>
        requires moment { IsPresent past.now moment }
        ensures current { IfOk result (λ table. is_current table (history_of past.now) moment) }
        ensures unmarked { IfOk result (λ table. has_mark table ≡ false) }
        ensures counted { steps.old ≤ steps.new }
        ensures most { WhereTold counts
            (steps.new - steps.old ≤ length (elements past.now.document.nodes)) }
        ensures least { OnOk result (WhereTold counts
            (any_interval past.now.document.nodes (current_interval (history_of past.now) moment) ≤
            steps.new - steps.old)) };

    /// Takes in the entries from an index on, and appends to `changed` the elements whose intervals
    /// are others behind them, and no further ones. Refused where memory runs out. Where steps are
    /// counted, each is of another element that the entries touch, or that reads one whose interval
    /// became another.
    fn refresh<L: Ledger>(
        &mut self,
        since: &Since<'_>,
        changed: &mut Serials,
        steps: &mut Steps<L>,
    ) -> Result<(), AllocError>
        requires moment { IsPresent since.now.past.now since.now.moment }
        requires within { since.now.from ≤ length since.now.past.now.diary }
        requires before { is_current self.old (front since.now.past.now since.now.from)
            since.now.moment }
        ensures current { OnOk result (is_current self.new (history_of since.now.past.now)
            since.now.moment) }
        ensures changed { OnOk result ((s : ℕ) → has changed.new s ≡ false
            → current_interval (history_of since.now.past.now) since.now.moment s
            ≡ current_interval (front since.now.past.now since.now.from) since.now.moment s) }
        ensures more { OnOk result ((s : ℕ) → has changed.old s ≡ true → has changed.new s ≡ true) }
        ensures told { OnOk result (AreChanged changed.old changed.new
            (current_interval (front since.now.past.now since.now.from) since.now.moment)
            (current_interval (history_of since.now.past.now) since.now.moment)) }
        ensures marked { (h : History) (now : ℤ) → is_marked self.old h now
            → is_marked self.new h now }
        ensures has_mark { has_mark self.new ≡ has_mark self.old }
        ensures counted { steps.old ≤ steps.new }
        ensures most { OnOk result (WhereTold counts
            (steps.new - steps.old
            ≤ reaches since.now.past.now.document.nodes since.now.past.now.log
            (drop since.now.from since.now.past.now.diary))) }
        ensures least { OnOk result (WhereTold counts (fresh since.now.past.now.document.nodes
            (current_interval (front since.now.past.now since.now.from) since.now.moment)
            (current_interval (history_of since.now.past.now) since.now.moment)
            ≤ steps.new - steps.old)) }
        ensures evaluated { OnOk result (WhereTold counts (HasEvaluated
            since.now.past.now.document.nodes since.now.past.now.log
            (drop since.now.from since.now.past.now.diary)
            (current_interval (front since.now.past.now since.now.from) since.now.moment)
            (current_interval (history_of since.now.past.now) since.now.moment)
            (steps.new - steps.old))) };

    /// The current interval of an element. It takes no memory.
    fn interval(&self, who: u32) -> Option<Interval>
        ensures { (h : History) (now : ℤ) → is_current self.now h now
            → result ≡ current_interval h now who };

    /// What comes first; None exactly where nothing comes. It takes no memory.
    fn first(&self) -> Option<DueChange>
        ensures { (h : History) (now : ℤ) → is_current self.now h now
            → option_map coming_meant result ≡ first_coming (coming h now) };

    /// A copy, unless memory runs out. No mark stands.
    fn copy(&self) -> Result<Self, AllocError>
        requires { has_mark self.now ≡ false }
        ensures current { IfOk result (λ copy. (h : History) (now : ℤ) → is_current self.now h now
            → is_current copy h now) }
        ensures unmarked { IfOk result (λ copy. has_mark copy ≡ false) };

    /// Sets a mark, to which `back` goes back. No mark stands. It takes no memory.
    fn mark(&mut self)
        requires { has_mark self.old ≡ false }
        ensures current { (h : History) (now : ℤ) → is_current self.old h now
            → is_current self.new h now }
        ensures marked { (h : History) (now : ℤ) → is_current self.old h now
            → is_marked self.new h now }
        ensures has_mark { has_mark self.new ≡ true };

    /// Goes back to the mark, which stands, and takes it away. It takes no memory.
    fn back(&mut self)
        requires { has_mark self.old ≡ true }
        ensures current { (h : History) (now : ℤ) → is_marked self.old h now
            → is_current self.new h now }
        ensures has_mark { has_mark self.new ≡ false };

    /// Takes away the mark, which stands. It takes no memory.
    fn forget(&mut self)
        requires { has_mark self.old ≡ true }
        ensures current { (h : History) (now : ℤ) → is_current self.old h now
            → is_current self.new h now }
        ensures has_mark { has_mark self.new ≡ false };

    /// What is current stays so where the same is current by another history.
    ghost stays: { (t : Self) (h k : History) (m n : ℤ) → IsSame h m k n → is_current t h m
        → is_current t k n };
}
