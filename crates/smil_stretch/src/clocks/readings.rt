//! What the clock of an element and that of its time parent show, found at once.

ghost use Rattle.std.specs.Prelude.{◌≡◌, ◌≤ℤ◌, IfSome, Some, option_and_then, slice_get};
ghost use Rattle.smil_model.specs.declared.document.Node.{Node as AnyNode};
ghost use Rattle.smil_model.specs.diary.Diary.{History, last_moment};
ghost use Rattle.smil_model.specs.diary.Clocks.{run as run_of, outer as outer_of, stands as stands_of, outer_stands as outer_stands_of};
ghost use Rattle.smil_model.specs.Times.{IsMoment, IsNear};
ghost use Rattle.smil_stretch.specs.Clocks.{AreClocksOf};
ghost use Rattle.smil_stretch.specs.NodeClocks.{Fits, at_place, parent_of, shown_by as shown_of, stands_by as stands_of_clock};
ghost use Rattle.smil_stretch.specs.declared.clock.NodeClock.{NodeClock as AnyClock};

use super::super::clock::{NodeClock, shown_by, stands_by};
use super::Clocks;

/// What the clock of an element and that of its time parent show at a moment, in milliseconds, and
/// whether these clocks stand.
#[derive(Clone, Copy)]
pub struct ClockReadings {
    pub own: i64,
    pub outer: i64,
    pub own_stands: bool,
    pub outer_stands: bool,
}

impl Clocks {
    /// What the clock of an element and that of its time parent show at a moment from 0 to 10^12,
    /// and whether they stand; for the root the latter runs and shows the moment. It takes one
    /// look-up, and no memory.
    pub fn readings(&self, who: u32, moment: i64) -> ClockReadings
        requires { IsMoment moment }
        ensures own { (h : History) → AreClocksOf self.now h → last_moment h.diary ≤ℤ moment
            → result.own ≡ run_of h who moment }
        ensures outer { (h : History) → AreClocksOf self.now h → last_moment h.diary ≤ℤ moment
            → result.outer ≡ outer_of h who moment }
        ensures own_stands { (h : History) → AreClocksOf self.now h
            → result.own_stands ≡ stands_of h who }
        ensures outer_stands { (h : History) → AreClocksOf self.now h
            → result.outer_stands ≡ outer_stands_of h who }
        ensures own_near { IsNear result.own }
        ensures outer_near { IsNear result.outer }
    {
        self.readings_by(self.clock(who), moment)
    }

    /// What the clock of the node at a place in document order, from 0, and that of its time parent
    /// show at a moment from 0 to 10^12, and whether they stand, as `readings` says. It takes no
    /// look-up, and no memory.
    pub fn readings_at(&self, place: usize, moment: i64) -> ClockReadings
        requires { IsMoment moment }
        ensures own { (h : History) (n : AnyNode) → AreClocksOf self.now h
            → last_moment h.diary ≤ℤ moment → slice_get h.nodes place ≡ Some n
            → result.own ≡ run_of h n.serial moment }
        ensures outer { (h : History) (n : AnyNode) → AreClocksOf self.now h
            → last_moment h.diary ≤ℤ moment → slice_get h.nodes place ≡ Some n
            → result.outer ≡ outer_of h n.serial moment }
        ensures own_stands { (h : History) (n : AnyNode) → AreClocksOf self.now h
            → slice_get h.nodes place ≡ Some n → result.own_stands ≡ stands_of h n.serial }
        ensures outer_stands { (h : History) (n : AnyNode) → AreClocksOf self.now h
            → slice_get h.nodes place ≡ Some n
            → result.outer_stands ≡ outer_stands_of h n.serial }
        ensures own_near { IsNear result.own }
        ensures outer_near { IsNear result.outer }
    {
        self.readings_by(self.at(Some(place)), moment)
    }

    // What a clock and that of its time parent show at a moment, and whether they stand.
    #[inline(always)]
    fn readings_by(&self, own: Option<NodeClock>, moment: i64) -> ClockReadings
        requires fits { IfSome own (λ n. Fits n.clock) }
        requires moment { IsMoment moment }
        ensures own { result.own ≡ shown_of own moment }
        ensures outer { result.outer ≡ shown_of (parent_of self.now own) moment }
        ensures own_stands { result.own_stands ≡ stands_of_clock own }
        ensures outer_stands { result.outer_stands ≡ stands_of_clock (parent_of self.now own) }
        ensures own_near { IsNear result.own }
        ensures outer_near { IsNear result.outer }
    {
        let outer = self.at(parent_place(own));
        ClockReadings {
            own: shown_by(own, moment),
            outer: shown_by(outer, moment),
            own_stands: stands_by(own),
            outer_stands: stands_by(outer),
        }
    }

    // The clock at the place of a time parent.
    fn at(&self, place: Option<usize>) -> Option<NodeClock>
        ensures value { result ≡ at_place self.now place }
        ensures fits { IfSome result (λ n. Fits n.clock) }
    {
        self.clocks.get(place?).copied()
    }
}

// The place of the time parent of a node.
fn parent_place(node: Option<NodeClock>) -> Option<usize>
    ensures { result ≡ option_and_then (λ (n : AnyClock). n.parent) node }
{
    node?.parent_place()
}
