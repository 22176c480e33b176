//! What an evaluation reads of the other elements.

ghost use Rattle.smil_rounds.specs.Current.{interval_in};

use super::endings::Endings;
use super::schedule::Schedule;
use smil_element::{Container, Containers, Intervals};
use smil_model::{ChildEnd, Interval, Time};
use std::alloc::AllocError;

/// The intervals of the elements, and the ends of the time children of each, for the evaluation of
/// one element.
#[derive(Drop)]
pub struct Sources<'a> {
    pub schedule: &'a Schedule,
    pub endings: &'a Endings,
    /// The index of the row of the element that is evaluated.
    pub index: usize,
}

impl<'a> Intervals for Sources<'a> {
    ghost given = { λ read. interval_in read.schedule.now };

    fn interval(&self, who: u32) -> Option<Interval> {
        self.schedule.interval(who)
    }
}

impl<'a> Containers for Sources<'a> {
    ghost use Rattle.smil_nodes.specs.Endings.{KnowsEndsAt};

    ghost knows_ends = { λ read h who. KnowsEndsAt read.schedule.now read.endings.now h who
        read.index };

    fn implicit(
        &self,
        container: &Container<'_>,
        _children: &mut Vec<ChildEnd>,
    ) -> Result<Time, AllocError> {
        let who = container.who;
        container.past.possible();
        let tree = container.past.tree();
        let kind = tree.kind(who);
        let attrs = tree.attrs(who);
        let index = self.index;
        Ok(self.endings.implicit(index, kind, attrs, container.start))
    }
}
