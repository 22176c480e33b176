//! Intervals of elements, however they are kept.

ghost use Rattle.std.specs.Prelude.{◌≡◌, ℕ, Option, Some, true, map, IfOk, IfSome};
ghost use Rattle.smil_model.specs.declared.document.Node.{Node as AnyNode};
ghost use Rattle.smil_model.specs.declared.interval.Interval.{Interval as AnyInterval};
ghost use Rattle.smil_model.specs.document.Document.{elements, node_at, time_children};
ghost use Rattle.smil_model.specs.document.Defaults.{endsync_of};
ghost use Rattle.smil_model.specs.diary.Diary.{History};
ghost use Rattle.smil_model.specs.diary.Lawful.{has_element};
ghost use Rattle.smil_model.specs.interval.Current.{child_end};
ghost use Rattle.smil_model.specs.interval.Durations.{container_duration};
ghost use Rattle.smil_laws.specs.Near.{IsIntervalNear};
ghost use Rattle.smil_past.specs.Past.{history_of};

use smil_model::{ChildEnd, Interval, Time};
use smil_past::Past;
use std::alloc::AllocError;

/// Intervals of elements, each in milliseconds on the clock of the element's time parent, with
/// numbers from -10^12 to 10^12.
pub trait Intervals {
    /// The interval that is given of the element with this serial.
    ghost given: { Self → ℕ → Option AnyInterval };

    /// The interval of an element; None where it has none. It takes no memory.
    fn interval(&self, who: u32) -> Option<Interval>
        ensures value { result ≡ given self.now who }
        ensures near { IfSome result IsIntervalNear };
}

/// The active container with the serial `who`, what has happened, and the start of the container's
/// present iteration, in milliseconds on its own clock.
#[derive(Clone, Copy)]
pub struct Container<'a> {
    pub past: &'a Past,
    pub who: u32,
    pub start: i64,
}

/// Intervals of elements, and what they make of the time children of containers. Its meaning is
/// whether what is kept of the ends of an element's time children is right for a history; where
/// nothing is kept it always is.
pub trait Containers: Intervals {
    ghost knows_ends: { Self → History → ℕ → Type 0 };

    /// The implicit duration of an active container, in milliseconds on its own clock, where what
    /// is kept of the ends of its time children is right. Refused where memory runs out for a list
    /// of them.
    fn implicit(
        &self,
        container: &Container<'_>,
        children: &mut Vec<ChildEnd>,
    ) -> Result<Time, AllocError>
        requires element { has_element container.now.past.now.document.nodes container.now.who
            ≡ true }
        requires known { knows_ends self.now (history_of container.now.past.now)
            container.now.who }
        ensures { (e : AnyNode)
            → node_at (elements container.now.past.now.document.nodes) container.now.who ≡ Some e
            → IfOk result (λ implicit. implicit
            ≡ container_duration e.kind (endsync_of e.attrs) container.now.start
            (map (child_end (history_of container.now.past.now) (Self.given self.now) e)
            (time_children container.now.past.now.document.nodes container.now.who))) };
}
