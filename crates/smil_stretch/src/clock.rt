//! The clock of one node.

ghost use Rattle.std.specs.Prelude.{◌≡◌, IfSome};
ghost use Rattle.smil_stretch.specs.Clocks.{clock_by, shown, is_standing};
ghost use Rattle.smil_model.specs.Times.{IsMoment, IsNear};
ghost use Rattle.smil_stretch.specs.NodeClocks.{Fits, shown_by, stands_by};

use smil_model::HasSerial;

/// A clock, in milliseconds.
#[derive(Clone, Copy)]
pub enum Clock {
    /// It runs, and is behind document time by what it lost while it stood.
    Runs { lost: i64 },
    /// It stands, and shows this time.
    Stands { at: i64 },
}

/// The clock of a node.
#[derive(Clone, Copy)]
pub struct NodeClock {
    /// The serial of the node.
    pub serial: u32,
    /// Whether the node is an element that is itself paused.
    pub paused: bool,
    /// The place of its time parent in document order, from 0.
    pub parent: Option<u32>,
    /// Its clock, which stands while it or an element above it is paused.
    pub clock: Clock,
}

impl HasSerial for NodeClock {
    ghost serial = { λ node. node.serial };

    fn serial(&self) -> u32 {
        self.serial
    }
}

impl NodeClock {
    /// The place of the time parent of the node.
    pub(crate) fn parent_place(self) -> Option<usize>
        ensures { result ≡ self.parent }
    {
        match self.parent {
            Some(place) => Some(place as usize),
            None => None,
        }
    }
}

impl Clock {
    /// What the clock shows at a moment.
    pub(crate) fn shown(self, moment: i64) -> i64
        requires fits { Fits self }
        requires moment { IsMoment moment }
        ensures value { result ≡ shown self moment }
        ensures near { IsNear result }
    {
        match self {
            Clock::Runs { lost } => moment - lost,
            Clock::Stands { at } => at,
        }
    }

    /// Whether the clock stands.
    pub(crate) fn is_standing(self) -> bool
        ensures { result ≡ is_standing self }
    {
        matches!(self, Clock::Stands { .. })
    }

    /// The clock that shows the same at this moment, and stands or runs from then on.
    pub(crate) fn turned(self, stands: bool, moment: i64) -> Clock
        requires fits { Fits self }
        requires moment { IsMoment moment }
        ensures { result ≡ clock_by stands (shown self moment) moment }
    {
        let shown = self.shown(moment);
        if stands {
            Clock::Stands { at: shown }
        } else {
            Clock::Runs {
                lost: moment - shown,
            }
        }
    }
}

/// What the clock of a node shows at a moment; where there is none, it is the moment.
pub(crate) fn shown_by(node: Option<NodeClock>, moment: i64) -> i64
    requires fits { IfSome node (λ n. Fits n.clock) }
    requires moment { IsMoment moment }
    ensures value { result ≡ shown_by node moment }
    ensures near { IsNear result }
{
    match node {
        Some(node) => node.clock.shown(moment),
        None => moment,
    }
}

/// Whether the clock of a node stands; where there is none, it runs.
pub(crate) fn stands_by(node: Option<NodeClock>) -> bool
    ensures { result ≡ stands_by node }
{
    match node {
        Some(node) => node.clock.is_standing(),
        None => false,
    }
}
