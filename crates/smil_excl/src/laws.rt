//! Laws of queues. A function here has no code: its contract is the law.

ghost use Rattle.smil_excl.specs.Laws.{QueuesFollowEntries, FirstIsFirst, FirstLeaves};
ghost use Rattle.smil_excl.specs.Laws.{PausedIsHeldOnce, DeferredIsHeldOnce, OthersAreHeldOnce};
ghost use Rattle.smil_excl.specs.Laws.{RestIsHeldOnce, LeavingIsGone, WaitingAreHeldOnce};
ghost use Rattle.smil_excl.specs.Laws.{QueuesFit, PutInFits};

/// With the ranks that a document gives, `leave`, `pause`, `defer` and `clear` make of the queue of
/// an excl what one more entry makes of it, and `first` gives its first child. `take_first` is a
/// `leave` of that child.
pub fn queues_follow_entries()
    ensures follow { QueuesFollowEntries }
    ensures first { FirstIsFirst }
    ensures taken { FirstLeaves }
{}

/// A queue that holds each child once does so after each call: after a `pause` and a `defer` where
/// it doesn't hold the child, as after a `leave` of it. After any entries the queue of an excl
/// holds each child once.
pub fn children_are_held_once()
    ensures paused { PausedIsHeldOnce }
    ensures deferred { DeferredIsHeldOnce }
    ensures left { OthersAreHeldOnce }
    ensures taken { RestIsHeldOnce }
    ensures gone { LeavingIsGone }
    ensures waiting { WaitingAreHeldOnce }
{}

/// After lawful entries the queue of an excl holds no more children than the excl has time
/// children, and fewer where one of these has left it. So a queue with room for all time children
/// has room wherever a child is put in.
pub fn queues_have_room()
    ensures fit { QueuesFit }
    ensures room { PutInFits }
{}
