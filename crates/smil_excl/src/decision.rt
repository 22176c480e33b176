//! What is done when a child of an excl begins while another plays.

ghost use Rattle.std.specs.Prelude.{◌≡◌};
ghost use Rattle.smil_model.specs.happening.Queue.{decide_by};

use smil_model::{Act, Class};

/// What is done when a child begins while another plays, by the class of the playing child and the
/// rank of the newcomer: `peers` where they are in one class, `higher` where the newcomer's class
/// is earlier in the document, else `lower`. It takes no memory. SMIL 3.0, "The priorityClass
/// element".
pub fn decide(playing: Class, newcomer: u32) -> Act
    ensures { result ≡ decide_by playing newcomer }
{
    if newcomer == playing.rank {
        playing.peers
    } else if newcomer < playing.rank {
        playing.higher
    } else {
        playing.lower
    }
}
