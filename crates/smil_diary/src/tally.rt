//! How many intervals of an element finished since its birth, counted entry by entry.

ghost use Rattle.std.specs.Prelude.{◌≡◌, ◌<◌};
ghost use Rattle.smil_model.specs.declared.limits.TheConstants as limits;
ghost use Rattle.smil_diary.specs.Tallies.{is_birth, play_ends, tally_after, tally_on};

use smil_model::Step;

/// Whether an element plays, and how many of its intervals finished since birth.
#[derive(Clone, Copy)]
pub(crate) struct Tally {
    pub(crate) playing: bool,
    pub(crate) finished: u32,
}

impl Tally {
    /// The tally of an element after a step. A birth under its time parent forgets what finished.
    pub(crate) fn after(self, parent: Option<u32>, who: u32, step: Step) -> Tally
        requires { self.finished < limits.DIARY_ENTRIES }
        ensures { result ≡ tally_after parent who self step }
    {
        if is_birth(parent, step) {
            Tally {
                playing: self.playing,
                finished: 0,
            }
        } else {
            self.on(who, step)
        }
    }

    // The tally after a step that is no birth.
    fn on(self, who: u32, step: Step) -> Tally
        requires { self.finished < limits.DIARY_ENTRIES }
        ensures { result ≡ tally_on who self step }
    {
        match step {
            Step::Began { who: on, .. } if on == who => Tally {
                playing: true,
                finished: self.finished,
            },
            Step::Ended { who: on, .. } if on == who => self.ended(),
            Step::Cut { who: on } if on == who => self.ended(),
            _ => self,
        }
    }

    // The tally after an end or a cut, which is counted where there is a play.
    fn ended(self) -> Tally
        requires { self.finished < limits.DIARY_ENTRIES }
        ensures { result ≡ play_ends self }
    {
        Tally {
            playing: false,
            finished: if self.playing {
                self.finished + 1
            } else {
                self.finished
            },
        }
    }
}

// Whether a step is a birth under this time parent.
fn is_birth(parent: Option<u32>, step: Step) -> bool
    ensures { result ≡ is_birth parent step }
{
    let Some(parent) = parent else {
        return false;
    };
    match step {
        Step::Began { who, .. } => who == parent,
        Step::Repeated { who, .. } => who == parent,
        _ => false,
    }
}
