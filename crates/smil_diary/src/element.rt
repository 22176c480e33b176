//! Where in a diary the last entries on one element stand.

ghost use Rattle.std.specs.Prelude.{◌≡◌, ◌<◌, ◌≤◌, IfSome};
ghost use Rattle.smil_model.specs.declared.limits.TheConstants as limits;
ghost use Rattle.smil_diary.specs.ElementPlaces.{active_by, birth_by, decision_by, deferred_by, last_of, noted, paused_by};

use super::places::{is_from, is_later, later_of};
use smil_model::StepKind;

/// The places in a diary of the last entries on one element, by kind; None where there is none.
#[derive(Clone, Copy)]
pub(crate) struct ElementPlaces {
    pub(crate) began: Option<u32>,
    pub(crate) ended: Option<u32>,
    pub(crate) cut: Option<u32>,
    pub(crate) repeated: Option<u32>,
    /// How many repeats there are since the last begin; None where there is no begin.
    pub(crate) repeats: Option<u32>,
    pub(crate) paused: Option<u32>,
    pub(crate) resumed: Option<u32>,
    pub(crate) deferred: Option<u32>,
    pub(crate) passed: Option<u32>,
}

/// No entries.
pub(crate) const NOTHING: ElementPlaces = ElementPlaces {
    began: None,
    ended: None,
    cut: None,
    repeated: None,
    repeats: None,
    paused: None,
    resumed: None,
    deferred: None,
    passed: None,
};

impl ElementPlaces {
    /// The last place of one kind.
    pub(crate) fn last(&self, kind: StepKind) -> Option<usize>
        ensures { result ≡ last_of self.now kind }
    {
        match kind {
            StepKind::Began => place(self.began),
            StepKind::Repeated => place(self.repeated),
            StepKind::Ended => place(self.ended),
            StepKind::Cut => place(self.cut),
            StepKind::Paused => place(self.paused),
            StepKind::Resumed => place(self.resumed),
            StepKind::Deferred => place(self.deferred),
            StepKind::Passed => place(self.passed),
        }
    }

    /// The place of the last begin or repeat.
    pub(crate) fn last_birth(&self) -> Option<usize>
        ensures { result ≡ birth_by self.now }
    {
        later_of(place(self.began), place(self.repeated))
    }

    /// Whether the last begin is after all ends and cuts.
    pub(crate) fn active(&self) -> bool
        ensures { result ≡ active_by self.now }
    {
        is_later(
            place(self.began),
            later_of(place(self.ended), place(self.cut)),
        )
    }

    /// Whether it is active, and the last pause is after all resumes and begins.
    pub(crate) fn paused(&self) -> bool
        ensures { result ≡ paused_by self.now }
    {
        self.active()
            && is_later(
                place(self.paused),
                later_of(place(self.resumed), place(self.began)),
            )
    }

    /// Whether the last deferral is not before `birth`, and after all begins, passes, ends and
    /// cuts.
    pub(crate) fn deferred_since(&self, birth: usize) -> bool
        ensures { result ≡ deferred_by birth self.now }
    {
        let deferred = place(self.deferred);
        is_from(birth, deferred) && is_later(deferred, self.last_decision())
    }

    // The place of the last begin, pass, end or cut.
    fn last_decision(&self) -> Option<usize>
        ensures { result ≡ decision_by self.now }
    {
        later_of(
            later_of(place(self.began), place(self.passed)),
            later_of(place(self.ended), place(self.cut)),
        )
    }

    /// Takes in the entry of a kind at this place, which is after all others.
    pub(crate) fn note(&mut self, kind: StepKind, place: usize)
        requires place { place < limits.DIARY_ENTRIES }
        requires few { IfSome self.old.repeats (λ repeats. repeats ≤ place) }
        ensures { self.new ≡ noted kind place self.old }
    {
        let here = Some(place as u32);
        match kind {
            StepKind::Began => {
                self.began = here;
                self.repeats = Some(0);
            }
            StepKind::Repeated => {
                self.repeated = here;
                if let Some(repeats) = self.repeats {
                    self.repeats = Some(repeats + 1);
                }
            }
            StepKind::Ended => self.ended = here,
            StepKind::Cut => self.cut = here,
            StepKind::Paused => self.paused = here,
            StepKind::Resumed => self.resumed = here,
            StepKind::Deferred => self.deferred = here,
            StepKind::Passed => self.passed = here,
        }
    }
}

// A place, as the entries are counted.
fn place(place: Option<u32>) -> Option<usize>
    ensures { result ≡ place }
{
    match place {
        Some(place) => Some(place as usize),
        None => None,
    }
}
