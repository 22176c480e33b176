//! Which element a step is on, and of which kind it is.

ghost use Rattle.std.specs.Prelude.{◌≡◌};
ghost use Rattle.smil_model.specs.diary.Diary.{is_step};
ghost use Rattle.smil_diary.specs.ElementPlaces.{subject};

use smil_model::{Step, StepKind};

/// The element that a step is on, and the step's kind; None for a log entry that was heard.
pub(crate) fn subject(step: &Step) -> Option<(u32, StepKind)>
    ensures { result ≡ subject step.now }
{
    match *step {
        Step::Began { who, .. } => Some((who, StepKind::Began)),
        Step::Repeated { who, .. } => Some((who, StepKind::Repeated)),
        Step::Ended { who, .. } => Some((who, StepKind::Ended)),
        Step::Cut { who } => Some((who, StepKind::Cut)),
        Step::Paused { who } => Some((who, StepKind::Paused)),
        Step::Resumed { who } => Some((who, StepKind::Resumed)),
        Step::Deferred { who, .. } => Some((who, StepKind::Deferred)),
        Step::Passed { who, .. } => Some((who, StepKind::Passed)),
        Step::Logged { .. } => None,
    }
}

/// Whether a step is of this kind, and on this element.
pub(crate) fn is_step(kind: StepKind, who: u32, step: Step) -> bool
    ensures { result ≡ is_step kind who step }
{
    match (kind, step) {
        (StepKind::Began, Step::Began { who: on, .. }) => on == who,
        (StepKind::Repeated, Step::Repeated { who: on, .. }) => on == who,
        (StepKind::Ended, Step::Ended { who: on, .. }) => on == who,
        (StepKind::Cut, Step::Cut { who: on }) => on == who,
        (StepKind::Paused, Step::Paused { who: on }) => on == who,
        (StepKind::Resumed, Step::Resumed { who: on }) => on == who,
        (StepKind::Deferred, Step::Deferred { who: on, .. }) => on == who,
        (StepKind::Passed, Step::Passed { who: on, .. }) => on == who,
        _ => false,
    }
}
