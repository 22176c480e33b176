//! SMIL's durations of one element: simple, intermediate and active, and the end of a play.
#![tactic(auto)]

ghost use Rattle.std.specs.Prelude.{◌≡◌, ℕ, Option, not, ◌||◌, is_some, IfSome};
ghost use Rattle.smil_model.specs.declared.document.Node.{Node as AnyNode};
ghost use Rattle.smil_model.specs.declared.interval.Interval.{Interval as AnyInterval};
ghost use Rattle.smil_model.specs.document.Document.{is_class_kind, is_container_kind, is_continuous};
ghost use Rattle.smil_model.specs.diary.Diary.{History};
ghost use Rattle.smil_model.specs.interval.Current.{implicit_of};
ghost use Rattle.smil_model.specs.interval.Durations.{simple_duration, intermediate_duration, bounds_of};
ghost use Rattle.smil_model.specs.document.Defaults.{takes_implicit};
ghost use Rattle.smil_model.specs.interval.Durations;

pub mod bounds;

pub use bounds::Bounds;
pub use smil_model::Play;
use smil_model::{Attrs, Dur, Kind, Time};

/// The simple duration of an element, in milliseconds on its own clock: what `dur` states, or the
/// implicit duration. Without `dur` it is the implicit duration, unless the element has an `end`
/// and nothing that repeats: then it is indefinite. SMIL 3.0, "Defining the simple duration".
pub fn simple(attrs: &Attrs, implicit: Time) -> Time
    ensures { result ≡ simple_duration attrs.now implicit }
{
    match attrs.dur {
        Some(Dur::Clock(length)) => Time::At(length),
        Some(Dur::Indefinite) => Time::Indefinite,
        Some(Dur::Media) => implicit,
        None => {
            if takes_implicit(attrs) {
                implicit
            } else {
                Time::Indefinite
            }
        }
    }
}

/// Whether the simple duration is the implicit one: with `dur="media"`, and without `dur` unless
/// the element has an `end` and nothing that repeats. SMIL 3.0, "Defining the simple duration".
pub fn takes_implicit(attrs: &Attrs) -> bool
    ensures { result ≡ takes_implicit attrs.now attrs.now.dur }
{
    match attrs.dur {
        Some(Dur::Media) => true,
        Some(_) => false,
        None => attrs.repeat_count.is_some() || attrs.repeat_dur.is_some() || attrs.end.is_none(),
    }
}

/// The implicit duration of an element whose kind alone tells it: 0 for still media, indefinite for
/// a `set`. None for a container, whose time children tell it, for continuous media, whose length a
/// player tells, and for a `priorityClass`. SMIL 3.0, "Defining the simple duration"; that of a `set`
/// is this project's reading.
pub fn implicit_by_kind(kind: Kind) -> Option<Time>
    ensures told { (h : History) (intervals : ℕ → Option AnyInterval) (e : AnyNode)
        → IfSome result (λ length. implicit_of h intervals e kind ≡ length) }
    ensures some { is_some result ≡ not
        (is_container_kind kind || is_continuous kind || is_class_kind kind) }
{
    match kind {
        Kind::Img | Kind::Text | Kind::Brush => Some(Time::At(0)),
        Kind::Set => Some(Time::Indefinite),
        _ => None,
    }
}

/// The intermediate active duration, in milliseconds on the element's own clock: the simple
/// duration with its repetitions, before `min` and `max`. A simple duration of 0 is not repeated.
/// SMIL 3.0, "Computing the active duration".
pub fn intermediate(attrs: &Attrs, simple: Time) -> Time
    ensures { result ≡ intermediate_duration (bounds_of attrs.now) simple }
{
    Bounds::of_attrs(attrs).intermediate(simple)
}

/// The active end of a play, in milliseconds on the element's own clock: where its iterations or
/// `repeatDur` end, from the present iteration on, between `min` and `max` after the play start.
/// SMIL 3.0, "Computing the active duration".
pub fn active_end(attrs: &Attrs, simple: Time, play: &Play) -> Time
    ensures { result ≡ Durations.active_end (bounds_of attrs.now) simple play.now.first
        play.now.start play.now.iteration }
{
    Bounds::of_attrs(attrs).active_end(simple, play)
}
