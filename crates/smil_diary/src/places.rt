//! Places in a diary, compared.

ghost use Rattle.std.specs.Prelude.{◌≡◌};
ghost use Rattle.smil_diary.specs.Places.{is_later, later_of, is_from};

/// Whether there is a first place, and no second one at it or after it.
pub(crate) fn is_later(first: Option<usize>, second: Option<usize>) -> bool
    ensures { result ≡ is_later first second }
{
    match (first, second) {
        (Some(first), Some(second)) => first > second,
        (first, _) => first.is_some(),
    }
}

/// The later of two places, each of which may be absent. It takes no memory.
pub fn later_of(first: Option<usize>, second: Option<usize>) -> Option<usize>
    ensures { result ≡ later_of first second }
{
    match (first, second) {
        (Some(first), Some(second)) => Some(first.max(second)),
        (None, second) => second,
        (first, None) => first,
    }
}

/// Whether there is a place, and it is not before `from`. It takes no memory.
pub fn is_from(from: usize, place: Option<usize>) -> bool
    ensures { result ≡ is_from from place }
{
    match place {
        Some(place) => from <= place,
        None => false,
    }
}
