//! Entries of diaries, compared.

ghost use Rattle.std.specs.Prelude.{◌≡◌, ◌≤◌, length};
ghost use Rattle.smil_audit.specs.Entries.{agreed as agreed_of, is_same_entry as is_same, is_same_step as is_same_step_of};

use smil_model::{Entry, Step};

/// How many entries at the front of two diaries are the same. It takes no memory.
pub fn agreed(one: &[Entry], other: &[Entry]) -> usize
    ensures same { result ≡ agreed_of one.now other.now }
{
    let mut count = 0;
    while count < one.len() && count < other.len() {
        if !is_same_entry(one[count], other[count]) {
            return count;
        }
        count += 1;
    }
    count
}

/// Whether two entries are the same: the same moment, and the same step with the same value. It
/// takes no memory.
pub fn is_same_entry(one: Entry, other: Entry) -> bool
    ensures { result ≡ is_same one other }
{
    one.moment == other.moment && is_same_step(one.step, other.step)
}

// Whether two steps are the same kind of step on the same element with the same value.
fn is_same_step(one: Step, other: Step) -> bool
    ensures { result ≡ is_same_step_of one other }
{
    match (one, other) {
        (Step::Began { who: s, begin: v }, Step::Began { who: t, begin: w }) => s == t && v == w,
        (Step::Repeated { who: s, start: v }, Step::Repeated { who: t, start: w }) => {
            s == t && v == w
        }
        (Step::Ended { who: s, end: v }, Step::Ended { who: t, end: w }) => s == t && v == w,
        (Step::Cut { who: s }, Step::Cut { who: t }) => s == t,
        (Step::Paused { who: s }, Step::Paused { who: t }) => s == t,
        (Step::Resumed { who: s }, Step::Resumed { who: t }) => s == t,
        (Step::Deferred { who: s, begin: v }, Step::Deferred { who: t, begin: w }) => {
            s == t && v == w
        }
        (Step::Passed { who: s, begin: v }, Step::Passed { who: t, begin: w }) => s == t && v == w,
        (Step::Logged { place: s }, Step::Logged { place: t }) => s == t,
        _ => false,
    }
}
