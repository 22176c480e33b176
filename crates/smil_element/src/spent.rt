//! Elements that have had their last interval.

ghost use Rattle.std.specs.Prelude.{◌≡◌, [], ℤ, Some, None, true, false, not, int_le, filter, slice_get};
ghost use Rattle.smil_model.specs.declared.document.Node.{Node as AnyNode};
ghost use Rattle.smil_model.specs.declared.times.Time.TheVariants.{At};
ghost use Rattle.smil_model.specs.document.Document.{elements, node_at};
ghost use Rattle.smil_model.specs.diary.Diary.{is_active};
ghost use Rattle.smil_model.specs.diary.Lawful.{has_element};
ghost use Rattle.smil_model.specs.Rising.{IsRising};
ghost use Rattle.smil_model.specs.interval.Current.{interval_given};
ghost use Rattle.smil_model.specs.interval.Intervals.{after_end, is_from};
ghost use Rattle.smil_past.specs.Past.{history_of};

use super::expected::gives_none;
use super::intervals::Intervals;
use super::present::Present;
use smil_model::Edge;

// Whether an element that isn't active has had its last interval: one has finished since birth, no
// other element gives its begin list a time, and each of its begins is before that finish.
#[inline(always)]
pub(crate) fn is_spent<J: Intervals>(present: &Present<'_>, index: usize, intervals: &J) -> bool
    requires element { has_element present.now.past.now.document.nodes present.now.who ≡ true }
    requires index { slice_get (elements present.now.past.now.document.nodes) index
        ≡ node_at (elements present.now.past.now.document.nodes) present.now.who }
    ensures idle { result ≡ true
        → is_active (history_of present.now.past.now).diary present.now.who ≡ false }
    ensures none { result ≡ true → (e : AnyNode)
        → node_at (elements present.now.past.now.document.nodes) present.now.who ≡ Some e
        → interval_given (history_of present.now.past.now) (J.given intervals.now)
        present.now.moment e ≡ None }
{
    let past = present.past;
    past.possible();
    let played = past.plays().at(index);
    if played.begun.is_some() {
        return false;
    }
    let Some(last) = played.last_finished else {
        return false;
    };
    if !gives_none(past, intervals, past.syncs().at(index).side(Edge::Begin)) {
        return false;
    }
    are_before(past.instances().begins_at(index), last.finish)
}

// Whether each of rising begins is before a number.
#[inline(always)]
fn are_before(begins: &[i64], finish: i64) -> bool
    requires { IsRising int_le begins.now }
    ensures { result ≡ true → (begin : ℤ)
        → filter (is_from (Some (after_end begin (At finish)))) begins.now ≡ [] }
{
    match begins.last() {
        Some(begin) => is_before(*begin, finish),
        None => true,
    }
}

// Whether a begin is before a number.
fn is_before(begin: i64, finish: i64) -> bool
    ensures { result ≡ not (int_le finish begin) }
{
    begin < finish
}
