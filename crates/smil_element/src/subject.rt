//! An element at a moment, with what is found of it.

ghost use Rattle.std.specs.Prelude.{◌≡◌, true, option_map, slice_get};
ghost use Rattle.smil_model.specs.document.Document.{elements, node_at, time_parent};
ghost use Rattle.smil_model.specs.diary.Clocks.{parent_start};
ghost use Rattle.smil_model.specs.diary.Diary.{lives_under};
ghost use Rattle.smil_model.specs.diary.Lawful.{has_element};
ghost use Rattle.smil_past.specs.declared.makeup.ParentIndex.{ParentIndex as AnyParent};
ghost use Rattle.smil_past.specs.Past.{IsPresent, history_of};
ghost use Rattle.smil_element.specs.Subject.{IsFound};

use super::present::Present;
use smil_past::laws::makeups_tell_places;
use smil_past::syncs::row::SyncbaseRow;
use smil_past::{ParentIndex, Past, PlayFacts};
use smil_stretch::ClockReadings;

/// An element at a moment, with what is found of it: what is kept of its plays, what its items and
/// attributes tell, its time parent, whether that is alive and when its present iteration starts,
/// and what the clocks show, in milliseconds.
#[derive(Clone, Copy)]
pub struct Subject<'a> {
    pub present: Present<'a>,
    /// The element's index among the elements in document order, from 0.
    pub index: usize,
    pub played: &'a PlayFacts,
    pub row: &'a SyncbaseRow,
    pub parent: Option<u32>,
    /// Whether the time parent is active, or there is none.
    pub alive: bool,
    /// The start of the time parent's present iteration, on its own clock; 0 for the root.
    pub parent_start: i64,
    pub clocks: ClockReadings,
}

/// An element at a moment, with what is found of it. It takes one look-up, and no memory.
pub fn subject_of<'a>(present: &Present<'a>) -> Subject<'a>
    requires element { has_element present.now.past.now.document.nodes present.now.who ≡ true }
    requires moment { IsPresent present.now.past.now present.now.moment }
    ensures same { result.present ≡ present.now }
    ensures found { IsFound result }
{
    let index = present.past.index_of(present.who).unwrap();
    subject_at(present, index)
}

/// The element with this index among the elements in document order, from 0, at a moment, with what
/// is found of it. It takes no look-up, and no memory.
#[inline(always)]
pub fn subject_at<'a>(present: &Present<'a>, index: usize) -> Subject<'a>
    requires element { has_element present.now.past.now.document.nodes present.now.who ≡ true }
    requires index { slice_get (elements present.now.past.now.document.nodes) index
        ≡ node_at (elements present.now.past.now.document.nodes) present.now.who }
    requires moment { IsPresent present.now.past.now present.now.moment }
    ensures same { result.present ≡ present.now }
    ensures found { IsFound result }
{
    let above = parent_play(present.past, present.who, index);
    subject_under(present, index, above)
}

// The element with this index at a moment, with what is found of it, by whether its time parent is
// alive and when the present iteration of that starts.
#[inline(always)]
pub(crate) fn subject_under<'a>(
    present: &Present<'a>,
    index: usize,
    above: ParentPlay,
) -> Subject<'a>
    requires element { has_element present.now.past.now.document.nodes present.now.who ≡ true }
    requires index { slice_get (elements present.now.past.now.document.nodes) index
        ≡ node_at (elements present.now.past.now.document.nodes) present.now.who }
    requires moment { IsPresent present.now.past.now present.now.moment }
    requires alive { above.alive ≡ lives_under
        (time_parent present.now.past.now.document.nodes present.now.who)
        present.now.past.now.diary }
    requires start { above.start
        ≡ parent_start (history_of present.now.past.now) present.now.who }
    ensures same { result.present ≡ present.now }
    ensures found { IsFound result }
{
    let past = present.past;
    past.possible();
    makeups_tell_places();
    let played = past.plays().at(index);
    let row = past.syncs().at(index);
    let makeup = row.makeup();
    let clocks = past
        .clocks()
        .readings_at(makeup.node as usize, present.moment);
    Subject {
        present: *present,
        index,
        played,
        row,
        parent: serial_in(makeup.parent),
        alive: above.alive,
        parent_start: above.start,
        clocks,
    }
}

// The serial of a time parent.
#[inline(always)]
fn serial_in(parent: Option<ParentIndex>) -> Option<u32>
    ensures { result ≡ option_map (λ (p : AnyParent). p.serial) parent }
{
    match parent {
        Some(parent) => Some(parent.serial),
        None => None,
    }
}

/// Whether a time parent is alive, and the start of its present iteration.
#[derive(Clone, Copy)]
pub(crate) struct ParentPlay {
    pub(crate) alive: bool,
    pub(crate) start: i64,
}

// Whether the time parent of an element is active, or there is none, and the start of its present
// iteration; 0 for the root, which has no time parent.
#[inline(always)]
pub(crate) fn parent_play(past: &Past, who: u32, index: usize) -> ParentPlay
    requires element { has_element past.now.document.nodes who ≡ true }
    requires index { slice_get (elements past.now.document.nodes) index
        ≡ node_at (elements past.now.document.nodes) who }
    ensures alive { result.alive
        ≡ lives_under (time_parent past.now.document.nodes who) past.now.diary }
    ensures start { result.start ≡ parent_start (history_of past.now) who }
{
    past.possible();
    makeups_tell_places();
    let row = past.syncs().at(index);
    match row.makeup().parent {
        Some(parent) => {
            let played = past.plays().at(parent.index as usize);
            ParentPlay {
                alive: played.begun.is_some(),
                start: played.start,
            }
        }
        None => ParentPlay {
            alive: true,
            start: 0,
        },
    }
}
