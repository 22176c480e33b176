//! What happens: a begin, an end or a repeat, and the group of entries that it appends.

ghost use Rattle.std.specs.Prelude.{◌≡◌, IsSome, OnOk};
ghost use Rattle.smil_model.specs.document.Document.{node_at, time_parent};
ghost use Rattle.smil_model.specs.diary.Diary.{History};
ghost use Rattle.smil_model.specs.diary.Clocks.{outer};
ghost use Rattle.smil_model.specs.happening.Groups.{begin_under, end_steps as end_steps_of, follower as follower_of, followers as followers_of, interruption, repeat_steps as repeat_steps_of, steps_of};
ghost use Rattle.smil_model.specs.happening.Queue.{decision, queue_of};
ghost use Rattle.smil_element.specs.Parts.{AppendsBy, ArePartsOf, meant, next_of};

mod change;
mod cuts;
mod excl;
mod parts;

pub use change::{Change, DueChange};
use cuts::{put, stop};
use excl::{left_excl, rival};
pub use parts::Parts;
use smil_excl::decide;
use smil_model::{Act, Entry, Step};
use std::alloc::AllocError;

/// Appends the entries of one happening to a list, all at the moment of the parts: of an end or a
/// repeat the cuts of the element's active descendants, later ones first, then its own entry, and
/// where it played in an excl what the queue goes on with; of a begin in an excl what the class of
/// the playing child decides. The moment is not before the last entry of the diary. It takes time
/// for the nodes below the element. Refused where memory runs out, and then the list may hold a
/// part of the group. SMIL 3.0, "The excl element".
pub fn group_of(
    parts: &Parts<'_>,
    who: u32,
    change: Change,
    entries: &mut Vec<Entry>,
) -> Result<(), AllocError>
    requires known { IsSome (node_at parts.now.tree.now.nodes who) }
    requires parts { (h : History) × ArePartsOf parts.now h }
    ensures { OnOk result (AppendsBy parts.now entries.old entries.new
        (λ h m. steps_of h m who (meant change))) }
{
    match change {
        Change::Begins { begin } => begin_steps(parts, who, begin, entries),
        Change::Ends { end } => end_steps(parts, who, end, entries),
        Change::Repeats { start } => repeat_steps(parts, who, start, entries),
    }
}

// Appends a repeat: the cuts of what is below, and the repeat itself.
fn repeat_steps(
    parts: &Parts<'_>,
    who: u32,
    start: i64,
    entries: &mut Vec<Entry>,
) -> Result<(), AllocError>
    requires known { IsSome (node_at parts.now.tree.now.nodes who) }
    ensures { OnOk result (AppendsBy parts.now entries.old entries.new
        (λ h m. repeat_steps_of h who start)) }
{
    stop(parts, who, Step::Repeated { who, start }, entries)
}

// Appends an end: the cuts of what is below, the end itself, and what the queue goes on with.
fn end_steps(
    parts: &Parts<'_>,
    who: u32,
    end: i64,
    entries: &mut Vec<Entry>,
) -> Result<(), AllocError>
    requires known { IsSome (node_at parts.now.tree.now.nodes who) }
    requires parts { (h : History) × ArePartsOf parts.now h }
    ensures { OnOk result (AppendsBy parts.now entries.old entries.new
        (λ h m. end_steps_of h m who end)) }
{
    stop(parts, who, Step::Ended { who, end }, entries)?;
    followers(parts, who, entries)
}

// Appends what follows the end of an element: where it played in an excl, the queue goes on.
fn followers(parts: &Parts<'_>, who: u32, entries: &mut Vec<Entry>) -> Result<(), AllocError>
    requires known { IsSome (node_at parts.now.tree.now.nodes who) }
    requires parts { (h : History) × ArePartsOf parts.now h }
    ensures { OnOk result (AppendsBy parts.now entries.old entries.new
        (λ h m. followers_of h m who (time_parent h.nodes who))) }
{
    match left_excl(parts, who) {
        Some(excl) => follower(parts, excl, entries),
        None => Ok(()),
    }
}

// Appends what the queue of an excl goes on with: its first child resumes where it was paused, and
// begins where it was deferred.
fn follower(parts: &Parts<'_>, excl: u32, entries: &mut Vec<Entry>) -> Result<(), AllocError>
    requires known { IsSome (node_at parts.now.tree.now.nodes excl) }
    requires parts { (h : History) × ArePartsOf parts.now h }
    ensures { OnOk result (AppendsBy parts.now entries.old entries.new
        (λ h m. follower_of h m (queue_of h excl))) }
{
    match parts.queues.first(parts.tree, excl) {
        Some(first) => put(parts, next_step(parts, first), entries),
        None => Ok(()),
    }
}

// How the first child of a queue goes on.
fn next_step(parts: &Parts<'_>, first: u32) -> Step
    requires parts { (h : History) × ArePartsOf parts.now h }
    ensures { (h : History) → ArePartsOf parts.now h → result ≡ next_of h parts.now.moment first }
{
    if parts.book.paused(first) {
        Step::Resumed { who: first }
    } else {
        let begin = outer_of(parts, first);
        Step::Began { who: first, begin }
    }
}

// What the clock of an element's time parent shows.
fn outer_of(parts: &Parts<'_>, who: u32) -> i64
    requires parts { (h : History) × ArePartsOf parts.now h }
    ensures { (h : History) → ArePartsOf parts.now h → result ≡ outer h who parts.now.moment }
{
    parts.clocks.outer(who, parts.moment)
}

// Appends a begin: in an excl in which a child plays, what the class of that child decides.
fn begin_steps(
    parts: &Parts<'_>,
    who: u32,
    begin: i64,
    entries: &mut Vec<Entry>,
) -> Result<(), AllocError>
    requires known { IsSome (node_at parts.now.tree.now.nodes who) }
    requires parts { (h : History) × ArePartsOf parts.now h }
    ensures { OnOk result (AppendsBy parts.now entries.old entries.new
        (λ h m. begin_under h m who begin (time_parent h.nodes who))) }
{
    match rival(parts, who) {
        Some(playing) => interrupt(parts, Newcomer { who, begin }, playing, entries),
        None => put(parts, Step::Began { who, begin }, entries),
    }
}

// A child of an excl that is to begin, and the begin of its interval.
#[derive(Clone, Copy)]
struct Newcomer {
    who: u32,
    begin: i64,
}

// Appends a begin while another child plays: what the class of that child decides.
fn interrupt(
    parts: &Parts<'_>,
    newcomer: Newcomer,
    playing: u32,
    entries: &mut Vec<Entry>,
) -> Result<(), AllocError>
    requires newcomer { IsSome (node_at parts.now.tree.now.nodes newcomer.who) }
    requires known { IsSome (node_at parts.now.tree.now.nodes playing) }
    requires parts { (h : History) × ArePartsOf parts.now h }
    ensures { OnOk result (AppendsBy parts.now entries.old entries.new
        (λ h m. interruption h m newcomer.who newcomer.begin playing
        (decision h.nodes playing newcomer.who))) }
{
    let Newcomer { who, begin } = newcomer;
    match act_against(parts, playing, who) {
        Act::Stop => {
            let end = outer_of(parts, playing);
            stop(parts, playing, Step::Ended { who: playing, end }, entries)?;
            put(parts, Step::Began { who, begin }, entries)
        }
        Act::Pause => {
            put(parts, Step::Paused { who: playing }, entries)?;
            put(parts, Step::Began { who, begin }, entries)
        }
        Act::Defer => put(parts, Step::Deferred { who, begin }, entries),
        Act::Never => put(parts, Step::Passed { who, begin }, entries),
    }
}

// What is done when the newcomer begins while the other child plays.
fn act_against(parts: &Parts<'_>, playing: u32, newcomer: u32) -> Act
    requires newcomer { IsSome (node_at parts.now.tree.now.nodes newcomer) }
    requires known { IsSome (node_at parts.now.tree.now.nodes playing) }
    requires parts { (h : History) × ArePartsOf parts.now h }
    ensures { result ≡ decision parts.now.tree.now.nodes playing newcomer }
{
    let rank = parts.queues.class(parts.tree, newcomer).rank;
    decide(parts.queues.class(parts.tree, playing), rank)
}
