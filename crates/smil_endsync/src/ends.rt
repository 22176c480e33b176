//! The ends of the time children of one container, kept under a change of one child.

ghost use Rattle.std.specs.Prelude.{◌≡◌, ◌↔◌, ◌<◌, ◌≤◌, List, Some, IfOk, IfSome, IsTrue, length, find, map, option_map, slice_get, slice_set, unwrap_or};
ghost use Rattle.std.specs.List.{position};
ghost use Rattle.smil_model.specs.Tournaments.{IsSum, most_items};
ghost use Rattle.smil_model.specs.declared.interval.ChildEnd.{ChildEnd as AnyEnd};
ghost use Rattle.smil_model.specs.interval.Durations;
ghost use Rattle.smil_model.specs.interval.Durations.{container_duration};
ghost use Rattle.smil_endsync.specs.Ends.{both_ends, greatest_of, greatest_or, least_or, one_end, set_ends};
ghost use Rattle.smil_endsync.specs.declared.ends.EndSummary.TheVariants.{NoEnd};
ghost use Rattle.smil_endsync.specs.declared.ends.Summing.TheVariants.{Last};

use super::{all_end, first_end, last_end, seq_end, since};
use smil_model::{
    ChildEnd, Contender, Duplicate, Endsync, Kind, Time, Tournament, greatest, least,
};
use std::alloc::{AllocError, Global};
use std::marker::Model;

/// By which rule the ends of children are summed, as the value of `endsync` asks.
#[derive(Clone, Copy, PartialEq, Eq)]
pub enum Summing {
    /// The greatest of the latest ends, where a child has one.
    Last,
    /// The least of the first ends, none counting as unresolved.
    First,
    /// The greatest of the latest ends, none counting as unresolved.
    All,
}

/// What the ends of children side by side come to.
#[derive(Clone, Copy, PartialEq, Eq)]
pub enum EndSummary {
    /// No end.
    NoEnd,
    /// The least of ends.
    Least(Time),
    /// The greatest of ends.
    Greatest(Time),
}

impl EndSummary {
    // The least of the ends where that is what they come to, else another time.
    fn least_or(self, other: Time) -> Time
        ensures { result ≡ least_or self other }
    {
        match self {
            EndSummary::Least(end) => end,
            _ => other,
        }
    }

    // The greatest of the ends where that is what they come to, else another time.
    fn greatest_or(self, other: Time) -> Time
        ensures { result ≡ greatest_or self other }
    {
        match self {
            EndSummary::Greatest(end) => end,
            _ => other,
        }
    }
}

impl Contender for EndSummary {
    ghost use Rattle.smil_endsync.specs.Ends.{both_ends};
    ghost use Rattle.smil_endsync.specs.declared.ends.EndSummary.TheVariants.{NoEnd};

    ghost none = { NoEnd };

    ghost both = { both_ends };

    // What no children come to.
    fn none() -> EndSummary {
        EndSummary::NoEnd
    }

    // What two groups of children come to, one behind the other. Where one is a least and the other
    // a greatest of ends, which are never summed together, it is the latter.
    fn with(self, behind: EndSummary) -> EndSummary {
        match (self, behind) {
            (EndSummary::Greatest(one), EndSummary::Greatest(other)) => {
                EndSummary::Greatest(greatest(one, other))
            }
            (EndSummary::Least(one), EndSummary::Least(other)) => {
                EndSummary::Least(least(one, other))
            }
            (EndSummary::NoEnd, _) | (EndSummary::Least(_), EndSummary::Greatest(_)) => behind,
            _ => self,
        }
    }

    // Whether two groups of children come to the same.
    fn is_same(self, other: EndSummary) -> bool {
        self == other
    }
}

/// The ends of the time children of a container, in document order, under a tournament of what
/// neighbours come to; seen as the list of the ends.
#[derive(Drop)]
pub struct Ends {
    children: Vec<ChildEnd>,
    /// Which child the container's `endsync` names.
    named: Option<usize>,
    /// By which rule the ends are summed, if they are.
    summing: Summing,
    /// What each child comes to by that rule, where that is summed.
    summaries: Option<Tournament<EndSummary>>,
}

impl Model for Ends {
    ghost use Rattle.std.specs.Prelude.{List};
    ghost use Rattle.smil_model.specs.declared.interval.ChildEnd.{ChildEnd as AnyEnd};
    ghost use Rattle.smil_endsync.specs.Ends.{AreSummed};

    ghost Value = { List AnyEnd };

    ghost view = { λ a. a.children.items };

    ghost invariant = { λ a. AreSummed a.children.items a.named a.summing a.summaries };
}

impl Duplicate for Ends {
    fn copy(&self) -> Result<Self, AllocError> {
        Ok(Ends {
            named: self.named,
            summing: self.summing,
            summaries: copy_of(&self.summaries)?,
            children: self.children.clone()?,
        })
    }
}

impl Ends {
    /// These ends, of at most 2^32 children. It takes a step for each child, and where they are to
    /// be summed by a rule, as a duration wants that follows from all of them, memory for a summary
    /// of each and of neighbours; refused where memory runs out.
    pub fn of(
        alloc: Global,
        children: Vec<ChildEnd>,
        summing: Option<Summing>,
    ) -> Result<Ends, AllocError>
        requires { length children.items ≤ most_items }
        ensures { IfOk result (λ ends. ends ≡ children.items) }
    {
        Ok(Ends {
            named: named_place(&children),
            summing: summing.unwrap_or(Summing::Last),
            summaries: summed(alloc, &children, summing)?,
            children,
        })
    }

    /// The ends of a child. It takes no memory.
    pub fn end(&self, child: usize) -> ChildEnd
        requires { child < length self.now }
        ensures { slice_get self.now child ≡ Some result }
    {
        self.children[child]
    }

    /// Puts the first and the latest end of a child. Whether it is named stays. It takes log n
    /// steps at most for n children that are summed, a fixed number where they are not or the ends
    /// are as before, and no memory.
    pub fn set(&mut self, child: usize, first: Option<Time>, latest: Option<Time>)
        requires { child < length self.old }
        ensures { self.new ≡ set_ends self.old child first latest }
    {
        let end = ChildEnd {
            named: self.children[child].named,
            first,
            latest,
        };
        self.children[child] = end;
        put_summary(&mut self.summaries, child, one(self.summing, end));
    }

    /// The implicit duration of an active container with these time children, in milliseconds, as
    /// the function `implicit` gives it. It takes a fixed number of steps for a seq, by a named
    /// child and where the ends are summed as `endsync` asks, else one for each child; and no
    /// memory.
    pub fn implicit(&self, kind: Kind, endsync: &Endsync, start: i64) -> Time
        ensures { result ≡ container_duration kind endsync.now start self.now }
    {
        if self.children.is_empty() {
            return Time::At(0);
        }
        greatest(
            Time::At(0),
            since(start, self.children_end(kind, endsync, start)),
        )
    }

    // Where the children of the container end.
    fn children_end(&self, kind: Kind, endsync: &Endsync, start: i64) -> Time
        ensures { result ≡ Durations.children_end kind endsync.now start self.now }
    {
        match kind {
            Kind::Seq => seq_end(&self.children),
            _ => self.endsync_end(endsync, start),
        }
    }

    // Where the children of a par or excl end.
    fn endsync_end(&self, endsync: &Endsync, start: i64) -> Time
        ensures { result ≡ Durations.endsync_end endsync.now start self.now }
    {
        match endsync {
            Endsync::Last => self.last_end(start),
            Endsync::First => self.first_end(),
            Endsync::All => self.all_end(),
            Endsync::Child(_) => self.named_end(start),
        }
    }

    // What all children come to by a rule, where they are summed by it.
    fn top(&self, summing: Summing) -> Option<EndSummary>
        ensures { (sum : List EndSummary → EndSummary) → IsSum NoEnd both_ends sum
            → IfSome result (λ all. all ≡ sum (map (one_end summing) self.now)) }
    {
        if is_same_rule(self.summing, summing) {
            top_of(&self.summaries)
        } else {
            None
        }
    }

    // The greatest of the latest ends. Children without one do not count, and `start` is it where
    // none counts.
    fn last_end(&self, start: i64) -> Time
        ensures { result ≡ Durations.last_end start self.now }
    {
        match self.top(Summing::Last) {
            Some(all) => all.greatest_or(Time::At(start)),
            None => last_end(start, &self.children),
        }
    }

    // The least of the first ends, none counting as unresolved.
    fn first_end(&self) -> Time
        ensures { result ≡ Durations.first_end self.now }
    {
        match self.top(Summing::First) {
            Some(all) => all.least_or(Time::Unresolved),
            None => first_end(&self.children),
        }
    }

    // The greatest of the latest ends, none counting as unresolved.
    fn all_end(&self) -> Time
        ensures { result ≡ Durations.all_end self.now }
    {
        match self.top(Summing::All) {
            Some(all) => all.greatest_or(Time::Unresolved),
            None => all_end(&self.children),
        }
    }

    // The first end of the named child, none counting as unresolved. Where no child is named, the
    // last end.
    fn named_end(&self, start: i64) -> Time
        ensures { result ≡ Durations.named_end start self.now (find (λ c. c.named) self.now) }
    {
        match self.named {
            Some(child) => self.children[child].first.unwrap_or(Time::Unresolved),
            None => self.last_end(start),
        }
    }
}

// Whether two rules are the same.
fn is_same_rule(one: Summing, other: Summing) -> bool
    ensures { IsTrue result ↔ (one ≡ other) }
{
    one == other
}

// What all children come to, where they are summed.
fn top_of(summaries: &Option<Tournament<EndSummary>>) -> Option<EndSummary>
    ensures { (sum : List EndSummary → EndSummary) → IsSum NoEnd both_ends sum
        → result ≡ option_map sum summaries.now }
{
    match summaries {
        Some(summaries) => Some(summaries.top()),
        None => None,
    }
}

// The place of the named child.
fn named_place(children: &[ChildEnd]) -> Option<usize>
    ensures { result ≡ position (λ (c : AnyEnd). c.named) children.now }
{
    children.iter().position(|child| child.named)
}

// What one child comes to by a rule.
fn one(summing: Summing, end: ChildEnd) -> EndSummary
    ensures { result ≡ one_end summing end }
{
    match summing {
        Summing::First => EndSummary::Least(end.first.unwrap_or(Time::Unresolved)),
        Summing::All => EndSummary::Greatest(end.latest.unwrap_or(Time::Unresolved)),
        Summing::Last => greatest_of(end.latest),
    }
}

// A greatest end, if there is one.
fn greatest_of(end: Option<Time>) -> EndSummary
    ensures { result ≡ greatest_of end }
{
    match end {
        Some(end) => EndSummary::Greatest(end),
        None => EndSummary::NoEnd,
    }
}

// What each child comes to by a rule, under a tournament, where that is to be summed.
fn summed(
    alloc: Global,
    children: &[ChildEnd],
    summing: Option<Summing>,
) -> Result<Option<Tournament<EndSummary>>, AllocError>
    requires { length children.now ≤ most_items }
    ensures { IfOk result (λ made. IfSome made (λ all. all
        ≡ map (one_end (unwrap_or summing Last)) children.now)) }
{
    let Some(summing) = summing else {
        return Ok(None);
    };
    let summaries = summaries(alloc, summing, children)?;
    Ok(Some(Tournament::of(alloc, summaries.as_slice())?))
}

// A copy of what each child comes to, where that is summed.
fn copy_of(
    summaries: &Option<Tournament<EndSummary>>,
) -> Result<Option<Tournament<EndSummary>>, AllocError>
    ensures { IfOk result (λ copy. copy ≡ summaries.now) }
{
    match summaries {
        Some(summaries) => Ok(Some(summaries.copy()?)),
        None => Ok(None),
    }
}

// Puts what a child comes to, where that is summed.
fn put_summary(summaries: &mut Option<Tournament<EndSummary>>, child: usize, summary: EndSummary)
    requires { IfSome summaries.old (λ old. child < length old) }
    ensures { summaries.new ≡ option_map (λ old. slice_set old child summary) summaries.old }
{
    if let Some(summaries) = summaries {
        summaries.set(child, summary);
    }
}

// What each child comes to by a rule.
fn summaries(
    alloc: Global,
    summing: Summing,
    children: &[ChildEnd],
) -> Result<Vec<EndSummary>, AllocError>
    ensures { IfOk result (λ summaries. summaries.items ≡ map (one_end summing) children.now) }
{
    let mut summaries = Vec::with_capacity(alloc, children.len())?;
    for child in children {
        summaries.push(one(summing, *child))?;
    }
    Ok(summaries)
}
