//! The ends of the time children of each element, kept while the endings of elements change.

ghost use Rattle.std.specs.Prelude.{◌≡◌, ◌↔◌, ◌<◌, ◌&&◌, [], Some, true, is_some, length, map, slice_get, slice_index_or, IfOk, IsTrue};
ghost use Rattle.smil_model.specs.declared.document.Node.{Node as AnyNode};
ghost use Rattle.smil_model.specs.document.Document.{elements, node_at};
ghost use Rattle.smil_model.specs.document.Closure.{has};
ghost use Rattle.smil_model.specs.document.Defaults.{endsync_of};
ghost use Rattle.smil_model.specs.document.Dependencies.{has_implicit_duration};
ghost use Rattle.smil_model.specs.document.Values.{has_endsync};
ghost use Rattle.smil_model.specs.diary.Lawful.{has_element};
ghost use Rattle.smil_model.specs.interval.Durations.{container_duration};
ghost use Rattle.smil_rounds.specs.Round.{AreOfElements};
ghost use Rattle.smil_nodes.specs.Endings.{AreHomes, HasHome, ending_in, home_at, named_ends, put_ending};

use super::schedule::Schedule;
use smil_duration::takes_implicit;
use smil_element::{Ending, is_named};
use smil_endsync::{Ends, Summing, by_endsync};
use smil_instance_rows::copy_each;
use smil_model::{Attrs, ChildEnd, Duplicate, Endsync, Kind, Time, position_in};
use smil_tree::Tree;
use std::alloc::{AllocError, Global};
use std::marker::Model;

/// Where the ending of an element stands: the index of its container among the elements, and its
/// own place, from 0, among the container's time children.
#[derive(Clone, Copy)]
pub struct Home {
    pub container: u32,
    pub child: u32,
}

/// Of the elements of a document, in document order, the ends of the time children of each, and
/// where its own ending stands among those of its container, if the duration of that follows from
/// them; seen as both lists.
pub struct Endings {
    homes: Vec<Option<Home>>,
    ends: Vec<Ends>,
}

impl Drop for Endings {
    // Dropped by a call of its own, not field by field in each function that drops one.
    fn drop(self) {
        let Endings {
            homes: _homes,
            ends: _ends,
        } = self;
    }
}

impl Model for Endings {
    ghost use Rattle.smil_nodes.specs.Endings.{KeptEnds, AreHoused};

    ghost Value = { KeptEnds };

    ghost view = { λ a. record { homes = a.homes.items; ends = a.ends.items } };

    ghost invariant = { λ a. AreHoused a.homes.items a.ends.items };
}

impl Duplicate for Endings {
    fn copy(&self) -> Result<Self, AllocError> {
        let alloc = *self.homes.allocator();
        let homes = Vec::from_slice(alloc, &self.homes)?;
        let ends = copy_each(alloc, &self.ends)?;
        Ok(Endings { homes, ends })
    }
}

impl Endings {
    /// The ends of the time children of the elements that have these rows, none known yet. It takes
    /// a step for each element, and memory for each; refused where memory runs out.
    pub fn of(alloc: Global, tree: &Tree, schedule: &Schedule) -> Result<Endings, AllocError>
        requires { AreOfElements tree.now.nodes schedule.now }
        ensures homes { IfOk result (λ made. AreHomes tree.now.nodes made.homes) }
        ensures ends { IfOk result (λ made. made.ends
            ≡ map (named_ends tree.now.nodes) (elements tree.now.nodes)) }
    {
        Ok(Endings {
            homes: homes_of(alloc, tree, schedule)?,
            ends: ends_of(alloc, tree, schedule)?,
        })
    }

    /// Whether the ending of the element with an index is kept, as its container's duration follows
    /// from it. It takes no memory.
    pub fn keeps(&self, index: usize) -> bool
        ensures { result ≡ is_some (home_at self.now.homes index) }
    {
        home_in(&self.homes, index).is_some()
    }

    /// The ending of the element with an index; one without ends where it is not kept. It takes no
    /// memory.
    pub fn ending(&self, index: usize) -> Ending
        ensures { result ≡ ending_in self.now index }
    {
        match home_in(&self.homes, index) {
            Some(home) => {
                let end = self.ends[home.container as usize].end(home.child as usize);
                Ending {
                    first: end.first,
                    latest: end.latest,
                }
            }
            None => Ending {
                first: None,
                latest: None,
            },
        }
    }

    /// Puts the ending of the element with an index; where it is not kept nothing changes. It takes
    /// log n steps for n time children of the container, and no memory.
    pub fn put(&mut self, index: usize, ending: Ending)
        ensures { self.new ≡ put_ending self.old index ending }
    {
        let Some(home) = home_in(&self.homes, index) else {
            return;
        };
        self.ends[home.container as usize].set(home.child as usize, ending.first, ending.latest);
    }

    /// The implicit duration of the active container with an index, which has this kind and these
    /// attributes; `start` is the start of its present iteration. Both are in milliseconds on its
    /// own clock. It takes a fixed number of steps, and no memory.
    pub fn implicit(&self, index: usize, kind: Kind, attrs: &Attrs, start: i64) -> Time
        requires { index < length self.now.ends }
        ensures { result ≡ container_duration kind (endsync_of attrs.now) start
            (slice_index_or self.now.ends index []) }
    {
        let ends = &self.ends[index];
        by_endsync(attrs, |endsync| ends.implicit(kind, endsync, start))
    }
}

// Where the ending of the element with an index stands; None where it is not kept.
fn home_in(homes: &[Option<Home>], index: usize) -> Option<Home>
    ensures { result ≡ home_at homes.now index }
{
    match homes.get(index) {
        Some(home) => *home,
        None => None,
    }
}

// Where the endings of the elements stand.
fn homes_of(
    alloc: Global,
    tree: &Tree,
    schedule: &Schedule,
) -> Result<Vec<Option<Home>>, AllocError>
    requires { AreOfElements tree.now.nodes schedule.now }
    ensures { IfOk result (λ homes. AreHomes tree.now.nodes homes.items) }
{
    tree.valid();
    let mut nexts = Vec::from_elem(alloc, 0, schedule.rows().len())?;
    let mut homes = Vec::with_capacity(alloc, schedule.rows().len())?;
    for row in schedule.rows() {
        homes.push(home_of(tree, schedule, row.serial, &mut nexts))?;
    }
    Ok(homes)
}

// Where the ending of an element stands, if its container's duration is implicit. `nexts` has for
// each element the place of that of its time children that is expected next.
fn home_of(tree: &Tree, schedule: &Schedule, who: u32, nexts: &mut Vec<usize>) -> Option<Home>
    requires of_elements { AreOfElements tree.now.nodes schedule.now }
    requires element { has_element tree.now.nodes who ≡ true }
    requires nexts { length nexts.old.items ≡ length schedule.now }
    ensures home { HasHome tree.now.nodes who result }
    ensures nexts { length nexts.new.items ≡ length nexts.old.items }
{
    tree.valid();
    let parent = tree.time_parent(who)?;
    if !takes_implicit(tree.attrs(parent)) {
        return None;
    }
    let container = schedule.index_of(parent).unwrap();
    let child = place_among(tree.time_children(parent), who, nexts[container]);
    nexts[container] = child + 1;
    Some(Home {
        container: container as u32,
        child: child as u32,
    })
}

// The place of a serial among others, where it is looked for at an expected place first.
fn place_among(serials: &[u32], who: u32, expected: usize) -> usize
    requires { has serials.now who ≡ true }
    ensures { slice_get serials.now result ≡ Some who }
{
    if is_at(serials, expected, who) {
        return expected;
    }
    position_in(serials, who).unwrap()
}

// Whether a serial stands at a place.
fn is_at(serials: &[u32], place: usize, who: u32) -> bool
    ensures { IsTrue result ↔ (slice_get serials.now place ≡ Some who) }
{
    match serials.get(place) {
        Some(serial) => *serial == who,
        None => false,
    }
}

// The ends of the time children of the elements, none known.
fn ends_of(alloc: Global, tree: &Tree, schedule: &Schedule) -> Result<Vec<Ends>, AllocError>
    requires { AreOfElements tree.now.nodes schedule.now }
    ensures { IfOk result (λ ends. ends.items
        ≡ map (named_ends tree.now.nodes) (elements tree.now.nodes)) }
{
    tree.valid();
    let mut ends = Vec::with_capacity(alloc, schedule.rows().len())?;
    for row in schedule.rows() {
        ends.push(ends_below(alloc, tree, row.serial)?)?;
    }
    Ok(ends)
}

// The ends of the time children of an element, none known.
fn ends_below(alloc: Global, tree: &Tree, who: u32) -> Result<Ends, AllocError>
    requires { has_element tree.now.nodes who ≡ true }
    ensures { (e : AnyNode) → node_at (elements tree.now.nodes) who ≡ Some e
        → IfOk result (λ ends. ends ≡ named_ends tree.now.nodes e) }
{
    tree.valid();
    if tree.time_children(who).is_empty() {
        return Ends::of(alloc, Vec::new(alloc), None);
    }
    let children = children_of(alloc, tree, who)?;
    Ends::of(alloc, children, summing_of(tree, who))
}

// By which rule the duration of an element follows from the ends of all its time children, if it
// does.
fn summing_of(tree: &Tree, who: u32) -> Option<Summing>
    requires { has_element tree.now.nodes who ≡ true }
    ensures { (e : AnyNode) → node_at (elements tree.now.nodes) who ≡ Some e
        → is_some result ≡ (has_endsync e.kind && has_implicit_duration e) }
{
    tree.valid();
    if is_summed(tree, who) {
        Some(rule_of(&tree.attrs(who).endsync))
    } else {
        None
    }
}

// The rule of a value of `endsync`; `last`, where no child has the name that it has.
fn rule_of(endsync: &Option<Endsync>) -> Summing {
    match endsync {
        Some(Endsync::First) => Summing::First,
        Some(Endsync::All) => Summing::All,
        _ => Summing::Last,
    }
}

// Whether the duration of an element follows from the ends of all its time children.
fn is_summed(tree: &Tree, who: u32) -> bool
    requires { has_element tree.now.nodes who ≡ true }
    ensures { (e : AnyNode) → node_at (elements tree.now.nodes) who ≡ Some e
        → result ≡ (has_endsync e.kind && has_implicit_duration e) }
{
    tree.valid();
    has_endsync(tree.kind(who)) && takes_implicit(tree.attrs(who))
}

// Whether the end of an element may follow from those of all its time children.
fn has_endsync(kind: Kind) -> bool
    ensures { result ≡ has_endsync kind }
{
    matches!(kind, Kind::Par | Kind::Excl)
}

// The ends of the time children of an element, none known.
fn children_of(alloc: Global, tree: &Tree, who: u32) -> Result<Vec<ChildEnd>, AllocError>
    requires { has_element tree.now.nodes who ≡ true }
    ensures { (e : AnyNode) → node_at (elements tree.now.nodes) who ≡ Some e
        → IfOk result (λ ends. ends.items ≡ named_ends tree.now.nodes e) }
{
    tree.valid();
    let mut ends = Vec::with_capacity(alloc, tree.time_children(who).len())?;
    for child in tree.time_children(who) {
        ends.push(ChildEnd {
            named: is_named(tree.attrs(who), tree.attrs(*child)),
            first: None,
            latest: None,
        })?;
    }
    Ok(ends)
}
