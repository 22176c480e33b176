//! Strongly connected components: the groups of places that lead to one another along links, found
//! by one depth-first search that keeps a path of open groups.

ghost use Rattle.std.specs.Prelude.{◌≡◌, ℕ, ◌+◌, ◌^◌, ◌<◌, List, [], ◌∷◌, length, map, slice_get, slice_index, OnOk, IfOk, Some};
ghost use Rattle.smil_graph.specs.Links.{AreBelow, StayBelow};
ghost use Rattle.smil_graph.specs.Components as model;
ghost use Rattle.smil_graph.specs.Components.{IsGrouping, StayKnown, mark_at, untouched, opened, met, followed, closed_from, marked_all, left, level_of, without_above, IsStep};

use super::stack::Stack;
use smil_flat_lists::FlatLists;
use std::alloc::{AllocError, Global};
use std::marker::Model;

/// What is known of a place.
#[derive(Clone, Copy)]
pub enum Visit {
    /// It was not met yet.
    New,
    /// Its group is open, and it stands at this position among the open places.
    Open(usize),
    /// Its group is done, and has this number.
    Done(usize),
}

/// Groups of places that lead to one another, as far as a search along links has found them. The
/// open groups lie on one path: each leads to the later ones. The last of them is done when all its
/// links were followed, so each link of a group that is done leads into it or to one that was done
/// before.
#[derive(Drop)]
pub struct Components {
    marks: Vec<Visit>,
    /// Of each place how many of its links were followed.
    next: Vec<usize>,
    /// The places of the open groups, group by group.
    members: Vec<usize>,
    /// The positions among the members where the groups start.
    starts: Stack,
    /// The positions of the members whose links are still followed.
    path: Stack,
    /// How many groups are done.
    closed: usize,
}

impl Model for Components {
    ghost use Rattle.smil_graph.specs.Components.{Grouping};

    ghost Value = { Grouping };

    ghost view = { λ a.
        record {
          marks = a.marks.items;
          next = a.next.items;
          members = a.members.items;
          starts = a.starts;
          path = a.path;
          closed = a.closed;
        } };
}

impl Components {
    /// A search among so many places that has met none of them.
    pub fn new(alloc: Global, count: usize) -> Result<Self, AllocError>
        ensures { IfOk result (λ found. found ≡ untouched count) }
    {
        Ok(Components {
            marks: Vec::from_elem(alloc, Visit::New, count)?,
            next: Vec::from_elem(alloc, 0, count)?,
            members: Vec::new(alloc),
            starts: Stack::new(alloc),
            path: Stack::new(alloc),
            closed: 0,
        })
    }

    /// Whether a place was not met yet.
    pub fn is_new(&self, place: usize) -> bool
        requires { place < length self.now.marks }
        ensures { result ≡ model.is_new (mark_at self.now.marks place) }
    {
        matches!(self.marks[place], Visit::New)
    }

    /// Opens a place, in a group of its own. Where memory runs out the search cannot go on.
    pub fn open_place(&mut self, place: usize) -> Result<(), AllocError>
        requires { place < length self.old.marks }
        ensures { OnOk result (self.new ≡ opened self.old place) }
    {
        let position = self.members.len();
        self.members.push(place)?;
        self.starts.push(position)?;
        self.path.push(position)?;
        self.marks[place] = Visit::Open(position);
        Ok(())
    }

    /// Follows the links of the open places, and of the new ones that they lead to, until no place
    /// is open. Where memory runs out the search cannot go on.
    pub fn follow(&mut self, rows: &FlatLists<usize>) -> Result<(), AllocError>
        requires below { StayBelow (length rows.now) rows.now }
        requires count { length rows.now < 2 ^ 64 }
        requires grouping { IsGrouping rows.now self.old }
        ensures grouping { OnOk result (IsGrouping rows.now self.new) }
        ensures none_open { OnOk result (self.new.members ≡ []) }
        ensures known { OnOk result (StayKnown self.old.marks self.new.marks) }
    {
        while let Some(position) = self.last_on_path() {
            self.step(rows, position)?;
        }
        Ok(())
    }

    // The position of the last place on the path, whose links are followed.
    fn last_on_path(&self) -> Option<usize>
        ensures { result ≡ slice_get self.now.path 0 }
    {
        self.path.top()
    }

    // Follows a link of the last place on the path, or leaves the place where it has no more.
    fn step(&mut self, rows: &FlatLists<usize>, position: usize) -> Result<(), AllocError>
        requires below { StayBelow (length rows.now) rows.now }
        requires count { length rows.now < 2 ^ 64 }
        requires grouping { IsGrouping rows.now self.old }
        requires last { slice_get self.old.path 0 ≡ Some position }
        ensures { OnOk result (IsStep rows.now self.old self.new) }
    {
        let place = self.place_at(position);
        match rows.at(place).get(self.followed_of(place)) {
            Some(target) => self.follow_link(place, *target),
            None => {
                self.leave(position);
                Ok(())
            }
        }
    }

    // The open place at a position.
    fn place_at(&self, position: usize) -> usize
        requires { position < length self.now.members }
        ensures { result ≡ slice_index self.now.members position }
    {
        self.members[position]
    }

    // How many links of a place were followed.
    fn followed_of(&self, place: usize) -> usize
        requires { place < length self.now.next }
        ensures { result ≡ slice_index self.now.next place }
    {
        self.next[place]
    }

    // Follows the next link of a place, which leads to the target.
    fn follow_link(&mut self, place: usize, target: usize) -> Result<(), AllocError>
        requires place { place < length self.old.next }
        requires more { slice_index self.old.next place + 1 < 2 ^ 64 }
        requires target { target < length self.old.marks }
        ensures { OnOk result (self.new
            ≡ followed (met self.old target (mark_at self.old.marks target)) place) }
    {
        match self.marks[target] {
            Visit::New => self.open_place(target)?,
            Visit::Open(position) => self.merge_from(position),
            Visit::Done(_) => (),
        }
        self.next[place] += 1;
        Ok(())
    }

    // Makes one group of that of the position and the later ones.
    fn merge_from(&mut self, position: usize)
        ensures { self.new ≡ model.merged self.old position }
    {
        pop_above(&mut self.starts, position);
    }

    // Leaves the last place of the path, which stands at the position, and closes its group where
    // the place starts it.
    fn leave(&mut self, position: usize)
        requires position { position < length self.old.members }
        requires below { AreBelow (length self.old.marks) self.old.members }
        requires few { self.old.closed + 1 < 2 ^ 64 }
        ensures { self.new ≡ left self.old position }
    {
        self.path.pop();
        match self.starts.top() {
            Some(start) if start == position => self.close(position),
            _ => (),
        }
    }

    // Closes the last open group, whose first place stands at the start.
    fn close(&mut self, start: usize)
        requires start { start < length self.old.members }
        requires below { AreBelow (length self.old.marks) self.old.members }
        requires few { self.old.closed + 1 < 2 ^ 64 }
        ensures { self.new ≡ closed_from self.old start }
    {
        mark_all(
            &mut self.marks,
            &self.members[start..],
            Visit::Done(self.closed),
        );
        self.members.truncate(start);
        self.starts.pop();
        self.closed += 1;
    }

    /// For each place a level, which is higher where its group was done later; 0 where it is not
    /// done. It takes a `Vec` of one number for each place.
    pub fn levels(&self, alloc: Global) -> Result<Vec<usize>, AllocError>
        ensures { IfOk result (λ levels. levels.items
            ≡ map level_of self.now.marks) }
    {
        let mut levels = Vec::with_capacity(alloc, self.marks.len())?;
        for mark in &self.marks {
            levels.push(level(*mark))?;
        }
        Ok(levels)
    }
}

// The level of a place by its mark.
fn level(mark: Visit) -> usize
    ensures { result ≡ level_of mark }
{
    match mark {
        Visit::Done(number) => number,
        _ => 0,
    }
}

// Takes the numbers above the position off the stack.
fn pop_above(starts: &mut Stack, position: usize)
    ensures { starts.new ≡ without_above position starts.old }
{
    while let Some(start) = starts.top() {
        if start <= position {
            break;
        }
        starts.pop();
    }
}

// Puts the mark at each of the places.
fn mark_all(marks: &mut Vec<Visit>, places: &[usize], mark: Visit)
    requires { AreBelow (length marks.old.items) places.now }
    ensures { marks.new.items ≡ marked_all mark places.now marks.old.items }
{
    for place in places {
        marks[*place] = mark;
    }
}
