//! The last node of an outline and those above it.

ghost use Rattle.std.specs.Prelude.{◌≡◌, ◌<◌, ◌≤◌, [], ◌∷◌, ◌++◌, length, take, slice_get};
ghost use Rattle.smil_grammar.specs.Outlines.{last_of};

use smil_model::{DEPTH, Kind};
use std::marker::Model;

/// The serials and kinds of the last node and those above it, from the root down. It takes no
/// memory.
#[derive(Drop)]
pub struct Branch {
    levels: [(u32, Kind); DEPTH],
    len: usize,
}

impl Model for Branch {
    ghost use Rattle.std.specs.Prelude.{List, ℕ, ◌≤◌, take};
    ghost use Rattle.smil_model.specs.declared.limits.TheConstants.{DEPTH};
    ghost use Rattle.smil_model.specs.declared.document.Kind.{Kind};

    ghost Value = { List (ℕ × Kind) };

    ghost view = { λ a. take a.len a.levels };

    ghost invariant = { λ a. a.len ≤ DEPTH };
}

impl Branch {
    /// The branch of an outline without a node.
    pub fn new() -> Branch
        ensures { result ≡ [] }
    {
        Branch {
            levels: [(0, Kind::Par); DEPTH],
            len: 0,
        }
    }

    /// The nodes from the root down.
    pub fn levels(&self) -> &[(u32, Kind)]
        ensures { result.now ≡ self.now }
    {
        &self.levels[..self.len]
    }

    /// How many nodes it has.
    pub fn len(&self) -> usize
        ensures { result ≡ length self.now }
    {
        self.levels().len()
    }

    /// The node of this depth.
    pub fn at(&self, depth: usize) -> Option<(u32, Kind)>
        ensures { result ≡ slice_get self.now depth }
    {
        self.levels().get(depth).copied()
    }

    /// The node above one of this depth; none is above the root.
    pub fn above(&self, depth: usize) -> Option<(u32, Kind)>
        requires { depth ≤ length self.now }
        ensures { result ≡ last_of (take depth self.now) }
    {
        self.levels()[..depth].last().copied()
    }

    /// The branch of a node of this depth, below the node that was there above it.
    pub fn put(&mut self, depth: usize, serial: u32, kind: Kind)
        requires within { depth ≤ length self.old }
        requires shallow { depth < DEPTH }
        ensures { self.new ≡ take depth self.old ++ (serial, kind) ∷ [] }
    {
        self.levels[depth] = (serial, kind);
        self.len = depth + 1;
    }
}
