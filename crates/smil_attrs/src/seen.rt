//! The names of the attributes that a line had so far.

ghost use Rattle.std.specs.Prelude.{◌≡◌, ◌∷◌, ◌++◌, [], MatchBool, bytes_eq};
ghost use Rattle.std.specs.List.{list_any};

use smil_lexis::texts::is;
use std::marker::Model;

// The most names that are noted.
const SEEN: usize = 32;

/// Names of attributes, 32 at most; seen as their list.
#[derive(Drop)]
pub struct SeenNames<'a> {
    names: [&'a [u8]; SEEN],
    count: usize,
}

impl<'a> Model for SeenNames<'a> {
    ghost use Rattle.std.specs.Prelude.{List, ℕ, ◌≤◌, map, take};
    ghost use Rattle.smil_attrs.specs.declared.seen.TheConstants.{SEEN};

    ghost Value = { List (List ℕ) };

    ghost view = { λ a. map (λ name. name.now) (take a.count a.names) };

    ghost invariant = { λ a. a.count ≤ SEEN };
}

impl<'a> SeenNames<'a> {
    /// No names.
    pub fn new() -> SeenNames<'a>
        ensures { result ≡ [] }
    {
        let none: &[u8] = b"";
        SeenNames {
            names: [none; SEEN],
            count: 0,
        }
    }

    /// Whether this name is among them.
    pub fn has(&self, name: &[u8]) -> bool
        ensures { result ≡ list_any (bytes_eq name.now) self.now }
    {
        self.names[..self.count].iter().any(|other| is(name, other))
    }

    /// Notes one more name, where there are fewer than 32, and tells whether it did.
    pub fn put(&mut self, name: &'a [u8]) -> bool
        ensures { MatchBool result (self.new ≡ self.old ++ name.now ∷ []) (self.new ≡ self.old) }
    {
        if self.count == SEEN {
            return false;
        }
        self.names[self.count] = name;
        self.count += 1;
        true
    }
}
