//! A cursor over bytes.

ghost use Rattle.std.specs.Prelude.{◌≡◌, ◌≤◌, ◌+◌, ℕ, length, if◌then◌else◌, IsTrue, ◌↔◌};
ghost use Rattle.std.specs.List.{prefix_len};
ghost use Rattle.std.specs.Char.{is_ascii_digit};
ghost use Rattle.smil_grammar.specs.Texts.{is_white};
ghost use Rattle.smil_grammar.specs.Positions.{Position, ahead, passed, word_at, is_next};
ghost use Rattle.smil_grammar.specs.Words.{name_len, id_len};

use super::runs;
use smil_grammar::BadAt;
use std::marker::Model;

/// A text and a place in it, up to which it was passed.
#[derive(Drop)]
pub struct Cursor<'a> {
    bytes: &'a [u8],
    place: usize,
}

impl<'a> Model for Cursor<'a> {
    ghost use Rattle.std.specs.Prelude.{◌≤◌, length};
    ghost use Rattle.smil_grammar.specs.Positions.{Position};

    ghost Value = { Position };

    ghost view = { λ c. record { text = c.bytes.now; place = c.place } };

    ghost invariant = { λ c. c.place ≤ length c.bytes.now };
}

impl<'a> Cursor<'a> {
    /// A cursor before the first byte.
    pub fn new(bytes: &'a [u8]) -> Cursor<'a>
        ensures { result ≡ record { text = bytes.now; place = 0 } }
    {
        Cursor { bytes, place: 0 }
    }

    /// How many bytes were passed.
    pub fn place(&self) -> usize
        ensures { result ≡ self.now.place }
    {
        self.place
    }

    /// Whether all bytes were passed.
    pub fn at_end(&self) -> bool
        ensures { IsTrue result ↔ (self.now.place ≡ length self.now.text) }
    {
        self.place == self.bytes.len()
    }

    /// Passes the white space that stands next: spaces and tabs.
    pub fn space(&mut self)
        ensures { self.new ≡ passed (prefix_len is_white (ahead self.old)) self.old }
    {
        self.place += runs::white(&self.bytes[self.place..]);
    }

    /// Passes this byte exactly where it stands next, and tells whether it did.
    pub fn byte(&mut self, wanted: u8) -> bool
        ensures answer { result ≡ is_next wanted (ahead self.old) }
        ensures after { self.new ≡ (if result then passed 1 self.old else self.old) }
    {
        match self.bytes.get(self.place) {
            Some(&byte) if byte == wanted => {
                self.place += 1;
                true
            }
            _ => false,
        }
    }

    // Passes a word of so many bytes, where it isn't empty.
    fn word(&mut self, len: usize) -> Result<(usize, usize), BadAt>
        requires { self.old.place + len ≤ length self.old.text }
        ensures word { result ≡ word_at self.old len }
        ensures after { self.new ≡ passed len self.old }
    {
        let from = self.place;
        if len == 0 {
            return Err(BadAt(from));
        }
        self.place = from + len;
        Ok((from, self.place))
    }

    /// Passes the longest run of digits and gives the places where it begins and ends. Where no
    /// digit stands next it is refused, and the cursor is as before.
    pub fn digits(&mut self) -> Result<(usize, usize), BadAt>
        ensures word { result ≡ word_at self.old (prefix_len is_ascii_digit (ahead self.old)) }
        ensures after { self.new ≡ passed (prefix_len is_ascii_digit (ahead self.old)) self.old }
    {
        self.word(runs::digits(&self.bytes[self.place..]))
    }

    /// Passes the longest id, as it is written in a reference where `escaped`, and gives the places
    /// where it begins and ends. Where no id stands next, or one of more than 64 bytes without its
    /// backslashes, it is refused, and the cursor is as before.
    pub fn id(&mut self, escaped: bool) -> Result<(usize, usize), BadAt>
        ensures word { result ≡ word_at self.old (id_len escaped (ahead self.old)) }
        ensures after { self.new ≡ passed (id_len escaped (ahead self.old)) self.old }
    {
        self.word(runs::id(&self.bytes[self.place..], escaped))
    }

    /// Passes the longest name and gives the places where it begins and ends; `begin`, `end`,
    /// `repeat` and `indefinite` are names here. Where no name stands next, or one of more than 64
    /// bytes, it is refused, and the cursor is as before.
    pub fn name(&mut self) -> Result<(usize, usize), BadAt>
        ensures word { result ≡ word_at self.old (name_len (ahead self.old)) }
        ensures after { self.new ≡ passed (name_len (ahead self.old)) self.old }
    {
        self.word(runs::name(&self.bytes[self.place..]))
    }

    /// The bytes that weren't passed.
    pub fn rest(&self) -> &[u8]
        ensures { result.now ≡ ahead self.now }
    {
        &self.bytes[self.place..]
    }
}
