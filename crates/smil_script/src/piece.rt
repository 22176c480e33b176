//! What is left of a line.

ghost use Rattle.std.specs.Prelude.{◌≡◌};
ghost use Rattle.smil_grammar.specs.Scripts.{skipped as skipped_of, first_of, is_ended as is_ended_word};

use smil_lexis::runs;
use std::marker::Model;

/// A word of a line, or what is left of the line, and its place in it.
#[derive(Drop)]
pub struct Piece<'a> {
    pub text: &'a [u8],
    pub place: usize,
}

impl<'a> Model for Piece<'a> {
    ghost use Rattle.std.specs.Prelude.{◌<◌, ◌+◌, length};
    ghost use Rattle.smil_model.specs.declared.limits.TheConstants.{TEXT_BYTES};
    ghost use Rattle.smil_grammar.specs.Positions.{Piece};

    ghost Value = { Piece };

    ghost view = { λ word. record { text = word.text.now; place = word.place } };

    ghost invariant = { λ word. word.place + length word.text.now < TEXT_BYTES };
}

impl<'a> Piece<'a> {
    /// The line from its next word on.
    pub fn skipped(&self) -> Piece<'a>
        ensures { result ≡ skipped_of self.now }
    {
        let len = runs::spaces(self.text);
        let (_, text) = self.text.split_at(len);
        Piece {
            text,
            place: self.place + len,
        }
    }

    /// The first word, and what stands behind it.
    pub fn first(&self) -> (Piece<'a>, Piece<'a>)
        ensures { result ≡ first_of self.now }
    {
        let from = self.skipped();
        let len = runs::word(from.text);
        let (text, rest) = from.text.split_at(len);
        let word = Piece {
            text,
            place: from.place,
        };
        let behind = Piece {
            text: rest,
            place: from.place + len,
        };
        (word, behind)
    }

    /// Whether nothing but spaces is left.
    pub fn is_ended(&self) -> bool
        ensures { result ≡ is_ended_word self.now }
    {
        runs::is_spaces(self.text)
    }
}
