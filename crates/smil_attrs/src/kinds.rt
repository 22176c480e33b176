//! Names of kinds.

ghost use Rattle.std.specs.Prelude.{◌≡◌, ℕ, Option, List};
ghost use Rattle.smil_grammar.specs.Attributes.{kind_text, kind_called, is_other_kind};

use smil_lexis::texts::is;
use smil_model::Kind;

// All kinds.
const KINDS: [Kind; 13] = [
    Kind::Par,
    Kind::Seq,
    Kind::Excl,
    Kind::PriorityClass,
    Kind::Img,
    Kind::Text,
    Kind::Brush,
    Kind::Audio,
    Kind::Video,
    Kind::Animation,
    Kind::TextStream,
    Kind::Ref,
    Kind::Set,
];

/// The name of a kind.
pub fn text(kind: Kind) -> &'static [u8]
    ensures { result.now ≡ kind_text kind }
{
    match kind {
        Kind::Par => b"par",
        Kind::Seq => b"seq",
        Kind::Excl => b"excl",
        Kind::PriorityClass => b"priorityClass",
        Kind::Img => b"img",
        Kind::Text => b"text",
        Kind::Brush => b"brush",
        Kind::Audio => b"audio",
        Kind::Video => b"video",
        Kind::Animation => b"animation",
        Kind::TextStream => b"textstream",
        Kind::Ref => b"ref",
        Kind::Set => b"set",
    }
}

/// The kind that a word calls.
pub fn called(word: &[u8]) -> Option<Kind>
    ensures { result ≡ kind_called word.now }
{
    KINDS.iter().copied().find(|kind| is(word, text(*kind)))
}

/// Whether a word calls an element of SMIL that is left out.
pub fn is_left_out(word: &[u8]) -> bool
    ensures { result ≡ is_other_kind word.now }
{
    is(word, b"switch") || is(word, b"prefetch") || is(word, b"smilText") || is(word, b"body")
}
