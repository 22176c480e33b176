//! Cutting and comparing texts.

ghost use Rattle.smil_model.specs.document.Words.{backslash, is_key as is_key_byte};
ghost use Rattle.std.specs.Prelude.{◌≡◌, ◌<◌, not, drop, ◌==◌, length, position, option_map, IfSome, IfOk, bytes_eq, ◌≤◌};
ghost use Rattle.std.specs.List.{list_all, suffix_len};
ghost use Rattle.smil_grammar.specs.Texts.{cut_at, is_white as is_white_byte, trim_front as front_trimmed, trim as trimmed, behind as behind_byte};
ghost use Rattle.smil_grammar.specs.Words.{unescaped as unescaped_bytes};

use super::runs::{is_white, white};
use smil_model::Bytes;
use std::alloc::{AllocError, Global};

// The place of the first such byte.
fn find(bytes: &[u8], byte: u8) -> Option<usize>
    ensures place { result ≡ position (λ other. other == byte) bytes.now }
    ensures within { IfSome result (λ place. place < length bytes.now) }
{
    bytes.iter().position(|other| *other == byte)
}

/// What stands before the first such byte, and what stands behind it.
pub fn cut(bytes: &[u8], byte: u8) -> Option<(&[u8], &[u8])>
    ensures { option_map (λ cut. (cut.0.now, cut.1.now)) result ≡ cut_at byte bytes.now }
{
    let place = find(bytes, byte)?;
    let (front, _) = bytes.split_at(place);
    let (_, back) = bytes.split_at(place + 1);
    Some((front, back))
}

/// Whether a byte is an access key: one that is printed, other than `"`, `;` and `\`.
pub fn is_key(byte: u8) -> bool
    ensures { result ≡ is_key_byte byte }
{
    (33..=126).contains(&byte) && byte != b'"' && byte != b';' && byte != b'\\'
}

// Whether no backslash stands in a text.
fn is_bare(text: &[u8]) -> bool
    ensures { result ≡ list_all (λ b. not (b == backslash)) text.now }
{
    text.iter().all(|byte| *byte != b'\\')
}

/// The bytes of a text without its backslashes.
#[tactic(auto, using(crate::proofs::BareTexts::bare_stays))]
pub fn unescaped(alloc: Global, text: &[u8]) -> Result<Bytes, AllocError>
    ensures { IfOk result (λ bytes. bytes ≡ unescaped_bytes text.now) }
{
    if is_bare(text) {
        return Bytes::of(alloc, text);
    }
    let mut bytes = Bytes::new(alloc);
    for byte in text {
        if *byte != b'\\' {
            bytes.push(*byte)?;
        }
    }
    Ok(bytes)
}

/// Whether two texts are the same.
pub fn is(text: &[u8], word: &[u8]) -> bool
    ensures { result ≡ bytes_eq text.now word.now }
{
    text == word
}

/// A text without the white space at its start.
pub fn trim_front(text: &[u8]) -> &[u8]
    ensures { result.now ≡ front_trimmed text.now }
{
    let (_, rest) = text.split_at(white(text));
    rest
}

// How much white space stands at the end.
fn white_behind(text: &[u8]) -> usize
    ensures len { result ≡ suffix_len is_white_byte text.now }
    ensures within { result ≤ length text.now }
{
    text.iter()
        .rev()
        .take_while(|byte| is_white(**byte))
        .count()
}

/// A text without the white space at both ends.
pub fn trim(text: &[u8]) -> &[u8]
    ensures { result.now ≡ trimmed text.now }
{
    let rest = trim_front(text);
    let (front, _) = rest.split_at(rest.len() - white_behind(rest));
    front
}

/// What stands past so many bytes.
#[tactic(auto, using(std::proofs::lemmas::List::drop_all))]
pub fn past(text: &[u8], count: usize) -> &[u8]
    ensures { result.now ≡ drop count text.now }
{
    if count <= text.len() {
        &text[count..]
    } else {
        &[]
    }
}

/// What stands behind a byte, where it stands first.
pub fn behind(text: &[u8], wanted: u8) -> Option<&[u8]>
    ensures { option_map (λ rest. rest.now) result ≡ behind_byte wanted text.now }
{
    match text {
        [first, rest @ ..] if *first == wanted => Some(rest),
        _ => None,
    }
}
