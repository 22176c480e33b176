//! Test attributes.

ghost use Rattle.std.specs.Prelude.{◌≡◌, take};
ghost use Rattle.std.specs.List.{list_all, list_any};
ghost use Rattle.smil_grammar.specs.Texts.{trim as trimmed};
ghost use Rattle.smil_switch.specs.Preferences.{comma_pieces, covers as covers_tag, fits_screen as fits_screen_of, goes_on as goes_on_text, is_other_test as is_other_test_name, is_tag as is_tag_text, is_test as is_test_name, screen_of, speaks as speaks_text, speaks_of, test_of};

use super::preferences::{Preferences, digits_up_to, is_tag, on_off, screen};
use smil_lexis::texts::{is, past, trim};

/// Whether a name is that of a test attribute.
pub fn is_test(name: &[u8]) -> bool
    ensures { result ≡ is_test_name name.now }
{
    is(name, b"systemBitrate")
        || is(name, b"systemCaptions")
        || is(name, b"systemAudioDesc")
        || is(name, b"systemLanguage")
        || is(name, b"systemScreenSize")
        || is(name, b"systemScreenDepth")
}

/// Whether a name is that of a test attribute of SMIL that is left out.
pub fn is_other_test(name: &[u8]) -> bool
    ensures { result ≡ is_other_test_name name.now }
{
    is(name, b"systemCPU")
        || is(name, b"systemOperatingSystem")
        || is(name, b"systemRequired")
        || is(name, b"systemComponent")
        || is(name, b"systemOverdubOrSubtitle")
}

/// The first bytes of a text, all where it has no more.
#[tactic(auto, using(std::proofs::lemmas::List::take_all))]
pub fn front(text: &[u8], count: usize) -> &[u8]
    ensures { result.now ≡ take count text.now }
{
    if count <= text.len() {
        &text[..count]
    } else {
        text
    }
}

// Whether nothing stands behind a tag's front, or a part behind `-`.
fn goes_on(rest: &[u8]) -> bool
    ensures { result ≡ goes_on_text rest.now }
{
    match rest {
        [] => true,
        [first, ..] => *first == b'-',
    }
}

// Whether a preferred tag is this tag, or a front of it before a `-`, the letters' case aside.
fn covers(preferred: &[u8], tag: &[u8]) -> bool
    ensures { result ≡ covers_tag preferred.now tag.now }
{
    front(tag, preferred.len()).eq_ignore_ascii_case(preferred)
        && goes_on(past(tag, preferred.len()))
}

// Whether a preferred tag covers one of these.
fn covers_one(preferred: &[u8], text: &[u8]) -> bool
    ensures { result
        ≡ list_any (λ tag. covers_tag preferred.now (trimmed tag)) (comma_pieces text.now) }
{
    text.split(|byte| *byte == b',')
        .any(|tag| covers(preferred, trim(tag)))
}

// Whether one of the preferred tags covers one of these.
fn speaks(preferred: &[u8], text: &[u8]) -> bool
    ensures { result ≡ speaks_text preferred.now text.now }
{
    preferred
        .split(|byte| *byte == b',')
        .any(|tag| covers_one(tag, text))
}

// Whether each text between commas is a language's tag, white space round it aside.
fn are_tags(text: &[u8]) -> bool
    ensures { result ≡ list_all (λ tag. is_tag_text (trimmed tag)) (comma_pieces text.now) }
{
    text.split(|byte| *byte == b',')
        .all(|tag| is_tag(trim(tag)))
}

// Whether languages are covered, where they have a reading.
fn language(preferred: &[u8], text: &[u8]) -> Option<bool>
    ensures { result ≡ speaks_of preferred.now text.now }
{
    if are_tags(text) {
        Some(speaks(preferred, text))
    } else {
        None
    }
}

// Whether a screen isn't greater than the preferred one, either way.
fn fits_screen(preferred: (u32, u32), size: (u32, u32)) -> bool
    ensures { result ≡ fits_screen_of preferred size }
{
    size.0 <= preferred.0 && size.1 <= preferred.1
}

// Two numbers with an `x` of either case between them.
fn any_screen(text: &[u8]) -> Option<(u32, u32)>
    ensures { result ≡ screen_of text.now }
{
    match screen(text, b'x') {
        Some(size) => Some(size),
        None => screen(text, b'X'),
    }
}

/// Whether a test attribute of this name holds, where its value, without white space at its ends,
/// has a reading. SMIL 3.0, "Predefined test attributes".
pub fn test(wanted: &Preferences, name: &[u8], text: &[u8]) -> Option<bool>
    ensures { result ≡ test_of wanted.now name.now text.now }
{
    if is(name, b"systemBitrate") {
        Some(digits_up_to(text, 9)? <= wanted.bitrate())
    } else if is(name, b"systemCaptions") {
        Some(on_off(text)? == wanted.captions())
    } else if is(name, b"systemAudioDesc") {
        Some(on_off(text)? == wanted.audio_desc())
    } else if is(name, b"systemLanguage") {
        language(wanted.language(), text)
    } else if is(name, b"systemScreenSize") {
        Some(fits_screen(wanted.screen(), any_screen(text)?))
    } else if is(name, b"systemScreenDepth") {
        Some(digits_up_to(text, 3)? <= wanted.depth())
    } else {
        None
    }
}
