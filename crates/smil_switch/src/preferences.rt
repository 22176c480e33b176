//! What a viewer prefers.

ghost use Rattle.std.specs.Prelude.{◌≡◌, ◌≤◌, false, option_map, bytes_eq, codes, IfOk, OnErr};
ghost use Rattle.smil_model.specs.declared.limits.TheConstants.{DIGITS};
ghost use Rattle.std.specs.List.{list_all};
ghost use Rattle.smil_switch.specs.Preferences.{at_first, with_preference, digits_up_to as digits_up_to_text, on_off as on_off_text, comma_pieces, is_of_tag as is_of_tag_byte, is_tag as is_tag_text, screen_by, small_x, language_of};
ghost use Rattle.smil_switch.specs.Gives.{Prefers};

use smil_lexis::numbers::short;
use smil_lexis::texts::{cut, is};
use smil_model::Bytes;
use std::alloc::{AllocError, Global};
use std::marker::Model;

/// The greatest number of bytes of a language's tag.
pub const TAG_BYTES: usize = 32;

/// What a viewer prefers, seen as its values.
#[derive(Drop)]
pub struct Preferences {
    bitrate: u32,
    captions: bool,
    audio_desc: bool,
    language: Bytes,
    screen: (u32, u32),
    depth: u32,
    alloc: Global,
}

impl Model for Preferences {
    ghost use Rattle.smil_switch.specs.Preferences.{Wanted};

    ghost Value = { Wanted };

    ghost view = { λ p.
        record {
          bitrate = p.bitrate;
          captions = p.captions;
          audio_desc = p.audio_desc;
          language = p.language;
          screen = p.screen;
          depth = p.depth;
        } };
}

/// The number of at most so many digits, which are at most 9; none for all other texts.
pub fn digits_up_to(text: &[u8], most: usize) -> Option<u32>
    requires { most ≤ DIGITS }
    ensures { result ≡ digits_up_to_text most text.now }
{
    if text.len() > most {
        return None;
    }
    short(text)
}

/// Whether a text is `on`, where it is `on` or `off`.
pub fn on_off(text: &[u8]) -> Option<bool>
    ensures { result ≡ on_off_text text.now }
{
    if is(text, b"on") {
        Some(true)
    } else if is(text, b"off") {
        Some(false)
    } else {
        None
    }
}

// Whether a byte goes on a language's tag.
fn is_of_tag(byte: u8) -> bool
    ensures { result ≡ is_of_tag_byte byte }
{
    byte.is_ascii_alphanumeric() || byte == b'-'
}

// Whether each byte goes on a language's tag.
fn all_of_tag(text: &[u8]) -> bool
    ensures { result ≡ list_all is_of_tag_byte text.now }
{
    text.iter().all(|byte| is_of_tag(*byte))
}

/// Whether a text is a language's tag.
pub fn is_tag(text: &[u8]) -> bool
    ensures { result ≡ is_tag_text text.now }
{
    !text.is_empty() && text.len() <= TAG_BYTES && all_of_tag(text)
}

// Whether each text between commas is a language's tag.
fn are_tags(text: &[u8]) -> bool
    ensures { result ≡ list_all is_tag_text (comma_pieces text.now) }
{
    text.split(|byte| *byte == b',').all(|tag| is_tag(tag))
}

/// Two numbers of at most 6 digits with this letter between them.
pub fn screen(text: &[u8], letter: u8) -> Option<(u32, u32)>
    ensures { result ≡ screen_by letter text.now }
{
    let (height, width) = cut(text, letter)?;
    let height = digits_up_to(height, 6)?;
    Some((height, digits_up_to(width, 6)?))
}

impl Preferences {
    /// What is preferred before the first preference is given, unless memory runs out.
    pub fn new(alloc: Global) -> Result<Preferences, AllocError>
        ensures { IfOk result (λ preferences. preferences ≡ at_first) }
    {
        Ok(Preferences {
            bitrate: 999_999_999,
            captions: false,
            audio_desc: false,
            language: Bytes::of(alloc, b"en")?,
            screen: (1080, 1920),
            depth: 24,
            alloc,
        })
    }

    /// The same preferences once more, unless memory runs out.
    pub fn copy(&self) -> Result<Preferences, AllocError>
        ensures { IfOk result (λ preferences. preferences ≡ self.now) }
    {
        Ok(Preferences {
            bitrate: self.bitrate,
            captions: self.captions,
            audio_desc: self.audio_desc,
            language: Bytes::of(self.alloc, self.language.slice())?,
            screen: self.screen,
            depth: self.depth,
            alloc: self.alloc,
        })
    }

    /// The languages as they are written.
    pub fn language(&self) -> &[u8]
        ensures { result.now ≡ self.now.language }
    {
        self.language.slice()
    }

    /// The greatest bit rate, in bits per second.
    pub fn bitrate(&self) -> u32
        ensures { result ≡ self.now.bitrate }
    {
        self.bitrate
    }

    /// Whether captions are wanted.
    pub fn captions(&self) -> bool
        ensures { result ≡ self.now.captions }
    {
        self.captions
    }

    /// Whether descriptions of what is seen are wanted.
    pub fn audio_desc(&self) -> bool
        ensures { result ≡ self.now.audio_desc }
    {
        self.audio_desc
    }

    /// The height and the width of the screen, in dots.
    pub fn screen(&self) -> (u32, u32)
        ensures { result ≡ self.now.screen }
    {
        self.screen
    }

    /// The screen's bits per dot.
    pub fn depth(&self) -> u32
        ensures { result ≡ self.now.depth }
    {
        self.depth
    }

    // Prefers languages.
    fn prefer_language(&mut self, value: &[u8]) -> Result<bool, AllocError>
        ensures ok { IfOk result (λ read. Prefers self.old read self.new
            (option_map (λ text. record self.old { language = text }) (language_of value.now))) }
        ensures err { OnErr result (self.new ≡ self.old) }
    {
        if !are_tags(value) {
            return Ok(false);
        }
        self.language = Bytes::of(self.alloc, value)?;
        Ok(true)
    }

    // Prefers a greatest bit rate.
    fn prefer_bitrate(&mut self, value: &[u8]) -> bool
        ensures { Prefers self.old result self.new
            (option_map (λ rate. record self.old { bitrate = rate }) (digits_up_to_text 9 value.now)) }
    {
        match digits_up_to(value, 9) {
            Some(rate) => {
                self.bitrate = rate;
                true
            }
            None => false,
        }
    }

    // Prefers captions or none.
    fn prefer_captions(&mut self, value: &[u8]) -> bool
        ensures { Prefers self.old result self.new
            (option_map (λ on. record self.old { captions = on }) (on_off_text value.now)) }
    {
        match on_off(value) {
            Some(on) => {
                self.captions = on;
                true
            }
            None => false,
        }
    }

    // Prefers descriptions or none.
    fn prefer_audio_desc(&mut self, value: &[u8]) -> bool
        ensures { Prefers self.old result self.new
            (option_map (λ on. record self.old { audio_desc = on }) (on_off_text value.now)) }
    {
        match on_off(value) {
            Some(on) => {
                self.audio_desc = on;
                true
            }
            None => false,
        }
    }

    // Prefers a screen.
    fn prefer_screen(&mut self, value: &[u8]) -> bool
        ensures { Prefers self.old result self.new
            (option_map (λ size. record self.old { screen = size }) (screen_by small_x value.now)) }
    {
        match screen(value, b'x') {
            Some(size) => {
                self.screen = size;
                true
            }
            None => false,
        }
    }

    // Prefers a depth.
    fn prefer_depth(&mut self, value: &[u8]) -> bool
        ensures { Prefers self.old result self.new
            (option_map (λ bits. record self.old { depth = bits }) (digits_up_to_text 3 value.now)) }
    {
        match digits_up_to(value, 3) {
            Some(bits) => {
                self.depth = bits;
                true
            }
            None => false,
        }
    }

    // Prefers a value of another word, where it has a reading.
    fn prefer_other(&mut self, word: &[u8], value: &[u8]) -> bool
        requires { bytes_eq word.now (codes "language") ≡ false }
        ensures { Prefers self.old result self.new
            (with_preference self.old word.now value.now) }
    {
        if is(word, b"bitrate") {
            self.prefer_bitrate(value)
        } else if is(word, b"captions") {
            self.prefer_captions(value)
        } else if is(word, b"audiodesc") {
            self.prefer_audio_desc(value)
        } else if is(word, b"screen") {
            self.prefer_screen(value)
        } else if is(word, b"depth") {
            self.prefer_depth(value)
        } else {
            false
        }
    }

    /// Prefers a value for a word. `false` exactly where the word is none of the six or the value
    /// has no reading; the preferences are then as before, and so they are where memory runs out.
    pub fn prefer(&mut self, word: &[u8], value: &[u8]) -> Result<bool, AllocError>
        ensures ok { IfOk result (λ read. Prefers self.old read self.new
            (with_preference self.old word.now value.now)) }
        ensures err { OnErr result (self.new ≡ self.old) }
    {
        if is(word, b"language") {
            return self.prefer_language(value);
        }
        Ok(self.prefer_other(word, value))
    }
}
