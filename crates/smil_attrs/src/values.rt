//! Values of attributes.

ghost use Rattle.std.specs.Prelude.{◌≡◌, ◌&&◌, ℕ, Option, List, option_map, is_some, Some};
ghost use Rattle.std.specs.List.{list_all};
ghost use Rattle.smil_grammar.specs.Numbers.{with_fraction};
ghost use Rattle.smil_grammar.specs.Lists.{list_of, is_begin};
ghost use Rattle.smil_grammar.specs.Values.{restart_of, restart_default_of, fill_default_of, attribute_name_of, peers_of, higher_of, lower_of, fill_of, time_of, repeat_dur_of, dur_of, id_of, kept_of, repeat_count_of, endsync_of, short_number_of, thousandths as whole_thousandths, is_kept as is_kept_byte, is_other_value, text_of};
ghost use Rattle.smil_attrs.specs.Reads.{GivesValue, GivesItems};

use smil_clock_value::clock_within;
use smil_grammar::{AttrFault, ListFault};
use smil_lexis::numbers::{fraction, short_number};
use smil_lexis::runs;
use smil_lexis::texts::{cut, is, trim};
use smil_lexis::utf8::is_utf8;
use smil_model::{
    Act, AttrName, Bytes, Count, Dur, Edge, Endsync, Fill, FillDefault, Items, Restart,
    RestartDefault, TextName, Time,
};
use smil_time_list::lists::read_list;
use std::alloc::Global;

/// The fault of a value that is no list, at its first byte.
pub const BAD: AttrFault = AttrFault::BadValue { place: 0 };

/// A value of `restart`.
pub fn restart(text: &[u8]) -> Option<Restart>
    ensures { result ≡ restart_of text.now }
{
    if is(text, b"always") {
        Some(Restart::Always)
    } else if is(text, b"whenNotActive") {
        Some(Restart::WhenNotActive)
    } else if is(text, b"never") {
        Some(Restart::Never)
    } else if is(text, b"default") {
        Some(Restart::ByDefault)
    } else {
        None
    }
}

/// A value of `fill`.
pub fn fill(text: &[u8]) -> Option<Fill>
    ensures { result ≡ fill_of text.now }
{
    if is(text, b"remove") {
        Some(Fill::Remove)
    } else if is(text, b"freeze") {
        Some(Fill::Freeze)
    } else if is(text, b"hold") {
        Some(Fill::Hold)
    } else if is(text, b"auto") {
        Some(Fill::Auto)
    } else if is(text, b"default") {
        Some(Fill::ByDefault)
    } else {
        None
    }
}

/// A value of `restartDefault`.
pub fn restart_default(text: &[u8]) -> Option<RestartDefault>
    ensures { result ≡ restart_default_of text.now }
{
    if is(text, b"always") {
        Some(RestartDefault::Always)
    } else if is(text, b"whenNotActive") {
        Some(RestartDefault::WhenNotActive)
    } else if is(text, b"never") {
        Some(RestartDefault::Never)
    } else if is(text, b"inherit") {
        Some(RestartDefault::Inherit)
    } else {
        None
    }
}

/// A value of `fillDefault`.
pub fn fill_default(text: &[u8]) -> Option<FillDefault>
    ensures { result ≡ fill_default_of text.now }
{
    if is(text, b"remove") {
        Some(FillDefault::Remove)
    } else if is(text, b"freeze") {
        Some(FillDefault::Freeze)
    } else if is(text, b"hold") {
        Some(FillDefault::Hold)
    } else if is(text, b"auto") {
        Some(FillDefault::Auto)
    } else if is(text, b"inherit") {
        Some(FillDefault::Inherit)
    } else {
        None
    }
}

/// A value of `peers`.
pub fn peers(text: &[u8]) -> Option<Act>
    ensures { result ≡ peers_of text.now }
{
    if is(text, b"stop") {
        Some(Act::Stop)
    } else if is(text, b"pause") {
        Some(Act::Pause)
    } else if is(text, b"defer") {
        Some(Act::Defer)
    } else if is(text, b"never") {
        Some(Act::Never)
    } else {
        None
    }
}

/// A value of `higher`.
pub fn higher(text: &[u8]) -> Option<Act>
    ensures { result ≡ higher_of text.now }
{
    if is(text, b"stop") {
        Some(Act::Stop)
    } else if is(text, b"pause") {
        Some(Act::Pause)
    } else {
        None
    }
}

/// A value of `lower`.
pub fn lower(text: &[u8]) -> Option<Act>
    ensures { result ≡ lower_of text.now }
{
    if is(text, b"defer") {
        Some(Act::Defer)
    } else if is(text, b"never") {
        Some(Act::Never)
    } else {
        None
    }
}

/// A value of `dur`.
pub fn dur(text: &[u8]) -> Option<Dur>
    ensures { result ≡ dur_of text.now }
{
    if is(text, b"media") {
        Some(Dur::Media)
    } else if is(text, b"indefinite") {
        Some(Dur::Indefinite)
    } else {
        Some(Dur::Clock(clock_within(text)?))
    }
}

/// A value of `max`.
pub fn time(text: &[u8]) -> Option<Time>
    ensures { result ≡ time_of text.now }
{
    if is(text, b"indefinite") {
        Some(Time::Indefinite)
    } else {
        Some(Time::At(clock_within(text)?))
    }
}

/// A value of `repeatDur`.
pub fn repeat_dur(text: &[u8]) -> Option<Time>
    ensures { result ≡ repeat_dur_of text.now }
{
    if is(text, b"indefinite") {
        Some(Time::Indefinite)
    } else {
        match clock_within(text) {
            Some(value) if value != 0 => Some(Time::At(value)),
            _ => None,
        }
    }
}

// A number in thousandths.
fn thousandths(text: &[u8]) -> Option<u64>
    ensures { result ≡ option_map whole_thousandths (with_fraction short_number_of 100 text.now) }
{
    match cut(text, b'.') {
        Some((front, back)) => {
            Some(u64::from(short_number(front)?) * 1000 + fraction(back, 100)?)
        }
        None => Some(u64::from(short_number(text)?) * 1000),
    }
}

/// A value of `repeatCount`.
pub fn count(text: &[u8]) -> Option<Count>
    ensures { result ≡ repeat_count_of text.now }
{
    if is(text, b"indefinite") {
        Some(Count::Indefinite)
    } else {
        match thousandths(text) {
            Some(number) if number != 0 => Some(Count::Thousandths(number)),
            _ => None,
        }
    }
}

// Whether a text is an id.
fn is_id(text: &[u8]) -> bool
    ensures { result ≡ is_some (id_of text.now) }
{
    !text.is_empty() && runs::id(text, false) == text.len()
}

/// A value of `id`.
pub fn id(alloc: Global, text: &[u8]) -> Result<Bytes, AttrFault>
    ensures { GivesValue result (id_of text.now) }
{
    if !is_id(text) {
        return Err(BAD);
    }
    Ok(Bytes::of(alloc, text)?)
}

/// A value of `endsync`. Keywords go before ids.
pub fn endsync(alloc: Global, text: &[u8]) -> Result<Endsync, AttrFault>
    ensures { GivesValue result (endsync_of text.now) }
{
    if is(text, b"last") {
        Ok(Endsync::Last)
    } else if is(text, b"first") {
        Ok(Endsync::First)
    } else if is(text, b"all") {
        Ok(Endsync::All)
    } else {
        Ok(Endsync::Child(id(alloc, text)?))
    }
}

// Whether a byte may stand in a text that is kept.
fn is_kept(byte: u8) -> bool
    ensures { result ≡ is_kept_byte byte }
{
    byte >= 32 && byte != 127 && byte != b'"'
}

// Whether each byte may stand in a text that is kept.
fn all_kept(text: &[u8]) -> bool
    ensures { result ≡ list_all is_kept_byte text.now }
{
    text.iter().all(|byte| is_kept(*byte))
}

/// A text that is kept as it is.
pub fn kept(alloc: Global, text: &[u8]) -> Result<Bytes, AttrFault>
    ensures { GivesValue result (kept_of text.now) }
{
    if !is_utf8(text) || !all_kept(text) {
        return Err(BAD);
    }
    Ok(Bytes::of(alloc, text)?)
}

/// A value of `attributeName`.
pub fn attribute_name(alloc: Global, text: &[u8]) -> Result<Bytes, AttrFault>
    ensures { GivesValue result (attribute_name_of text.now) }
{
    if !runs::is_attribute_name(text) {
        return Err(BAD);
    }
    Ok(Bytes::of(alloc, text)?)
}

/// The value of a plain text, without the white space at its ends where it is an id or a name.
pub fn text(alloc: Global, name: TextName, value: &[u8]) -> Result<Bytes, AttrFault>
    ensures { GivesValue result (text_of name value.now) }
{
    match name {
        TextName::TargetElement => id(alloc, trim(value)),
        TextName::AttributeName => attribute_name(alloc, trim(value)),
        _ => kept(alloc, value),
    }
}

/// The list of `begin` or `end`.
pub fn list(alloc: Global, text: &[u8], side: Edge, seq_child: bool) -> Result<Items, AttrFault>
    ensures { GivesItems result (list_of (seq_child && is_begin side) text.now) }
{
    match read_list(alloc, text, side, seq_child) {
        Ok(items) => Ok(items),
        Err(ListFault::Bad { place }) => Err(AttrFault::BadValue { place }),
        Err(ListFault::Unsupported { place }) => Err(AttrFault::UnsupportedValue { place }),
        Err(ListFault::TooManyItems) => Err(AttrFault::TooManyItems),
        Err(ListFault::Memory) => Err(AttrFault::Memory),
    }
}

/// Whether a value of an attribute is one of SMIL that is left out.
pub fn is_left_out(name: AttrName, text: &[u8]) -> bool
    ensures { result ≡ is_other_value name text.now }
{
    match name {
        AttrName::Min | AttrName::Max | AttrName::Endsync => is(text, b"media"),
        AttrName::Fill | AttrName::FillDefault => is(text, b"transition"),
        _ => false,
    }
}
