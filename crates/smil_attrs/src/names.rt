//! Names of attributes, and which kind has which.

ghost use Rattle.std.specs.Prelude.{◌≡◌, ℕ, Option, List};
ghost use Rattle.smil_model.specs.document.Texts.{has_text as has_plain_text};
ghost use Rattle.smil_grammar.specs.Attributes.{name_text, name_called, has as has_name, attr_name_of, is_other_name};

use smil_grammar::AttrFault;
use smil_lexis::texts::is;
use smil_model::{AttrName, Kind, TextName};

/// All attributes, in the order in which they are printed.
pub const NAMES: [AttrName; 23] = [
    AttrName::Id,
    AttrName::Begin,
    AttrName::Dur,
    AttrName::End,
    AttrName::Min,
    AttrName::Max,
    AttrName::RepeatCount,
    AttrName::RepeatDur,
    AttrName::Restart,
    AttrName::Fill,
    AttrName::RestartDefault,
    AttrName::FillDefault,
    AttrName::Endsync,
    AttrName::Peers,
    AttrName::Higher,
    AttrName::Lower,
    AttrName::Text(TextName::Src),
    AttrName::Text(TextName::Region),
    AttrName::Text(TextName::Alt),
    AttrName::Text(TextName::Title),
    AttrName::Text(TextName::TargetElement),
    AttrName::Text(TextName::AttributeName),
    AttrName::Text(TextName::To),
];

/// The name of an attribute.
pub fn text(name: AttrName) -> &'static [u8]
    ensures { result.now ≡ name_text name }
{
    match name {
        AttrName::Id => b"id",
        AttrName::Begin => b"begin",
        AttrName::Dur => b"dur",
        AttrName::End => b"end",
        AttrName::Min => b"min",
        AttrName::Max => b"max",
        AttrName::RepeatCount => b"repeatCount",
        AttrName::RepeatDur => b"repeatDur",
        AttrName::Restart => b"restart",
        AttrName::Fill => b"fill",
        AttrName::RestartDefault => b"restartDefault",
        AttrName::FillDefault => b"fillDefault",
        AttrName::Endsync => b"endsync",
        AttrName::Peers => b"peers",
        AttrName::Higher => b"higher",
        AttrName::Lower => b"lower",
        AttrName::Text(TextName::Src) => b"src",
        AttrName::Text(TextName::Region) => b"region",
        AttrName::Text(TextName::Alt) => b"alt",
        AttrName::Text(TextName::Title) => b"title",
        AttrName::Text(TextName::TargetElement) => b"targetElement",
        AttrName::Text(TextName::AttributeName) => b"attributeName",
        AttrName::Text(TextName::To) => b"to",
    }
}

// The attribute that a word calls.
fn called(word: &[u8]) -> Option<AttrName>
    ensures { result ≡ name_called word.now }
{
    NAMES.iter().copied().find(|name| is(word, text(*name)))
}

// Whether a node of this kind can have the plain text.
fn has_text(kind: Kind, name: TextName) -> bool
    ensures { result ≡ has_plain_text kind name }
{
    match name {
        TextName::TargetElement | TextName::AttributeName | TextName::To => {
            matches!(kind, Kind::Set)
        }
        TextName::Title => kind.is_element(),
        _ => !matches!(kind, Kind::PriorityClass | Kind::Set),
    }
}

// Whether a node of this kind can have the attribute.
fn has(kind: Kind, name: AttrName) -> bool
    ensures { result ≡ has_name kind name }
{
    match name {
        AttrName::Id => true,
        AttrName::Endsync => matches!(kind, Kind::Par | Kind::Excl),
        AttrName::Peers | AttrName::Higher | AttrName::Lower => {
            matches!(kind, Kind::PriorityClass)
        }
        AttrName::Text(name) => has_text(kind, name),
        _ => kind.is_element(),
    }
}

// Attributes of SMIL that are left out.
fn is_left_out(name: &[u8]) -> bool
    ensures { result ≡ is_other_name name.now }
{
    is(name, b"speed")
        || is(name, b"accelerate")
        || is(name, b"decelerate")
        || is(name, b"autoReverse")
        || is(name, b"syncBehavior")
        || is(name, b"syncTolerance")
        || is(name, b"syncMaster")
        || is(name, b"syncBehaviorDefault")
        || is(name, b"syncToleranceDefault")
        || is(name, b"pauseDisplay")
}

/// The attribute of a kind that this name calls. A name of SMIL that is left out is
/// `UnsupportedName`, and any other that the kind doesn't have `UnknownAttribute`.
pub fn attr_name(kind: Kind, name: &[u8]) -> Result<AttrName, AttrFault>
    ensures { result ≡ attr_name_of kind name.now }
{
    match called(name) {
        Some(called) if has(kind, called) => Ok(called),
        None if is_left_out(name) => Err(AttrFault::UnsupportedName),
        _ => Err(AttrFault::UnknownAttribute),
    }
}
