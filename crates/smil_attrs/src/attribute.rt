//! Attributes with their values.

ghost use Rattle.std.specs.Prelude.{◌≡◌};
ghost use Rattle.smil_model.specs.document.Values.{is_seq_parent};
ghost use Rattle.smil_grammar.specs.Values.{plain_value_of, value_of};
ghost use Rattle.smil_grammar.specs.Nodes.{attribute_of};
ghost use Rattle.smil_grammar.specs.Gives.{GivesAttr};

use super::names::attr_name;
use super::values;
use super::values::BAD;
use smil_clock_value::clock_within;
use smil_grammar::AttrFault;
use smil_lexis::texts::trim;
use smil_model::{Attr, AttrName, Attrs, Edge, Kind};
use std::alloc::Global;

// The value of an attribute, where it isn't one of SMIL that is left out.
fn plain_value(alloc: Global, name: AttrName, value: &[u8], in_seq: bool) -> Result<Attr, AttrFault>
    ensures { GivesAttr result (plain_value_of in_seq name value.now) }
{
    let text = trim(value);
    match name {
        AttrName::Id => Ok(Attr::Id(values::id(alloc, value)?)),
        AttrName::Begin => Ok(Attr::Begin(values::list(alloc, value, Edge::Begin, in_seq)?)),
        AttrName::Dur => Ok(Attr::Dur(values::dur(text).ok_or(BAD)?)),
        AttrName::End => Ok(Attr::End(values::list(alloc, value, Edge::End, in_seq)?)),
        AttrName::Min => Ok(Attr::Min(clock_within(text).ok_or(BAD)?)),
        AttrName::Max => Ok(Attr::Max(values::time(text).ok_or(BAD)?)),
        AttrName::RepeatCount => Ok(Attr::RepeatCount(values::count(text).ok_or(BAD)?)),
        AttrName::RepeatDur => Ok(Attr::RepeatDur(values::repeat_dur(text).ok_or(BAD)?)),
        AttrName::Restart => Ok(Attr::Restart(values::restart(text).ok_or(BAD)?)),
        AttrName::Fill => Ok(Attr::Fill(values::fill(text).ok_or(BAD)?)),
        AttrName::RestartDefault => Ok(Attr::RestartDefault(values::restart_default(text).ok_or(
            BAD,
        )?)),
        AttrName::FillDefault => Ok(Attr::FillDefault(values::fill_default(text).ok_or(BAD)?)),
        AttrName::Endsync => Ok(Attr::Endsync(values::endsync(alloc, text)?)),
        AttrName::Peers => Ok(Attr::Peers(values::peers(text).ok_or(BAD)?)),
        AttrName::Higher => Ok(Attr::Higher(values::higher(text).ok_or(BAD)?)),
        AttrName::Lower => Ok(Attr::Lower(values::lower(text).ok_or(BAD)?)),
        AttrName::Text(name) => Ok(Attr::Text {
            name,
            text: values::text(alloc, name, value)?,
        }),
    }
}

// Whether the parent is a seq.
fn is_seq(parent: Option<Kind>) -> bool
    ensures { result ≡ is_seq_parent parent }
{
    matches!(parent, Some(Kind::Seq))
}

/// An attribute of a kind below a parent, None being for the root, from its name and its value. The
/// name's faults come before the value's, and a value that is left out (`UnsupportedValue`) before
/// one that has no reading (`BadValue`). Places are counted in bytes from the value's first byte.
/// `Memory` may come where the value is a text or a list.
pub fn read_attr(
    alloc: Global,
    kind: Kind,
    parent: Option<Kind>,
    name: &[u8],
    value: &[u8],
) -> Result<Attr, AttrFault>
    ensures { GivesAttr result (attribute_of (is_seq_parent parent) kind name.now value.now) }
{
    let name = attr_name(kind, name)?;
    if values::is_left_out(name, trim(value)) {
        return Err(AttrFault::UnsupportedValue { place: 0 });
    }
    plain_value(alloc, name, value, is_seq(parent))
}
