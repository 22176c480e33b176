//! One attribute of a node, set or taken away.

ghost use Rattle.std.specs.Prelude.{◌≡◌};
ghost use Rattle.smil_model.specs.document.Edits.{with_attr as attrs_with, without_attr as attrs_without};

use super::document::{Attr, AttrName, Attrs};

/// Sets an attribute, in place of the one that was there. It has no condition and takes no memory.
pub fn with_attr(attrs: &mut Attrs, attr: Attr)
    ensures { attrs.new ≡ attrs_with attrs.old attr }
{
    match attr {
        Attr::Id(value) => attrs.id = Some(value),
        Attr::Begin(value) => attrs.begin = Some(value),
        Attr::Dur(value) => attrs.dur = Some(value),
        Attr::End(value) => attrs.end = Some(value),
        Attr::Min(value) => attrs.min = Some(value),
        Attr::Max(value) => attrs.max = Some(value),
        Attr::RepeatCount(value) => attrs.repeat_count = Some(value),
        Attr::RepeatDur(value) => attrs.repeat_dur = Some(value),
        Attr::Restart(value) => attrs.restart = Some(value),
        Attr::Fill(value) => attrs.fill = Some(value),
        Attr::RestartDefault(value) => attrs.restart_default = Some(value),
        Attr::FillDefault(value) => attrs.fill_default = Some(value),
        Attr::Endsync(value) => attrs.endsync = Some(value),
        Attr::Peers(value) => attrs.peers = Some(value),
        Attr::Higher(value) => attrs.higher = Some(value),
        Attr::Lower(value) => attrs.lower = Some(value),
        Attr::Text { name, text } => attrs.texts.put(name, Some(text)),
    }
}

/// Takes an attribute away, if it is there. It has no condition and takes no memory.
pub fn without_attr(attrs: &mut Attrs, name: AttrName)
    ensures { attrs.new ≡ attrs_without attrs.old name }
{
    match name {
        AttrName::Id => attrs.id = None,
        AttrName::Begin => attrs.begin = None,
        AttrName::Dur => attrs.dur = None,
        AttrName::End => attrs.end = None,
        AttrName::Min => attrs.min = None,
        AttrName::Max => attrs.max = None,
        AttrName::RepeatCount => attrs.repeat_count = None,
        AttrName::RepeatDur => attrs.repeat_dur = None,
        AttrName::Restart => attrs.restart = None,
        AttrName::Fill => attrs.fill = None,
        AttrName::RestartDefault => attrs.restart_default = None,
        AttrName::FillDefault => attrs.fill_default = None,
        AttrName::Endsync => attrs.endsync = None,
        AttrName::Peers => attrs.peers = None,
        AttrName::Higher => attrs.higher = None,
        AttrName::Lower => attrs.lower = None,
        AttrName::Text(name) => attrs.texts.put(name, None),
    }
}
