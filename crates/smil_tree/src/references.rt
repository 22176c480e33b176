//! Items that refer to an element, an event or a key, counted after a change of attributes.

ghost use Rattle.std.specs.Prelude.{◌≡◌, ◌<◌, ◌^◌};
ghost use Rattle.smil_model.specs.document.Valid.{references_among};
ghost use Rattle.smil_model.specs.document.Edits.{with_attr, without_attr};

use smil_model::{Attr, AttrName, Attrs, references_in, references_in_items, references_in_list};

/// How many items of attributes refer to something after an attribute was set. It takes no memory.
pub fn references_with(attrs: &Attrs, attr: &Attr) -> usize
    requires { references_among (with_attr attrs.now attr.now) < 2 ^ 64 }
    ensures { result ≡ references_among (with_attr attrs.now attr.now) }
{
    match attr {
        Attr::Begin(items) => references_in_items(items) + references_in_list(&attrs.end),
        Attr::End(items) => references_in_list(&attrs.begin) + references_in_items(items),
        _ => references_in(attrs),
    }
}

/// The same after an attribute was taken away. It takes no memory.
pub fn references_without(attrs: &Attrs, name: AttrName) -> usize
    requires { references_among (without_attr attrs.now name) < 2 ^ 64 }
    ensures { result ≡ references_among (without_attr attrs.now name) }
{
    match name {
        AttrName::Begin => references_in_list(&attrs.end),
        AttrName::End => references_in_list(&attrs.begin),
        _ => references_in(attrs),
    }
}
