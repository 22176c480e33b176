//! Edited copies of a document.

ghost use Rattle.std.specs.Prelude.{◌≡◌, Ok, Some, IsSome, IfOk, IfErr};
ghost use Rattle.smil_model.specs.declared.document.Node.{Node as AnyNode};
ghost use Rattle.smil_model.specs.document.Document.{node_at};
ghost use Rattle.smil_model.specs.document.Limits.{limits};
ghost use Rattle.smil_model.specs.document.Valid.{kind_of};
ghost use Rattle.smil_model.specs.shown.Answers.{IsColumn, IsRefusedBy, IsText};
ghost use Rattle.smil_model.specs.shown.Orders.{attr_set_by, attr_unset_by, node_inserted_by, node_removed_from};
ghost use Rattle.smil_grammar.specs.Formats.{formats};
ghost use Rattle.smil_revision.specs.Editing.{at_node};

use super::values::{
    AttrMention, Child, Kinds, LineText, Setting, read_line_attrs, read_line_kind, read_name,
    read_value,
};
use smil_attrs::Shape;
use smil_model::{Duplicate, Refusal};
use smil_tree::Tree;
use std::alloc::Global;

/// A copy in which a node has an attribute with a value. The refusals are those of name and value
/// (`UnknownAttribute`, `Unsupported`, `BadValue`, `TooManyItems`, each with its column), then
/// `DuplicateId` where another node has the id, and `TooManyReferences`. `Memory` where it runs
/// out.
pub fn with_value(
    alloc: Global,
    tree: &Tree,
    serial: u32,
    setting: Setting<'_>,
) -> Result<Tree, Refusal>
    requires known { IsSome (node_at tree.now.nodes serial) }
    requires name { IsText setting.attr.text.now }
    requires value { IsText setting.value.text.now }
    requires column { IsColumn setting.attr.column }
    requires value_column { IsColumn setting.value.column }
    ensures ok { IfOk result (λ edited. at_node tree.now.nodes serial
        (λ n. attr_set_by limits formats tree.now n setting.entry.attr.text.now
        setting.entry.value.text.now setting.entry.attr.column setting.entry.value.column)
        ≡ Ok edited) }
    ensures err { IfErr result (IsRefusedBy
        (at_node tree.now.nodes serial (λ n. attr_set_by limits formats tree.now n
        setting.entry.attr.text.now setting.entry.value.text.now setting.entry.attr.column
        setting.entry.value.column))) }
{
    let given = read_value(alloc, named(tree, serial, setting.attr), setting.value)?;
    tree.valid();
    let mut edited = tree.copy()?;
    edited.set(serial, given)?;
    Ok(edited)
}

/// A copy in which an attribute of a node is absent. The refusals are those of the name
/// (`UnknownAttribute`, `Unsupported`, each with its column). `Memory` where it runs out.
pub fn without_name(tree: &Tree, serial: u32, attr: LineText<'_>) -> Result<Tree, Refusal>
    requires known { IsSome (node_at tree.now.nodes serial) }
    requires name { IsText attr.text.now }
    requires column { IsColumn attr.column }
    ensures ok { IfOk result (λ edited. at_node tree.now.nodes serial
        (λ n. attr_unset_by formats tree.now n attr.entry.text.now attr.entry.column) ≡ Ok edited) }
    ensures err { IfErr result (IsRefusedBy
        (at_node tree.now.nodes serial (λ n. attr_unset_by formats tree.now n attr.entry.text.now
        attr.entry.column))) }
{
    let name = read_name(named(tree, serial, attr))?;
    let mut edited = tree.copy()?;
    edited.unset(serial, name)?;
    Ok(edited)
}

/// A copy in which a node has one more child. The refusals are those of the line's shape and kind
/// (`BadOutline`, `Unsupported`), of the place (`TooDeep`, `BadPlace`), of the line's attributes
/// (`UnknownAttribute`, `Unsupported`, `BadValue`, `TooManyItems`, each with its column), then
/// `DuplicateId` where a node has the id, `TooManyElements` and `TooManyReferences`. `Memory` where
/// it runs out.
pub fn with_child(
    alloc: Global,
    tree: &Tree,
    parent: u32,
    child: Child<'_>,
) -> Result<Tree, Refusal>
    requires known { IsSome (node_at tree.now.nodes parent) }
    requires line { IsText child.line.text.now }
    requires column { IsColumn child.line.column }
    ensures ok { IfOk result (λ edited. at_node tree.now.nodes parent
        (λ p. node_inserted_by limits formats tree.now p child.entry.place
        child.entry.line.text.now child.entry.line.column) ≡ Ok edited) }
    ensures err { IfErr result (IsRefusedBy
        (at_node tree.now.nodes parent (λ p. node_inserted_by limits formats tree.now p
        child.entry.place child.entry.line.text.now child.entry.line.column))) }
{
    let place = child.place as usize;
    let Some(shape) = Shape::of(child.line.text) else {
        return Err(Refusal::BadOutline);
    };
    let kind = read_line_kind(child.line, &shape)?;
    tree.may_insert(parent, place, kind)?;
    let kinds = Kinds {
        node: kind,
        parent: tree.kind(parent),
    };
    let attrs = read_line_attrs(alloc, kinds, child.line, &shape)?;
    let mut edited = tree.copy()?;
    edited.insert(parent, place, kind, attrs)?;
    Ok(edited)
}

/// A copy without a node and all below it. `Root` where it has no parent, `Memory` where memory
/// runs out.
pub fn without_node(tree: &Tree, serial: u32) -> Result<Tree, Refusal>
    requires { IsSome (node_at tree.now.nodes serial) }
    ensures ok { IfOk result (λ edited. at_node tree.now.nodes serial (node_removed_from tree.now)
        ≡ Ok edited) }
    ensures err { IfErr result (IsRefusedBy
        (at_node tree.now.nodes serial (node_removed_from tree.now))) }
{
    let mut edited = tree.copy()?;
    edited.remove(serial)?;
    Ok(edited)
}

// An attribute of a node.
fn named<'a>(tree: &Tree, serial: u32, attr: LineText<'a>) -> AttrMention<'a>
    requires { IsSome (node_at tree.now.nodes serial) }
    ensures kind { (n : AnyNode) → node_at tree.now.nodes serial ≡ Some n → result.kind ≡ n.kind }
    ensures parent { (n : AnyNode) → node_at tree.now.nodes serial ≡ Some n → result.parent
        ≡ kind_of (node_at tree.now.nodes n.parent) }
    ensures name { result.name.now ≡ attr.entry.text.now }
    ensures column { result.column ≡ attr.entry.column }
{
    let above = match tree.parent(serial) {
        Some(parent) => Some(tree.kind(parent)),
        None => None,
    };
    AttrMention {
        kind: tree.kind(serial),
        parent: above,
        name: attr.text,
        column: attr.column,
    }
}
