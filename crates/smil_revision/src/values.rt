//! Values and node lines of orders, read.

ghost use Rattle.std.specs.Prelude.{◌≡◌, ◌≤◌, ◌+◌, ◌-◌, Some, Ok};
ghost use Rattle.smil_grammar.specs.Formats.{attr_in_line, attrs_in_line, kind_in_line, name_in_line};
ghost use Rattle.smil_grammar.specs.Nodes.{kind_of, shape_of};
ghost use Rattle.smil_grammar.specs.Outlines.{refused};
ghost use Rattle.smil_grammar.specs.Gives.{GivesReading};
ghost use Rattle.smil_revision.specs.Refusing.{IsInText, IsPlaced, of_value};
ghost use Rattle.smil_model.specs.declared.limits.TheConstants.{TEXT_BYTES};
ghost use Rattle.smil_model.specs.shown.Answers.{IsColumn, IsText};

use smil_attrs::{
    AttrFault, NodeFault, Shape, attr_name, fits, read_attr, shape_attrs, shape_kind,
};
use smil_model::{Attr, AttrName, Attrs, Kind, Refusal};
use std::alloc::Global;

/// An attribute of a node as an order names it: the kind of the node, that of its parent, None for
/// the root, and the name, with its column in the order's line.
#[derive(Clone, Copy)]
pub struct AttrMention<'a> {
    pub kind: Kind,
    pub parent: Option<Kind>,
    pub name: &'a [u8],
    pub column: u32,
}

/// A text in an order's line, with the column at which it begins, counted in bytes from 1.
#[derive(Clone, Copy)]
pub struct LineText<'a> {
    pub text: &'a [u8],
    pub column: u32,
}

/// An attribute with the value that an order gives it, as both stand in its line.
#[derive(Clone, Copy)]
pub struct Setting<'a> {
    pub attr: LineText<'a>,
    pub value: LineText<'a>,
}

/// The line of a node that an order inserts, with its place among the children, counted from 1.
#[derive(Clone, Copy)]
pub struct Child<'a> {
    pub place: u32,
    pub line: LineText<'a>,
}

/// The kind of a node that an order inserts, and that of its parent.
#[derive(Clone, Copy)]
pub struct Kinds {
    pub node: Kind,
    pub parent: Kind,
}

/// The attribute that an order sets, read; or the refusal of its name or its value.
pub fn read_value(
    alloc: Global,
    named: AttrMention<'_>,
    value: LineText<'_>,
) -> Result<Attr, Refusal>
    requires name { IsText named.name.now }
    requires value { IsText value.text.now }
    requires column { IsColumn named.column }
    requires value_column { IsColumn value.column }
    ensures { GivesReading result (attr_in_line named.entry.kind named.entry.parent
        named.entry.name.now value.entry.text.now named.entry.column value.entry.column) }
{
    match read_attr(alloc, named.kind, named.parent, named.name, value.text) {
        Ok(attr) => Ok(attr),
        Err(fault) => Err(refused_value(fault, named.column, value.column)),
    }
}

/// The name of the attribute that an order takes away, read; or its refusal.
pub fn read_name(named: AttrMention<'_>) -> Result<AttrName, Refusal>
    requires name { IsText named.name.now }
    requires column { IsColumn named.column }
    ensures { result ≡ name_in_line named.entry.kind named.entry.name.now named.entry.column }
{
    match attr_name(named.kind, named.name) {
        Ok(name) => Ok(name),
        Err(fault) => Err(refused_value(fault, named.column, named.column)),
    }
}

/// The kind of the node line of an order, which has this shape, read; or its refusal.
pub fn read_line_kind(line: LineText<'_>, shape: &Shape<'_>) -> Result<Kind, Refusal>
    requires line { IsText line.text.now }
    requires column { IsColumn line.column }
    requires shape { shape_of line.text.now ≡ Some shape.now }
    ensures { result ≡ kind_in_line line.entry.text.now line.entry.column }
{
    match shape_kind(shape) {
        Ok(kind) => Ok(kind),
        Err(fault) => Err(refused_line(fault, line.column)),
    }
}

/// The attributes of the node line of an order, which has this shape, for a node and a parent of
/// these kinds, read; or the refusal of the first that is refused. `BadPlace` where the node may
/// not stand below the parent.
pub fn read_line_attrs(
    alloc: Global,
    kinds: Kinds,
    line: LineText<'_>,
    shape: &Shape<'_>,
) -> Result<Attrs, Refusal>
    requires line { IsText line.text.now }
    requires column { IsColumn line.column }
    requires shape { shape_of line.text.now ≡ Some shape.now }
    requires kind { kind_of line.text.now ≡ Ok kinds.node }
    ensures { GivesReading result (attrs_in_line kinds.parent line.entry.text.now
        line.entry.column) }
{
    let above = Some(kinds.parent);
    if !fits(above, kinds.node) {
        return Err(Refusal::BadPlace);
    }
    match shape_attrs(alloc, above, kinds.node, shape) {
        Ok(attrs) => Ok(attrs),
        Err(fault) => Err(refused_line(fault, line.column)),
    }
}

// The refusal of an attribute whose name and value begin at these columns; a fault within the value
// is told by the column of its byte.
fn refused_value(fault: AttrFault, name_column: u32, column: u32) -> Refusal
    requires column { IsColumn column }
    requires placed { IsPlaced fault }
    ensures { result ≡ of_value name_column column fault }
{
    match fault {
        AttrFault::UnknownAttribute => Refusal::UnknownAttribute {
            column: name_column,
        },
        AttrFault::UnsupportedName => Refusal::Unsupported {
            column: name_column,
        },
        AttrFault::UnsupportedValue { place: byte_place } => Refusal::Unsupported {
            column: behind(column, byte_place),
        },
        AttrFault::BadValue { place: byte_place } => Refusal::BadValue {
            column: behind(column, byte_place),
        },
        AttrFault::TooManyItems => Refusal::TooManyItems { column },
        AttrFault::Memory => Refusal::Memory,
    }
}

// The column of a byte at a place, counted from 0, of a text that begins at a column.
fn behind(column: u32, byte_place: usize) -> u32
    requires column { IsColumn column }
    requires place { byte_place ≤ TEXT_BYTES }
    ensures { result ≡ column + byte_place }
{
    column + byte_place as u32
}

// The refusal of a node line that begins at a column.
fn refused_line(fault: NodeFault, column: u32) -> Refusal
    requires column { IsColumn column }
    requires within { IsInText fault }
    ensures { result ≡ refused (column - 1) fault }
{
    let before = column - 1;
    match fault {
        NodeFault::BadOutline => Refusal::BadOutline,
        NodeFault::BadPlace => Refusal::BadPlace,
        NodeFault::Unsupported { column } => Refusal::Unsupported {
            column: before + column,
        },
        NodeFault::UnknownAttribute { column } => Refusal::UnknownAttribute {
            column: before + column,
        },
        NodeFault::BadValue { column } => Refusal::BadValue {
            column: before + column,
        },
        NodeFault::TooManyItems { column } => Refusal::TooManyItems {
            column: before + column,
        },
        NodeFault::Memory => Refusal::Memory,
    }
}
