//! Node lines, as they are read.

ghost use Rattle.std.specs.Prelude.{◌≡◌, ℕ, Some, IfOk, false};
ghost use Rattle.smil_grammar.specs.Allowed.{IsAttrs};
ghost use Rattle.smil_grammar.specs.Nodes.{WrittenAttr as WrittenText, Shape as ShapeText, column_at, attr_of, attrs_from, attrs_of, kind_of, kind_of_shape, node_of};
ghost use Rattle.smil_grammar.specs.Gives.{GivesNode};
ghost use Rattle.smil_attrs.specs.Filled.{filled};
ghost use Rattle.smil_model.specs.document.Edits.{no_attrs};
ghost use Rattle.smil_model.specs.document.Values.{is_seq_parent};
ghost use Rattle.smil_model.specs.document.Valid.{may_stand};

use super::attribute::read_attr;
use super::kinds;
use super::shape::{Shape, WrittenAttr};
use smil_grammar::{AttrFault, NodeFault};
use smil_model::{Attr, Attrs, Kind, with_attr};
use std::alloc::Global;

// The column of a place, from 1.
fn column(place: usize) -> u32
    ensures { result ≡ column_at place }
{
    if place < u32::MAX as usize {
        place as u32 + 1
    } else {
        u32::MAX
    }
}

// The attribute that is written, with the column of its fault.
fn attr(
    alloc: Global,
    parent: Option<Kind>,
    kind: Kind,
    written: &WrittenAttr<'_>,
) -> Result<Attr, NodeFault>
    ensures { GivesNode result (attr_of (is_seq_parent parent) kind written.now) }
{
    match read_attr(alloc, kind, parent, written.name, written.value) {
        Ok(attr) => Ok(attr),
        Err(AttrFault::UnknownAttribute) => Err(NodeFault::UnknownAttribute {
            column: column(written.name_place),
        }),
        Err(AttrFault::UnsupportedName) => Err(NodeFault::Unsupported {
            column: column(written.name_place),
        }),
        Err(AttrFault::UnsupportedValue { place }) => Err(NodeFault::Unsupported {
            column: column(written.value_place.saturating_add(place)),
        }),
        Err(AttrFault::BadValue { place }) => Err(NodeFault::BadValue {
            column: column(written.value_place.saturating_add(place)),
        }),
        Err(AttrFault::TooManyItems) => Err(NodeFault::TooManyItems {
            column: column(written.value_place),
        }),
        Err(AttrFault::Memory) => Err(NodeFault::Memory),
    }
}

/// Reads the attributes of a node line of this shape, from left to right, into those of a node of
/// this kind below a parent, None being for the root; one that was there is replaced. The first
/// fault is answered, its column counted in bytes from 1, up to the greatest `u32`; the attributes
/// before it are read then. It takes memory for texts and lists alone.
pub fn read_attrs(
    alloc: Global,
    parent: Option<Kind>,
    kind: Kind,
    shape: &Shape<'_>,
    attrs: &mut Attrs,
) -> Result<(), NodeFault>
    ensures { GivesNode (filled result attrs.new)
        (attrs_from (is_seq_parent parent) kind attrs.old shape.now.attributes) }
{
    let mut left = shape.attributes.again();
    while let Some(written) = left.next() {
        with_attr(attrs, attr(alloc, parent, kind, &written)?);
    }
    Ok(())
}

/// The attributes of a node line of this shape, from left to right, for a node of this kind below a
/// parent, None being for the root. The first fault is answered, its column counted in bytes from
/// 1, up to the greatest `u32`.
pub fn shape_attrs(
    alloc: Global,
    parent: Option<Kind>,
    kind: Kind,
    shape: &Shape<'_>,
) -> Result<Attrs, NodeFault>
    ensures { GivesNode result
        (attrs_from (is_seq_parent parent) kind no_attrs shape.now.attributes) }
{
    let mut attrs = Attrs::none();
    read_attrs(alloc, parent, kind, shape, &mut attrs)?;
    Ok(attrs)
}

/// The kind of a node line of this shape. A name that stands twice and an unknown kind are
/// `BadOutline`; a kind of SMIL that is left out is `Unsupported`.
pub fn shape_kind(shape: &Shape<'_>) -> Result<Kind, NodeFault>
    ensures { result ≡ kind_of_shape (Some shape.now) }
{
    if shape.repeats() {
        return Err(NodeFault::BadOutline);
    }
    match kinds::called(shape.kind) {
        Some(kind) => Ok(kind),
        None if kinds::is_left_out(shape.kind) => Err(NodeFault::Unsupported { column: 1 }),
        None => Err(NodeFault::BadOutline),
    }
}

/// Whether a parent can have a child of this kind, None being for the root's.
pub fn fits(parent: Option<Kind>, kind: Kind) -> bool
    ensures { result ≡ may_stand parent kind }
{
    match parent {
        None => matches!(kind, Kind::Par | Kind::Seq | Kind::Excl),
        Some(parent) => parent.may_hold(kind),
    }
}

/// The kind of a node line without leading spaces, exactly where `read_node` answers neither
/// `BadOutline` nor `Unsupported` for the kind. A line that isn't of the shape of a node line, one
/// in which a name stands twice, and an unknown kind are `BadOutline`; a kind of SMIL that is left
/// out is `Unsupported`.
pub fn read_kind(line: &[u8]) -> Result<Kind, NodeFault>
    ensures { result ≡ kind_of line.now }
{
    match Shape::of(line) {
        Some(shape) => shape_kind(&shape),
        None => Err(NodeFault::BadOutline),
    }
}

/// The kind and the attributes of a node line without leading spaces, below a parent, None being
/// for the root. The line's faults come first (`read_kind`), then a child that the parent's kind
/// can't have (`BadPlace`), then the attributes' faults from left to right. What is read can be
/// written. Columns are counted in bytes from 1, up to the greatest `u32`.
pub fn read_node(
    alloc: Global,
    parent: Option<Kind>,
    line: &[u8],
) -> Result<(Kind, Attrs), NodeFault>
    ensures node { GivesNode result (node_of parent line.now) }
    ensures can_write { IfOk result (λ node. IsAttrs false node.0 node.1) }
{
    let Some(shape) = Shape::of(line) else {
        return Err(NodeFault::BadOutline);
    };
    let kind = shape_kind(&shape)?;
    if !fits(parent, kind) {
        return Err(NodeFault::BadPlace);
    }
    let attrs = shape_attrs(alloc, parent, kind, &shape)?;
    Ok((kind, attrs))
}
