//! The sources of items, from the tree of a document.

ghost use Rattle.std.specs.Prelude.{◌≡◌, Some, IfOk, IsSome, map};
ghost use Rattle.smil_model.specs.declared.document.Edge.TheVariants.{End};
ghost use Rattle.smil_model.specs.document.Document.{node_at, element_named, previous_in_seq, target, time_parent, serial_of};
ghost use Rattle.smil_model.specs.document.Valid.{kind_of};
ghost use Rattle.smil_instances.specs.Sources.{source_of, syncbase_or, eventbase};
ghost use Rattle.smil_instances.specs.declared.source.Source.TheVariants as source;
ghost use Rattle.smil_instances.specs.Spread.{element_of};

use super::source::Source;
use smallvec::SmallVec;
use smil_model::{Bytes, Duplicate, Item, Items, Kind, Who};
use smil_tree::Tree;
use std::alloc::{AllocError, Global};

/// An element of a document, with the source of an offset alone in its lists.
#[derive(Clone, Copy)]
pub struct Element<'a> {
    pub tree: &'a Tree,
    pub who: u32,
    pub by_offset: Source,
}

/// The serial of a node's time parent, if there is such a node and it has one.
pub fn parent_of(tree: &Tree, who: u32) -> Option<u32>
    ensures { result ≡ serial_of (time_parent tree.now.nodes who) }
{
    tree.find(&Who::Serial(who))?;
    tree.time_parent(who)
}

/// The kind of a node's time parent, if it has one.
pub fn kind_above(tree: &Tree, who: u32) -> Option<Kind>
    requires { IsSome (node_at tree.now.nodes who) }
    ensures { result ≡ kind_of (time_parent tree.now.nodes who) }
{
    tree.valid();
    let parent = tree.time_parent(who)?;
    Some(tree.kind(parent))
}

/// The serial of the element with an id, if there is one.
pub fn element_named(tree: &Tree, id: &Bytes) -> Result<Option<u32>, AllocError>
    ensures { IfOk result (λ who. who ≡ serial_of (element_named tree.now.nodes id.now)) }
{
    tree.valid();
    let who = Who::Id(id.copy()?);
    Ok(element_of(tree, &who))
}

/// The serial of an element, if there is such a node and it is no priorityClass.
pub fn element_of(tree: &Tree, who: &Who) -> Option<u32>
    ensures { result ≡ serial_of (element_of tree.now.nodes who.now) }
{
    tree.valid();
    let serial = tree.find(who)?;
    if tree.kind(serial).is_element() {
        Some(serial)
    } else {
        None
    }
}

// The source of an item whose events or repeats are those of the element with the id, or of the
// element itself.
fn source_by(tree: &Tree, who: u32, id: &Option<Bytes>) -> Result<Source, AllocError>
    ensures { IfOk result (λ s. s ≡ eventbase (target tree.now.nodes who id.now)) }
{
    let Some(id) = id else {
        return Ok(Source::Eventbase { of: who });
    };
    match element_named(tree, id)? {
        Some(of) => Ok(Source::Eventbase { of }),
        None => Ok(Source::Nothing),
    }
}

// The source of an item of an element.
fn source_of(element: &Element<'_>, item: &Item) -> Result<Source, AllocError>
    requires { element.now.by_offset ≡ syncbase_or source.Start End
        (previous_in_seq element.now.tree.now.nodes element.now.who) }
    ensures { IfOk result (λ s. s
        ≡ source_of element.now.tree.now.nodes element.now.who item.now) }
{
    let Element {
        tree,
        who,
        by_offset,
    } = *element;
    match item {
        Item::Offset { .. } => Ok(by_offset),
        Item::Sync { who, edge, .. } => match element_named(tree, who)? {
            Some(of) => Ok(Source::Syncbase { of, edge: *edge }),
            None => Ok(Source::Nothing),
        },
        Item::Event { who: id, .. } | Item::Repeat { who: id, .. } => source_by(tree, who, id),
        Item::Key { key, .. } => Ok(Source::Key { key: *key }),
        Item::Indefinite => Ok(Source::Nothing),
    }
}

/// The sources of the items of a list of an element.
pub fn sources_of(
    alloc: Global,
    element: &Element<'_>,
    items: &Items,
) -> Result<SmallVec<Source, 1>, AllocError>
    requires { element.now.by_offset ≡ syncbase_or source.Start End
        (previous_in_seq element.now.tree.now.nodes element.now.who) }
    ensures { IfOk result (λ sources. sources.items
        ≡ map (source_of element.now.tree.now.nodes element.now.who) items.now) }
{
    let mut sources = SmallVec::with_capacity(alloc, items.len())?;
    for item in items.slice() {
        sources.push(source_of(element, item)?)?;
    }
    Ok(sources)
}
