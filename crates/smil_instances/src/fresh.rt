//! The rows of a document's elements before any cell is noted.

ghost use Rattle.std.specs.Prelude.{◌≡◌, Some, IfOk, IsSome, map, option_map, if◌then◌else◌};
ghost use Rattle.smil_model.specs.declared.document.Node.{Node as AnyNode};
ghost use Rattle.smil_model.specs.declared.document.Edge.TheVariants.{End};
ghost use Rattle.smil_model.specs.document.Document.{elements, is_in_excl, node_at, previous_child, previous_in_seq, time_parent, serials, serial_of};
ghost use Rattle.smil_model.specs.document.Defaults.{begin_list, end_list};
ghost use Rattle.smil_instances.specs.Sources.{source_of, syncbase_or};
ghost use Rattle.smil_instances.specs.declared.source.Source.TheVariants as source;
ghost use Rattle.smil_instances.specs.Spread.{fresh_row, fresh_rows};

use super::dependents_row::DependentsRow;
use super::source::Source;
use super::sources::{Element, kind_above, sources_of};
use smallvec::SmallVec;
use smil_model::{Edge, Kind};
use smil_tree::Tree;
use std::alloc::{AllocError, Global};

/// The rows of the elements, with the sources of their items.
pub fn fresh_rows(
    alloc: Global,
    tree: &Tree,
    whos: &[u32],
    befores: &[Option<u32>],
) -> Result<Vec<DependentsRow>, AllocError>
    requires whos { whos.now ≡ serials (elements tree.now.nodes) }
    requires befores { befores.now
        ≡ map (λ (n : AnyNode). serial_of
        (previous_child tree.now.nodes (time_parent tree.now.nodes n.serial) n.serial))
        (elements tree.now.nodes) }
    ensures { IfOk result (λ rows. rows.items ≡ fresh_rows tree.now.nodes) }
{
    tree.valid();
    let mut rows = Vec::with_capacity(alloc, whos.len())?;
    for (place, who) in whos.iter().enumerate() {
        rows.push(fresh_row(alloc, tree, *who, befores[place])?)?;
    }
    Ok(rows)
}

// The row of an element, by its serial and the time child before it.
fn fresh_row(
    alloc: Global,
    tree: &Tree,
    who: u32,
    before: Option<u32>,
) -> Result<DependentsRow, AllocError>
    requires known { IsSome (node_at tree.now.nodes who) }
    requires before { before ≡ serial_of
        (previous_child tree.now.nodes (time_parent tree.now.nodes who) who) }
    ensures { IfOk result (λ row. Some row
        ≡ option_map (fresh_row tree.now.nodes) (node_at tree.now.nodes who)) }
{
    let by_offset = source_by_offset(tree, who, before);
    let element = Element {
        tree,
        who,
        by_offset,
    };
    let begins = begin_sources(alloc, &element)?;
    let ends = end_sources(alloc, &element)?;
    Ok(DependentsRow::new(alloc, begins, ends))
}

// The source of an offset alone: the end of the child before in a seq, and else the start of the
// time parent's iteration.
fn source_by_offset(tree: &Tree, who: u32, before: Option<u32>) -> Source
    requires known { IsSome (node_at tree.now.nodes who) }
    requires before { before ≡ serial_of
        (previous_child tree.now.nodes (time_parent tree.now.nodes who) who) }
    ensures { result ≡ syncbase_or source.Start End (previous_in_seq tree.now.nodes who) }
{
    match (kind_above(tree, who), before) {
        (Some(Kind::Seq), Some(of)) => Source::Syncbase {
            of,
            edge: Edge::End,
        },
        _ => Source::Start,
    }
}

// The sources of the items of an element's begin list.
fn begin_sources(alloc: Global, element: &Element<'_>) -> Result<SmallVec<Source, 1>, AllocError>
    requires known { IsSome (node_at element.now.tree.now.nodes element.now.who) }
    requires by_offset { element.now.by_offset ≡ syncbase_or source.Start End
        (previous_in_seq element.now.tree.now.nodes element.now.who) }
    ensures { IfOk result (λ sources. Some sources.items
        ≡ option_map (λ (e : AnyNode). map
        (source_of element.now.tree.now.nodes element.now.who)
        (begin_list element.now.tree.now.nodes e))
        (node_at element.now.tree.now.nodes element.now.who)) }
{
    if let Some(items) = &element.tree.attrs(element.who).begin {
        return sources_of(alloc, element, items);
    }
    let mut sources = SmallVec::new(alloc);
    sources.push(begin_by_default(element))?;
    Ok(sources)
}

// The source of the one item of an element without a begin list: nothing in an excl, and else that
// of an offset.
fn begin_by_default(element: &Element<'_>) -> Source
    requires { IsSome (node_at element.now.tree.now.nodes element.now.who) }
    ensures { result ≡ (if is_in_excl element.now.tree.now.nodes element.now.who
        then source.Nothing else element.now.by_offset) }
{
    match kind_above(element.tree, element.who) {
        Some(Kind::Excl) => Source::Nothing,
        _ => element.by_offset,
    }
}

// The sources of the items of an element's end list.
fn end_sources(alloc: Global, element: &Element<'_>) -> Result<SmallVec<Source, 1>, AllocError>
    requires known { IsSome (node_at element.now.tree.now.nodes element.now.who) }
    requires by_offset { element.now.by_offset ≡ syncbase_or source.Start End
        (previous_in_seq element.now.tree.now.nodes element.now.who) }
    ensures { IfOk result (λ sources. Some sources.items
        ≡ option_map (λ (e : AnyNode). map
        (source_of element.now.tree.now.nodes element.now.who) (end_list e))
        (node_at element.now.tree.now.nodes element.now.who)) }
{
    match &element.tree.attrs(element.who).end {
        Some(items) => sources_of(alloc, element, items),
        None => Ok(SmallVec::new(alloc)),
    }
}
