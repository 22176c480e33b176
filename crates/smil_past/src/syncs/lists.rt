//! What the items of a begin or end list wait for.

ghost use Rattle.std.specs.Prelude.{◌≡◌, ◌≤◌, ◌++◌, OnOk, None, Some, length, slice_get};
ghost use Rattle.smil_model.specs.declared.document.Node.{Node as AnyNode};
ghost use Rattle.smil_model.specs.declared.document.Edge.TheVariants as edge;
ghost use Rattle.smil_model.specs.document.Document.{elements, node_at};
ghost use Rattle.smil_graph.specs.Graph.{looped_at};
ghost use Rattle.smil_instances.specs.Dependents.{AreDependentsOf, source_in};
ghost use Rattle.smil_past.specs.Syncs.{listed, offset_of, sync_by, sync_from, syncs_of, IsListOf};

use smallvec::SmallVec;
use smil_graph::Graph;
use smil_instance_rows::Cell;
use smil_instances::{Dependents, Source, Syncbase};
use smil_model::{Edge, Item, Items};
use std::alloc::AllocError;

/// What the lists of a document are read with: its graph, and what its items depend on.
#[derive(Drop)]
pub struct Reader<'a> {
    pub graph: &'a Graph,
    pub dependents: &'a Dependents,
}

impl Reader<'_> {
    /// Appends what the items of the begin list of the element at a place wait for, whose `begin`
    /// this is.
    pub fn put_begins(
        &self,
        place: usize,
        who: u32,
        begin: &Option<Items>,
        syncs: &mut SmallVec<Syncbase, 1>,
    ) -> Result<(), AllocError>
        requires { AreDependentsOf self.now.graph.now.nodes self.now.dependents.now }
        ensures { OnOk result ((e : AnyNode)
            → slice_get (elements self.now.graph.now.nodes) place ≡ Some e
            → node_at (elements self.now.graph.now.nodes) who ≡ Some e → e.attrs.begin ≡ begin.now
            → syncs.new.items
            ≡ syncs.old.items ++ syncs_of self.now.graph.now.nodes edge.Begin e) }
    {
        match begin {
            Some(items) => self.put_list(place, who, Edge::Begin, items, syncs),
            None => self.put_default(place, syncs),
        }
    }

    /// Appends what the items of the end list of the element at a place wait for, whose `end` this
    /// is.
    pub fn put_ends(
        &self,
        place: usize,
        who: u32,
        end: &Option<Items>,
        syncs: &mut SmallVec<Syncbase, 1>,
    ) -> Result<(), AllocError>
        requires { AreDependentsOf self.now.graph.now.nodes self.now.dependents.now }
        ensures told { OnOk result ((e : AnyNode)
            → slice_get (elements self.now.graph.now.nodes) place ≡ Some e
            → node_at (elements self.now.graph.now.nodes) who ≡ Some e → e.attrs.«end» ≡ end.now
            → syncs.new.items
            ≡ syncs.old.items ++ syncs_of self.now.graph.now.nodes edge.End e) }
        ensures most { OnOk result (length syncs.old.items ≤ length syncs.new.items) }
    {
        match end {
            Some(items) => self.put_list(place, who, Edge::End, items, syncs),
            None => Ok(()),
        }
    }

    // Appends what the items of a list of the element at a place wait for.
    fn put_list(
        &self,
        place: usize,
        who: u32,
        side: Edge,
        items: &Items,
        syncs: &mut SmallVec<Syncbase, 1>,
    ) -> Result<(), AllocError>
        requires { AreDependentsOf self.now.graph.now.nodes self.now.dependents.now }
        ensures told { OnOk result ((e : AnyNode)
            → IsListOf self.now.graph.now.nodes place who side e items.now → syncs.new.items
            ≡ syncs.old.items ++ syncs_of self.now.graph.now.nodes side e) }
        ensures most { OnOk result (length syncs.old.items ≤ length syncs.new.items) }
    {
        for (at, item) in items.slice().iter().enumerate() {
            let cell = Cell {
                row: place,
                side,
                item: at,
            };
            push_some(syncs, self.sync(cell, who, item))?;
        }
        Ok(())
    }

    // What the item of a cell waits for, whose element has this serial.
    fn sync(&self, cell: Cell, who: u32, item: &Item) -> Option<Syncbase>
        ensures { result ≡ sync_by (looped_at self.now.graph.now.nodes who cell.side cell.item)
            item.now (source_in self.now.dependents.now.rows cell) }
    {
        let offset = offset_of(item)?;
        if self.graph.looped(who, cell.side, cell.item) {
            return None;
        }
        sync_from(offset, self.dependents.source(cell))
    }

    // Appends what the item waits for that stands for a begin list where there is none: an offset
    // of 0, or `indefinite` in a child of an excl, whose source is nothing.
    fn put_default(&self, place: usize, syncs: &mut SmallVec<Syncbase, 1>) -> Result<(), AllocError>
        requires { AreDependentsOf self.now.graph.now.nodes self.now.dependents.now }
        ensures { OnOk result ((e : AnyNode)
            → slice_get (elements self.now.graph.now.nodes) place ≡ Some e → e.attrs.begin ≡ None
            → syncs.new.items
            ≡ syncs.old.items ++ syncs_of self.now.graph.now.nodes edge.Begin e) }
    {
        let source = self.dependents.source(Cell {
            row: place,
            side: Edge::Begin,
            item: 0,
        });
        push_some(syncs, sync_from(0, source))
    }
}

// Appends what there is.
#[inline(always)]
fn push_some(syncs: &mut SmallVec<Syncbase, 1>, sync: Option<Syncbase>) -> Result<(), AllocError>
    ensures { OnOk result (syncs.new.items ≡ syncs.old.items ++ listed sync) }
{
    if let Some(sync) = sync {
        syncs.push(sync)?;
    }
    Ok(())
}

// What an item with this offset and this source waits for, which is not looped.
fn sync_from(offset: i64, source: Source) -> Option<Syncbase>
    ensures { result ≡ sync_from (Some offset) source }
{
    match source {
        Source::Syncbase { of, edge } => Some(Syncbase { of, edge, offset }),
        _ => None,
    }
}

// The offset of an item that counts from a begin or an end, or from the start of the time parent's
// iteration.
fn offset_of(item: &Item) -> Option<i64>
    ensures { result ≡ offset_of item.now }
{
    match item {
        Item::Offset { offset } => Some(*offset),
        Item::Sync { offset, .. } => Some(*offset),
        _ => None,
    }
}
