//! What evaluation reads of the document for each element.

ghost use Rattle.std.specs.Prelude.{◌≡◌, ◌<◌, List, Some, IfOk, IsSome, length, option_copied, slice_get};
ghost use Rattle.smil_model.specs.declared.document.Node.{Node as AnyNode};
ghost use Rattle.smil_model.specs.document.Document.{elements, node_at, serials};
ghost use Rattle.std.specs.FinMap.{get};
ghost use Rattle.smil_instances.specs.Spread.{IsIndex};
ghost use Rattle.smil_instances.specs.Dependents.{AreDependentsOf};
ghost use Rattle.smil_past.specs.Makeups.{makeup_of};
ghost use Rattle.smil_past.specs.Syncs.{all_syncs, sync_row, syncs_of};

pub mod laws;
mod lists;
pub mod row;

use crate::makeup::{Makeup, makeup_of};
use crate::places::element_place;
use lists::Reader;
use row::SyncbaseRow;
use smallvec::SmallVec;
use smil_graph::Graph;
use smil_instances::Dependents;
pub use smil_instances::Syncbase;
use smil_model::{Edge, SerialTable};
use smil_tree::Tree;
use std::alloc::{AllocError, Global};
use std::marker::Model;
use std::rc::Rc;

/// What the items of each element of a document wait for, and what its attributes tell, in document
/// order.
pub struct Syncs {
    places: Rc<SerialTable>,
    rows: Vec<SyncbaseRow>,
}

impl Drop for Syncs {
    // Dropped by a call of its own, not field by field in each function that drops one.
    fn drop(self) {
        let Syncs {
            places: _places,
            rows: _rows,
        } = self;
    }
}

impl Model for Syncs {
    ghost use Rattle.std.specs.Prelude.{List};
    ghost use Rattle.std.specs.FinMap.{get};
    ghost use Rattle.smil_instances.specs.Spread.{IsIndex};
    ghost use Rattle.smil_past.specs.Syncs.{SyncRow, serials_in};

    ghost Value = { List SyncRow };

    ghost view = { λ a. a.rows.items };

    ghost invariant = { λ a. IsIndex (serials_in a.rows.items) (get a.places.value) };
}

impl Syncs {
    /// What the items of a graph's document wait for and its attributes tell, unless memory runs
    /// out; with what these items follow from, and the places of the elements.
    pub fn of(
        alloc: Global,
        graph: &Graph,
        dependents: &Dependents,
        places: Rc<SerialTable>,
    ) -> Result<Syncs, AllocError>
        requires dependents { AreDependentsOf graph.now.nodes dependents.now }
        requires places { IsIndex (serials (elements graph.now.nodes)) (get places.value) }
        ensures { IfOk result (λ syncs. syncs ≡ all_syncs graph.now.nodes) }
    {
        let reader = Reader { graph, dependents };
        let tree = graph.tree();
        let rows = rows_of(alloc, &reader, tree, tree.elements())?;
        Ok(Syncs { places, rows })
    }

    /// The places of the elements in document order, by their serials. It takes no memory.
    pub fn places(&self) -> &Rc<SerialTable>
        ensures { (nodes : List AnyNode) → self.now ≡ all_syncs nodes
            → IsIndex (serials (elements nodes)) (get result.now.value) }
    {
        &self.places
    }

    /// What the begin or the end items of an element wait for. It takes no memory.
    pub fn of_element(&self, who: u32, side: Edge) -> &[Syncbase]
        ensures { (nodes : List AnyNode) (e : AnyNode) → self.now ≡ all_syncs nodes
            → node_at (elements nodes) who ≡ Some e → result.now ≡ syncs_of nodes side e }
    {
        match self.row(who) {
            Some(row) => row.side(side),
            None => &[],
        }
    }

    /// What the attributes of an element tell; None where there is no such element. It takes no
    /// memory.
    pub fn makeup(&self, who: u32) -> Option<&Makeup>
        ensures { (nodes : List AnyNode) (e : AnyNode) → self.now ≡ all_syncs nodes
            → node_at (elements nodes) who ≡ Some e
            → option_copied result ≡ Some (makeup_of nodes e) }
    {
        match self.row(who) {
            Some(row) => Some(row.makeup()),
            None => None,
        }
    }

    /// The row of an element. It takes no memory.
    pub fn row(&self, who: u32) -> Option<&SyncbaseRow>
        ensures { (nodes : List AnyNode) (e : AnyNode) → self.now ≡ all_syncs nodes
            → node_at (elements nodes) who ≡ Some e
            → option_copied result ≡ Some (sync_row nodes e) }
    {
        match element_place(&self.places, who) {
            Some(place) => row_at(&self.rows, place),
            None => None,
        }
    }

    /// The row of the element at an index among the elements in document order, from 0. It takes no
    /// look-up, and no memory.
    pub fn at(&self, index: usize) -> &SyncbaseRow
        requires { index < length self.now }
        ensures { (nodes : List AnyNode) (e : AnyNode) → self.now ≡ all_syncs nodes
            → slice_get (elements nodes) index ≡ Some e → result.now ≡ sync_row nodes e }
    {
        &self.rows[index]
    }
}

// The row at a place.
fn row_at(rows: &[SyncbaseRow], place: usize) -> Option<&SyncbaseRow>
    ensures { option_copied result ≡ slice_get rows.now place }
{
    rows.get(place)
}

// The rows of the elements.
fn rows_of(
    alloc: Global,
    reader: &Reader,
    tree: &Tree,
    whos: &[u32],
) -> Result<Vec<SyncbaseRow>, AllocError>
    requires graph { reader.now.graph.now.nodes ≡ tree.now.nodes }
    requires dependents { AreDependentsOf tree.now.nodes reader.now.dependents.now }
    requires whos { whos.now ≡ serials (elements tree.now.nodes) }
    ensures { IfOk result (λ rows. rows.items ≡ all_syncs tree.now.nodes) }
{
    tree.valid();
    let mut rows = Vec::with_capacity(alloc, whos.len())?;
    for (place, who) in whos.iter().enumerate() {
        rows.push(row_of(alloc, reader, tree, place, *who)?)?;
    }
    Ok(rows)
}

// The row of the element at a place, by its serial.
fn row_of(
    alloc: Global,
    reader: &Reader,
    tree: &Tree,
    place: usize,
    who: u32,
) -> Result<SyncbaseRow, AllocError>
    requires graph { reader.now.graph.now.nodes ≡ tree.now.nodes }
    requires dependents { AreDependentsOf tree.now.nodes reader.now.dependents.now }
    requires known { IsSome (node_at tree.now.nodes who) }
    ensures { IfOk result (λ row. (e : AnyNode) → slice_get (elements tree.now.nodes) place ≡ Some e
        → node_at tree.now.nodes who ≡ Some e → row ≡ sync_row tree.now.nodes e) }
{
    let attrs = tree.attrs(who);
    let mut syncs = SmallVec::new(alloc);
    reader.put_begins(place, who, &attrs.begin, &mut syncs)?;
    let begins = syncs.len();
    reader.put_ends(place, who, &attrs.end, &mut syncs)?;
    SyncbaseRow::new(who, syncs, begins, makeup_of(tree, who))
}
