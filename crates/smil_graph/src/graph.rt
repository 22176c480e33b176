//! The graph of a document.

ghost use Rattle.std.specs.Prelude.{◌≡◌, ◌==◌, ◌++◌, ◌<◌, ℕ, List, Some, true, length, slice_get, slice_index, OnOk, OnErr, IfOk};
ghost use Rattle.std.specs.List.{position};
ghost use Rattle.smil_model.specs.document.Valid.{IsNumberedTree};
ghost use Rattle.smil_model.specs.reach.Reach as model;
ghost use Rattle.smil_model.specs.document.Closure.{has};
ghost use Rattle.smil_graph.specs.Graph.{document_of, is_follower_rank, is_reader_rank, looped_at, IsGraphOrder};
ghost use Rattle.smil_model.specs.declared.document.Node.{Node as AnyNode};
ghost use Rattle.smil_graph.specs.Tables.{marked_at, element_place, reach_of, AreElements, AreOf, AreTables};
ghost use Rattle.smil_graph.specs.Places.{is_element_at, place_of};
ghost use Rattle.smil_graph.specs.Reduced.{all_reduced};

use super::near::near;
use super::outline::{TimeTree, is_element_at};
use super::row::row_at;
use super::search::search;
use super::short_list::ShortList;
use super::tables::{Tables, serials_at, tables_of};
use smil_flat_lists::FlatLists;
use smil_model::{Duplicate, Edge, Serials};
use smil_tree::Tree;
use std::alloc::{AllocError, Global};
use std::marker::Model;
use std::rc::Rc;

/// A document with its graph, seen as the document's nodes and next serial with an order of the
/// elements: which elements read which, which references are looped, and in what order to take the
/// elements.
pub struct Graph {
    tree: Tree,
    tables: Rc<Tables>,
    alloc: Global,
}

/// The graph of an edited document, and whether it is known that the document is alike to the one
/// before in what a graph reads of it.
#[derive(Drop)]
pub struct Revised {
    pub graph: Graph,
    pub alike: bool,
}

impl Drop for Graph {
    // Dropped by a call of its own, not field by field in each function that drops one.
    fn drop(self) {
        let Graph {
            tree: _tree,
            tables: _tables,
            alloc: _alloc,
        } = self;
    }
}

impl Model for Graph {
    ghost use Rattle.smil_model.specs.document.Valid.{IsNumberedTree};
    ghost use Rattle.smil_graph.specs.Graph.{OrderedNodes};
    ghost use Rattle.smil_graph.specs.Tables.{AreTables};

    ghost Value = { OrderedNodes };

    ghost view = { λ a. record {
      nodes = a.tree.nodes;
      next = a.tree.next;
      order = a.tables.value.order;
    } };

    ghost invariant = { λ a. IsNumberedTree a.tree × AreTables a.tree a.tables.value };
}

impl Duplicate for Graph {
    fn copy(&self) -> Result<Self, AllocError> {
        Ok(Graph {
            tree: self.tree.copy()?,
            tables: self.tables.clone()?,
            alloc: self.alloc,
        })
    }
}

impl Graph {
    /// A document with its graph, unless memory runs out. The time grows about as the number of
    /// nodes and references; no node is copied.
    pub fn of(alloc: Global, tree: Tree) -> Result<Graph, AllocError>
        ensures { IfOk result (λ graph. document_of graph ≡ tree) }
    {
        tree.valid();
        let tables = Rc::new(alloc, tables_of(alloc, &tree)?)?;
        Ok(Graph {
            tree,
            tables,
            alloc,
        })
    }

    /// The graph of a document of which a graph reads the same, as `are_alike` says; unless memory
    /// runs out. What this graph has is shared: it takes no memory.
    pub fn shared(&self, after: Tree) -> Result<Graph, AllocError>
        requires { all_reduced self.now.nodes ≡ all_reduced after.nodes }
        ensures { IfOk result (λ graph. document_of graph ≡ after) }
    {
        after.valid();
        Ok(Graph {
            tree: after,
            tables: self.tables.clone()?,
            alloc: self.alloc,
        })
    }

    /// The document. It takes no memory.
    pub fn tree(&self) -> &Tree
        ensures { result.now ≡ document_of self.now }
    {
        &self.tree
    }

    /// Whether an item, counted from 0, of the begins or ends of an element is a looped reference;
    /// false for an item of another kind, past the last item, and for a serial of no element. It
    /// takes no memory.
    pub fn looped(&self, serial: u32, side: Edge, item: usize) -> bool
        ensures { result ≡ looped_at self.now.nodes serial side item }
    {
        let tables = self.tables.as_ref();
        let place = self.tree.position(serial);
        match side {
            Edge::Begin => is_marked(&tables.begins, place, item),
            Edge::End => is_marked(&tables.ends, place, item),
        }
    }

    /// The ranks in the order of the elements that read the one at a rank. It takes no memory.
    pub fn reader_ranks(&self, rank: usize) -> &[usize]
        requires { rank < length self.now.order }
        ensures { (r : ℕ) → has result.now r
            ≡ is_reader_rank self.now.nodes self.now.order (slice_index self.now.order rank) r }
    {
        let tables = self.tables.as_ref();
        tables.reader_ranks.at(rank)
    }

    /// The ranks in the order of the elements that follow from the one at a rank as the next in a
    /// seq or by a reference that is not looped. It takes no memory.
    pub fn follower_ranks(&self, rank: usize) -> &[usize]
        requires { rank < length self.now.order }
        ensures { (r : ℕ) → has result.now r
            ≡ is_follower_rank self.now.nodes self.now.order (slice_index self.now.order rank) r }
    {
        let tables = self.tables.as_ref();
        tables.follower_ranks.at(rank)
    }

    /// The elements in an order in which each dependency that is not looped goes forward. It takes
    /// no memory.
    pub fn order(&self) -> &[u32]
        ensures kept { result.now ≡ self.now.order }
        ensures order { IsGraphOrder self.now.nodes result.now }
    {
        let tables = self.tables.as_ref();
        tables.order.slice()
    }

    /// The place of an element in the order, from 0; None exactly for a serial of no element. It
    /// takes no memory.
    pub fn place_in_order(&self, serial: u32) -> Option<usize>
        ensures { result ≡ position (λ s. s == serial) self.now.order }
    {
        let tables = self.tables.as_ref();
        tables.ranks.get(serial)
    }

    /// Appends the reach of an element, in document order; nothing for a serial of no element.
    /// Where memory runs out `out` is as before. It takes time and memory for what is reached and
    /// for those that read it.
    pub fn down(&self, serial: u32, out: &mut Serials) -> Result<(), AllocError>
        ensures ok { OnOk result (out.new
            ≡ out.old ++ model.down_from self.now.nodes (Some serial)) }
        ensures err { OnErr result (out.new ≡ out.old) }
    {
        let tables = self.tables.as_ref();
        match element_place(&self.tree, serial) {
            Some(place) => {
                let reach = reach_at(self.alloc, &self.tree, tables, place)?;
                out.append(reach.slice())
            }
            None => Ok(()),
        }
    }

    /// Appends the reach of an access key, in document order: the elements that have an item for
    /// the key, and with each one those that read it. Where memory runs out `out` is as before. It
    /// takes time and memory for what is reached and for those that read it.
    pub fn down_key(&self, key: u8, out: &mut Serials) -> Result<(), AllocError>
        ensures ok { OnOk result (out.new ≡ out.old ++ model.down_key self.now.nodes key) }
        ensures err { OnErr result (out.new ≡ out.old) }
    {
        let tables = self.tables.as_ref();
        let starts = row_at(tables.waiting.as_slice(), key as usize);
        let reach = reach_from(self.alloc, &self.tree, tables, starts)?;
        out.append(reach.slice())
    }
}

// The reach of the element at a place, in document order.
fn reach_at(
    alloc: Global,
    tree: &Tree,
    tables: &Tables,
    place: usize,
) -> Result<ShortList<u32>, AllocError>
    requires tree { IsNumberedTree tree.now }
    requires tables { AreTables tree.now tables.now }
    requires element { is_element_at tree.now.nodes place ≡ true }
    ensures { IfOk result (λ reach. (x : AnyNode) → slice_get tree.now.nodes place ≡ Some x
        → reach ≡ model.down tree.now.nodes x.serial) }
{
    let times = TimeTree {
        doc: tree,
        parents: tables.time_parents.as_slice(),
        children: tables.time_children.as_slice(),
    };
    let starts = near(alloc, &times, place)?;
    reach_from(alloc, tree, tables, starts.as_slice())
}

// What is reached from the elements at these places, in document order.
fn reach_from(
    alloc: Global,
    tree: &Tree,
    tables: &Tables,
    starts: &[usize],
) -> Result<ShortList<u32>, AllocError>
    requires tree { IsNumberedTree tree.now }
    requires tables { AreTables tree.now tables.now }
    requires elements { AreElements tree.now.nodes starts.now }
    ensures { IfOk result (λ reach. (set : List ℕ) → AreOf tree.now.nodes set starts.now
        → reach ≡ reach_of tree.now.nodes set) }
{
    let mut found = search(alloc, tables.heads.as_slice(), starts)?;
    found.sort_unstable()?;
    serials_at(alloc, tree, found.as_slice())
}

// The place of a serial that is an element's.
fn element_place(tree: &Tree, serial: u32) -> Option<usize>
    ensures { result ≡ element_place tree.now.nodes (place_of tree.now.nodes serial) }
{
    match tree.position(serial) {
        Some(place) if is_element_at(tree, place) => Some(place),
        _ => None,
    }
}

// Whether there is a mark at an item of the row at a place.
fn is_marked(rows: &FlatLists<bool>, place: Option<usize>, item: usize) -> bool
    ensures { result ≡ marked_at rows.now place item }
{
    match place {
        Some(place) => match rows.at(place).get(item) {
            Some(mark) => *mark,
            None => false,
        },
        None => false,
    }
}
