//! What a graph keeps of its document.

ghost use Rattle.std.specs.Prelude.{◌≡◌, ℕ, List, length, slice_get, bytes_eq, ◌||◌, IfOk, OnOk};
ghost use Rattle.std.specs.FinMap.{get};
ghost use Rattle.std.specs.HashMap.{get_by};
ghost use Rattle.smil_model.specs.document.Document.{element_named};
ghost use Rattle.smil_model.specs.document.Valid.{IsNumberedTree};
ghost use Rattle.smil_graph.specs.Links.{AreRows};
ghost use Rattle.smil_model.specs.document.Closure.{has};
ghost use Rattle.smil_graph.specs.Places.{IsIndex, feeds_place};
ghost use Rattle.smil_graph.specs.Tables.{AreLinks, AreRanked, AreRanks, AreTables, AreTimePlaces, IsRanking, is_rank_at, rank_of, serials_of_places};

use super::feeders::{feeders, heads};
use super::followers::followers;
use super::levels::levels;
use super::looped::{Loops, looped_marks};
use super::ordered::ordered;
use super::outline::{TimeTree, parents, previous_in_seqs, time_children, time_parents};
use super::places::id_places;
use super::row::{push_one, row_of};
use super::short_list::ShortList;
use super::waiting::waiting;
use smil_flat_lists::FlatLists;
use smil_model::{Edge, SerialTable, first_places};
use smil_tree::Tree;
use std::alloc::{AllocError, Global};
use std::collections::HashMap;

/// What a graph keeps of its document, by places in document order.
pub struct Tables {
    pub time_parents: Vec<Option<usize>>,
    pub time_children: Vec<ShortList<usize>>,
    pub begins: FlatLists<bool>,
    pub ends: FlatLists<bool>,
    pub heads: Vec<ShortList<usize>>,
    pub reader_ranks: FlatLists<usize>,
    pub follower_ranks: FlatLists<usize>,
    pub waiting: Vec<ShortList<usize>>,
    pub order: ShortList<u32>,
    pub ranks: SerialTable,
}

impl Drop for Tables {
    // Dropped by a call of its own, not field by field in each function that drops one.
    fn drop(self) {
        let Tables {
            time_parents: _time_parents,
            time_children: _time_children,
            begins: _begins,
            ends: _ends,
            heads: _heads,
            reader_ranks: _reader_ranks,
            follower_ranks: _follower_ranks,
            waiting: _waiting,
            order: _order,
            ranks: _ranks,
        } = self;
    }
}

// Where the elements of a document stand in time: for each node the place of its time parent, the
// places of its time children, and the place of the child before it in a seq.
#[derive(Drop)]
struct TimePlaces {
    parents: Vec<Option<usize>>,
    children: Vec<ShortList<usize>>,
    previous: Vec<Option<usize>>,
}

// What leads from element to element: a level for each node, and for each the places of those that
// read it and of those that follow from it.
#[derive(Drop)]
struct Links {
    levels: Vec<usize>,
    heads: Vec<ShortList<usize>>,
    followers: Vec<ShortList<usize>>,
}

// An order of the elements with the rank of each, and for each rank the ranks of those that read
// that element and of those that follow from it.
#[derive(Drop)]
struct Ranking {
    order: ShortList<u32>,
    ranks: SerialTable,
    readers: FlatLists<usize>,
    followers: FlatLists<usize>,
}

/// What the graph of a document keeps.
pub fn tables_of(alloc: Global, tree: &Tree) -> Result<Tables, AllocError>
    requires { IsNumberedTree tree.now }
    ensures { IfOk result (λ t. AreTables tree.now t) }
{
    let times = time_places(alloc, tree)?;
    let ids = id_places(alloc, tree)?;
    let links = links_of(alloc, tree, &times, &ids)?;
    let loops = Loops {
        ids: &ids,
        levels: links.levels.as_slice(),
    };
    let begins = looped_marks(alloc, tree, &loops, Edge::Begin)?;
    let ends = looped_marks(alloc, tree, &loops, Edge::End)?;
    let waiting = waiting(alloc, tree)?;
    let ranking = ranking_of(alloc, tree, &times, &links)?;
    let TimePlaces {
        parents: time_parents,
        children: time_children,
        previous: _previous,
    } = times;
    let Links {
        levels: _levels,
        heads,
        followers: _followers,
    } = links;
    let Ranking {
        order,
        ranks,
        readers: reader_ranks,
        followers: follower_ranks,
    } = ranking;
    Ok(Tables {
        time_parents,
        time_children,
        begins,
        ends,
        heads,
        reader_ranks,
        follower_ranks,
        waiting,
        order,
        ranks,
    })
}

// Where the elements of a document stand in time.
fn time_places(alloc: Global, tree: &Tree) -> Result<TimePlaces, AllocError>
    requires { IsNumberedTree tree.now }
    ensures { IfOk result (λ times. AreTimePlaces tree.now.nodes times) }
{
    let above = parents(alloc, tree)?;
    let parents = time_parents(alloc, tree, above.as_slice())?;
    let children = time_children(alloc, tree, parents.as_slice())?;
    let times = TimeTree {
        doc: tree,
        parents: parents.as_slice(),
        children: children.as_slice(),
    };
    let previous = previous_in_seqs(alloc, &times)?;
    Ok(TimePlaces {
        parents,
        children,
        previous,
    })
}

// What leads from element to element.
fn links_of(
    alloc: Global,
    tree: &Tree,
    times: &TimePlaces,
    ids: &HashMap<&[u8], usize>,
) -> Result<Links, AllocError>
    requires tree { IsNumberedTree tree.now }
    requires times { AreTimePlaces tree.now.nodes times.now }
    requires ids { IsIndex tree.now.nodes (element_named tree.now.nodes)
        (λ id. get_by (λ k. bytes_eq id k.now) ids.now) }
    ensures { IfOk result (λ links. AreLinks tree.now.nodes links) }
{
    let feeders = feeders_of(alloc, tree, times, ids)?;
    let levels = levels(alloc, &feeders)?;
    let heads = heads(alloc, tree, &feeders, ids)?;
    let loops = Loops {
        ids,
        levels: levels.as_slice(),
    };
    let followers = followers(alloc, tree, times.previous.as_slice(), &loops)?;
    Ok(Links {
        levels,
        heads,
        followers,
    })
}

// For each element the places of those from which its times follow.
fn feeders_of(
    alloc: Global,
    tree: &Tree,
    times: &TimePlaces,
    ids: &HashMap<&[u8], usize>,
) -> Result<FlatLists<usize>, AllocError>
    requires tree { IsNumberedTree tree.now }
    requires times { AreTimePlaces tree.now.nodes times.now }
    requires ids { IsIndex tree.now.nodes (element_named tree.now.nodes)
        (λ id. get_by (λ k. bytes_eq id k.now) ids.now) }
    ensures { IfOk result (λ rows. AreRows (length tree.now.nodes) (feeds_place tree.now.nodes)
        rows) }
{
    let tree = TimeTree {
        doc: tree,
        parents: times.parents.as_slice(),
        children: times.children.as_slice(),
    };
    feeders(alloc, &tree, times.previous.as_slice(), ids)
}

// An order of the elements with ranks.
fn ranking_of(
    alloc: Global,
    tree: &Tree,
    times: &TimePlaces,
    links: &Links,
) -> Result<Ranking, AllocError>
    requires tree { IsNumberedTree tree.now }
    requires times { AreTimePlaces tree.now.nodes times.now }
    requires links { AreLinks tree.now.nodes links.now }
    ensures { IfOk result (λ ranking. IsRanking tree.now.nodes ranking) }
{
    let order = ordered(
        alloc,
        tree,
        links.levels.as_slice(),
        times.parents.as_slice(),
    )?;
    let ranks = first_places(alloc, order.slice())?;
    let readers = ranked(alloc, tree, links.heads.as_slice(), order.slice(), &ranks)?;
    let followers = ranked(
        alloc,
        tree,
        links.followers.as_slice(),
        order.slice(),
        &ranks,
    )?;
    Ok(Ranking {
        order,
        ranks,
        readers,
        followers,
    })
}

// For each element of an order the ranks of the nodes in the row of its place.
fn ranked(
    alloc: Global,
    tree: &Tree,
    rows: &[ShortList<usize>],
    order: &[u32],
    ranks: &SerialTable,
) -> Result<FlatLists<usize>, AllocError>
    requires { AreRanks order.now (get ranks.now) }
    ensures { IfOk result (λ lists. AreRanked tree.now.nodes order.now rows.now
        (length order.now) lists) }
{
    let mut lists = FlatLists::with_capacity(alloc, order.len())?;
    let mut row = ShortList::new(alloc);
    for serial in order {
        row.clear();
        push_ranks(&mut row, tree, row_of(rows, tree.position(*serial)), ranks)?;
        lists.push(row.slice())?;
    }
    Ok(lists)
}

// Appends the ranks of the nodes at these places, by a table of the ranks.
fn push_ranks(
    row: &mut ShortList<usize>,
    tree: &Tree,
    places: &[usize],
    ranks: &SerialTable,
) -> Result<(), AllocError>
    ensures { OnOk result ((order : List ℕ) → AreRanks order (get ranks.now)
        → (r : ℕ) → has row.new r
        ≡ (has row.old r || is_rank_at tree.now.nodes order places.now r)) }
{
    for place in places {
        push_one(row, rank_at(tree, *place, ranks))?;
    }
    Ok(())
}

// The rank of the node at a place, by a table of the ranks.
fn rank_at(tree: &Tree, place: usize, ranks: &SerialTable) -> Option<usize>
    ensures { (order : List ℕ) → AreRanks order (get ranks.now)
        → result ≡ rank_of order (slice_get tree.now.nodes place) }
{
    let node = tree.at(place)?;
    ranks.get(node.serial)
}

/// The serials of the nodes at these places.
pub fn serials_at(
    alloc: Global,
    tree: &Tree,
    places: &[usize],
) -> Result<ShortList<u32>, AllocError>
    ensures { IfOk result (λ serials. serials ≡ serials_of_places tree.now.nodes places.now) }
{
    let mut serials = ShortList::new(alloc);
    for place in places {
        if let Some(node) = tree.at(*place) {
            serials.push(node.serial)?;
        }
    }
    Ok(serials)
}
