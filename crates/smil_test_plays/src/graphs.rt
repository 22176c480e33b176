//! Calls of smil_graph.

ghost use Rattle.smil_model.specs.document.Valid.{IsValid};

use super::documents::document;
use smil_graph::Graph;
use smil_model::{Bytes, Doc, Duplicate, Edge, Items, Node, Serials};
use smil_test_cases::{Fault, Words, put, put_number, put_serials, put_word};
use smil_tree::Tree;
use std::alloc::{AllocError, Global};

/// `graph LINE|LINE|..`: of each node of an outline its serial, and of an element the elements that
/// read it behind `<`, those that it reaches behind `>`, and behind `:` a `1` for each item of its
/// begin and end lists that is looped, and a `0` for each other. `/` ends a node.
pub fn graph(alloc: Global, words: &mut Words<'_>, out: &mut Bytes) -> Result<(), Fault> {
    put_graph(alloc, out, &document(alloc, words.rest())?)
}

// The graph of a document, node by node.
fn put_graph(alloc: Global, out: &mut Bytes, doc: &Doc) -> Result<(), Fault>
    requires { IsValid doc.now }
{
    let graph = Graph::of(alloc, Tree::of_doc(alloc, doc.copy()?)?)?.copy()?;
    for node in doc.nodes() {
        put_node(alloc, out, &graph, node)?;
    }
    Ok(())
}

// The serial of a node, and of an element what the graph says of it.
fn put_node(alloc: Global, out: &mut Bytes, graph: &Graph, node: &Node) -> Result<(), AllocError> {
    put_number(out, node.serial)?;
    if node.kind.is_element() {
        put_word(out, "<")?;
        put_readers(alloc, out, graph, node.serial)?;
        let mut reach = Serials::new(alloc);
        graph.down(node.serial, &mut reach)?;
        put_word(out, ">")?;
        put_serials(out, reach.slice())?;
        put_loops(out, graph, node)?;
    }
    put_word(out, "/")
}

// The elements that read an element.
fn put_readers(
    alloc: Global,
    out: &mut Bytes,
    graph: &Graph,
    serial: u32,
) -> Result<(), AllocError> {
    let mut readers = Serials::new(alloc);
    if let Some(rank) = graph.place_in_order(serial) {
        for reader in graph.reader_ranks(rank) {
            if let Some(serial) = graph.order().get(*reader) {
                readers.push(*serial)?;
            }
        }
    }
    put_serials(out, readers.slice())
}

// Which items of an element's begin and end lists are looped.
fn put_loops(out: &mut Bytes, graph: &Graph, node: &Node) -> Result<(), AllocError> {
    put_word(out, ":")?;
    put_looped(out, graph, node, Edge::Begin)?;
    put_looped(out, graph, node, Edge::End)
}

// `1` for each item of one of the lists of an element that is looped, and `0` for each other.
fn put_looped(out: &mut Bytes, graph: &Graph, node: &Node, side: Edge) -> Result<(), AllocError> {
    if let Some(items) = list_of(node, side) {
        for item in 0..items.len() {
            put(
                out,
                if graph.looped(node.serial, side, item) {
                    "1"
                } else {
                    "0"
                },
            )?;
        }
    }
    Ok(())
}

// The list of one side of an element, where it has the attribute.
fn list_of(node: &Node, side: Edge) -> &Option<Items> {
    match side {
        Edge::Begin => &node.attrs.begin,
        Edge::End => &node.attrs.end,
    }
}
