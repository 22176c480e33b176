//! Calls of smil_tree.

ghost use Rattle.std.specs.Prelude.{IsSome};
ghost use Rattle.smil_model.specs.document.Document.{node_at};

use super::documents::{document, put_saved};
use super::edits::Editor;
use super::orders::{is_known, lines_of, order_of, outline_and_orders};
use smil_model::{Bytes, Duplicate, Fill, Restart, Who};
use smil_test_cases::{Fault, Words, put_maybe, put_number, put_serials, put_word};
use smil_tree::Tree;
use std::alloc::{AllocError, Global};

/// `tree LINE|LINE|..|%%|ORDER|ORDER|..`: the document of an outline is edited by script lines
/// whose orders are `set`, `unset`, `insert` and `remove`. Each answers `ok`, the serial of the new
/// node, or why it is refused; then comes the document with its serials, and each node.
pub fn tree(alloc: Global, words: &mut Words<'_>, out: &mut Bytes) -> Result<(), Fault> {
    let (outline, orders) = outline_and_orders(words.rest())?;
    let doc = document(alloc, outline)?;
    let mut editor = Editor {
        alloc,
        tree: Tree::of_doc(alloc, doc)?,
    };
    for line in lines_of(alloc, orders)?.slice() {
        if let Some(order) = order_of(alloc, line.slice())? {
            editor.edit(&order, out)?;
        }
    }
    put_tree(alloc, out, &editor.tree.copy()?)
}

// The document of a tree, and its nodes.
fn put_tree(alloc: Global, out: &mut Bytes, tree: &Tree) -> Result<(), Fault> {
    let doc = tree.doc_copy()?;
    put_saved(alloc, out, &doc)?;
    for node in doc.nodes() {
        if is_known(tree, node.serial) {
            put_node(out, tree, node.serial)?;
        }
    }
    Ok(())
}

// A node: its serial, its place, and its index among the elements with the serial there, or `-`;
// its parent, its class and its time parent, or `-`; its span; its children behind `<` and its time
// children behind `>`; behind `:` the node that its id names, or `-`, and of an element its restart
// and its fill. `/` ends it.
fn put_node(out: &mut Bytes, tree: &Tree, serial: u32) -> Result<(), AllocError>
    requires { IsSome (node_at tree.now.nodes serial) }
{
    put_number(out, serial)?;
    put_maybe(out, tree.position(serial))?;
    put_index(out, tree, serial)?;
    put_maybe(out, tree.parent(serial))?;
    put_maybe(out, tree.class_of(serial))?;
    put_maybe(out, tree.time_parent(serial))?;
    let (start, past) = tree.span(serial);
    put_number(out, start)?;
    put_number(out, past)?;
    put_word(out, "<")?;
    put_serials(out, tree.children(serial))?;
    put_word(out, ">")?;
    put_time_children(out, tree, serial)?;
    put_word(out, ":")?;
    put_named(out, tree, serial)?;
    put_defaults(out, tree, serial)?;
    put_word(out, "/")
}

// The index of a node among the elements and the serial of the element there, or `-` where it is
// none.
fn put_index(out: &mut Bytes, tree: &Tree, serial: u32) -> Result<(), AllocError> {
    let index = tree.element_index(serial);
    put_maybe(out, index)?;
    match index {
        Some(index) => put_maybe(out, tree.element_at(index)),
        None => Ok(()),
    }
}

// The time children of a node, the last of them again, and `-` for the one behind it.
fn put_time_children(out: &mut Bytes, tree: &Tree, serial: u32) -> Result<(), AllocError>
    requires { IsSome (node_at tree.now.nodes serial) }
{
    let children = tree.time_children(serial);
    put_serials(out, children)?;
    put_maybe(
        out,
        tree.time_child(serial, children.len().saturating_sub(1)),
    )?;
    put_maybe(out, tree.time_child(serial, children.len()))
}

// The node that the id of a node names, or `-` where it has none.
fn put_named(out: &mut Bytes, tree: &Tree, serial: u32) -> Result<(), AllocError>
    requires { IsSome (node_at tree.now.nodes serial) }
{
    match &tree.attrs(serial).id {
        Some(id) => put_maybe(out, tree.find(&Who::Id(id.copy()?))),
        None => put_word(out, "-"),
    }
}

// The restart and the fill of an element.
fn put_defaults(out: &mut Bytes, tree: &Tree, serial: u32) -> Result<(), AllocError>
    requires { IsSome (node_at tree.now.nodes serial) }
{
    if !tree.kind(serial).is_element() {
        return Ok(());
    }
    put_word(
        out,
        match tree.restart_of(serial) {
            Restart::Always => "always",
            Restart::WhenNotActive => "whenNotActive",
            Restart::Never => "never",
            Restart::ByDefault => "default",
        },
    )?;
    put_word(out, fill_word(tree.fill_of(serial)))
}

// The word of a fill.
fn fill_word(fill: Fill) -> &'static str {
    match fill {
        Fill::Remove => "remove",
        Fill::Freeze => "freeze",
        Fill::Hold => "hold",
        Fill::Auto => "auto",
        Fill::ByDefault => "default",
    }
}
