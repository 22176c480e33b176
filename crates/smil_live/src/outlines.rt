//! Outlines of the document of a presentation.

ghost use Rattle.std.specs.Prelude.{◌≡◌, ◌++◌, false, true, OnOk, OnErr};
ghost use Rattle.smil_model.specs.document.Valid.{IsValid};
ghost use Rattle.smil_model.specs.document.Words.{Begins};
ghost use Rattle.smil_grammar.specs.Outlines.{outline_text, saved_text};
ghost use Rattle.smil_outline.specs.Written.{nodes_text};

use smil_attrs::write_header;
use smil_model::Bytes;
use smil_outline::{Branch, put_next};
use smil_tree::Tree;
use std::alloc::AllocError;

/// Appends the canonical outline of a document: a line for each node in document order. Where
/// memory is refused, some of the lines stand in `out`.
pub fn put_outline(tree: &Tree, out: &mut Bytes) -> Result<(), AllocError>
    requires { IsValid tree.now }
    ensures ok { OnOk result (out.new ≡ out.old ++ outline_text tree.now.nodes) }
    ensures err { OnErr result (Begins out.old out.new) }
{
    put_nodes(tree, false, out)
}

/// Appends the canonical outline of a document with its serials: a header with the next serial, and
/// a line with its serial for each node in document order. Where memory is refused, some of the
/// lines stand in `out`.
#[tactic(auto, using(smil_model::proofs::GrowingTexts::begins_on))]
pub fn put_saved_outline(tree: &Tree, out: &mut Bytes) -> Result<(), AllocError>
    requires { IsValid tree.now }
    ensures ok { OnOk result (out.new ≡ out.old ++ saved_text tree.now) }
    ensures err { OnErr result (Begins out.old out.new) }
{
    write_header(tree.next(), out)?;
    out.append(b"\n")?;
    put_nodes(tree, true, out)
}

// Appends the lines of all nodes, with their serials or without.
fn put_nodes(tree: &Tree, saved: bool, out: &mut Bytes) -> Result<(), AllocError>
    requires { IsValid tree.now }
    ensures ok { OnOk result (out.new ≡ out.old ++ nodes_text saved tree.now.nodes) }
    ensures err { OnErr result (Begins out.old out.new) }
{
    let mut branch = Branch::new();
    for node in tree.nodes() {
        put_next(node, &mut branch, saved, out)?;
    }
    Ok(())
}
