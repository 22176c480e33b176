//! Outlines, as they are written.

ghost use Rattle.std.specs.Prelude.{◌≡◌, ◌≤◌, ◌<◌, ◌++◌, ◌∷◌, [], false, length, take, IfOk, OnOk, OnErr};
ghost use Rattle.std.specs.List.{suffix_len};
ghost use Rattle.smil_model.specs.declared.limits.TheConstants.{DEPTH};
ghost use Rattle.smil_grammar.specs.Allowed.{IsAttrs};
ghost use Rattle.smil_model.specs.document.Words.{Begins, line_feed};
ghost use Rattle.smil_grammar.specs.Outlines.{outline_text, saved_text};
ghost use Rattle.smil_model.specs.document.Valid.{IsValid, open_from};
ghost use Rattle.smil_outline.specs.Open.{upwards, is_other};
ghost use Rattle.smil_outline.specs.Written.{line_text, nodes_text};

use super::branch::Branch;
use smil_attrs::{write_header, write_node, write_node_2};
use smil_lexis::writers::undone;
use smil_model::{Bytes, Doc, Kind, Node};
use std::alloc::AllocError;

// How many nodes at the end of a branch stand below the node with this serial: all, where none
// has it.
fn closed(levels: &[(u32, Kind)], serial: u32) -> usize
    ensures len { result ≡ suffix_len (is_other serial) levels.now }
    ensures within { result ≤ length levels.now }
{
    levels
        .iter()
        .rev()
        .take_while(|level| level.0 != serial)
        .count()
}

// The depth of a node below this parent, which is on the branch, or of the root: the nodes below
// the parent are closed.
#[tactic(auto, using(crate::proofs::OpenBranch::left_open))]
fn depth_below(branch: &Branch, parent: u32) -> usize
    ensures within { result ≤ length branch.now }
    ensures kept { upwards (take result branch.now) ≡ open_from parent (upwards branch.now) }
{
    let levels = branch.levels();
    levels.len() - closed(levels, parent)
}

// Appends the line of a node at this depth, with its serial or without.
fn put_line(node: &Node, depth: usize, saved: bool, out: &mut Bytes) -> Result<(), AllocError>
    requires can_write { IsAttrs false node.now.kind node.now.attrs }
    requires shallow { depth < DEPTH }
    ensures ok { OnOk result (out.new ≡ out.old ++ line_text saved depth node.now) }
    ensures err { OnErr result (out.new ≡ out.old) }
{
    if saved {
        write_node_2(depth as u32, node, out)
    } else {
        write_node(depth as u32, node.kind, &node.attrs, out)
    }
}

/// Appends the line of the next node of an outline, in document order, ended by a line feed. The
/// node goes on the branch below its parent. Where memory is refused, some of the line may stand in
/// `out`.
#[tactic(auto, using(smil_model::proofs::GrowingTexts::begins_on))]
pub fn put_next(
    node: &Node,
    branch: &mut Branch,
    saved: bool,
    out: &mut Bytes,
) -> Result<(), AllocError>
    requires can_write { IsAttrs false node.now.kind node.now.attrs }
    requires shallow { length (open_from node.now.parent (upwards branch.old)) < DEPTH }
    ensures ok { OnOk result (out.new ≡ out.old
        ++ line_text saved (length (open_from node.now.parent (upwards branch.old))) node.now
        ++ line_feed ∷ []) }
    ensures branch { OnOk result (upwards branch.new
        ≡ node.now.serial ∷ open_from node.now.parent (upwards branch.old)) }
    ensures err { OnErr result (Begins out.old out.new) }
{
    let depth = depth_below(branch, node.parent);
    put_line(node, depth, saved, out)?;
    out.append(b"\n")?;
    branch.put(depth, node.serial, node.kind);
    Ok(())
}

// Appends the lines of all nodes.
#[tactic(auto, using(smil_model::proofs::GrowingTexts::begins_on))]
fn put_nodes(doc: &Doc, saved: bool, out: &mut Bytes) -> Result<(), AllocError>
    requires { IsValid doc.now }
    ensures ok { OnOk result (out.new ≡ out.old ++ nodes_text saved doc.now.nodes) }
    ensures err { OnErr result (Begins out.old out.new) }
{
    let mut branch = Branch::new();
    for node in doc.nodes() {
        put_next(node, &mut branch, saved, out)?;
    }
    Ok(())
}

/// Appends the canonical outline of a valid document: a node line (`smil_attrs::write_node`) for
/// each node in document order, each ended by a line feed. After a refusal `out` is as before.
pub fn write_doc(doc: &Doc, out: &mut Bytes) -> Result<(), AllocError>
    requires { IsValid doc.now }
    ensures ok { OnOk result (out.new ≡ out.old ++ outline_text doc.now.nodes) }
    ensures err { OnErr result (out.new ≡ out.old) }
{
    let before = out.len();
    let written = put_nodes(doc, false, out);
    undone(written, out, before)
}

// Appends the header and the lines of all nodes.
#[tactic(auto, using(smil_model::proofs::GrowingTexts::begins_on))]
fn put_saved(doc: &Doc, out: &mut Bytes) -> Result<(), AllocError>
    requires { IsValid doc.now }
    ensures ok { OnOk result (out.new ≡ out.old ++ saved_text doc.now) }
    ensures err { OnErr result (Begins out.old out.new) }
{
    write_header(doc.next(), out)?;
    out.append(b"\n")?;
    put_nodes(doc, true, out)
}

/// Appends the canonical outline of a valid document with its serials and its next serial: a header
/// (`smil_attrs::write_header`) and a node line with its serial (`smil_attrs::write_node_2`) for
/// each node in document order, each ended by a line feed. After a refusal `out` is as before.
pub fn write_doc_2(doc: &Doc, out: &mut Bytes) -> Result<(), AllocError>
    requires { IsValid doc.now }
    ensures ok { OnOk result (out.new ≡ out.old ++ saved_text doc.now) }
    ensures err { OnErr result (out.new ≡ out.old) }
{
    let before = out.len();
    let written = put_saved(doc, out);
    undone(written, out, before)
}
