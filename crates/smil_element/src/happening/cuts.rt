//! The cuts that come before an end or a repeat.

ghost use Rattle.std.specs.Prelude.{◌≡◌, ◌∷◌, ◌++◌, [], false, IsSome, OnOk};
ghost use Rattle.smil_model.specs.document.Document.{descendants, node_at};
ghost use Rattle.smil_element.specs.Parts.{Appends, cut_of, cuts_below};

use super::parts::Parts;
use smil_model::{Entry, Step};
use smil_tree::Tree;
use std::alloc::AllocError;

/// Appends the cuts of the active descendants of a node, later ones first, and then a step of its
/// own. Refused where memory runs out.
#[inline(always)]
pub fn stop(
    parts: &Parts<'_>,
    who: u32,
    step: Step,
    entries: &mut Vec<Entry>,
) -> Result<(), AllocError>
    requires { IsSome (node_at parts.now.tree.now.nodes who) }
    ensures { OnOk result (Appends parts.now entries.old entries.new
        (cuts_below parts.now who ++ step ∷ [])) }
{
    cut_below(parts, who, entries)?;
    put(parts, step, entries)
}

/// Appends a step at the moment of the parts. Refused where memory runs out.
pub fn put(parts: &Parts<'_>, step: Step, entries: &mut Vec<Entry>) -> Result<(), AllocError>
    ensures { OnOk result (Appends parts.now entries.old entries.new (step ∷ [])) }
{
    let moment = parts.moment;
    entries.push(Entry { moment, step })?;
    Ok(())
}

// Appends the cuts of the active descendants of a node, later ones first.
#[inline(always)]
fn cut_below(parts: &Parts<'_>, who: u32, entries: &mut Vec<Entry>) -> Result<(), AllocError>
    requires { IsSome (node_at parts.now.tree.now.nodes who) }
    ensures { OnOk result (Appends parts.now entries.old entries.new (cuts_below parts.now who)) }
{
    if has_below(parts.tree, who) {
        cut_descendants(parts, who, entries)
    } else {
        Ok(())
    }
}

// Whether a node has descendants.
fn has_below(tree: &Tree, who: u32) -> bool
    requires { IsSome (node_at tree.now.nodes who) }
    ensures { result ≡ false → descendants tree.now.nodes who ≡ [] }
{
    tree.below(who).next().is_some()
}

// Appends the cuts of the active ones among the descendants of a node, later ones first.
#[inline(never)]
fn cut_descendants(parts: &Parts<'_>, who: u32, entries: &mut Vec<Entry>) -> Result<(), AllocError>
    requires { IsSome (node_at parts.now.tree.now.nodes who) }
    ensures { OnOk result (Appends parts.now entries.old entries.new (cuts_below parts.now who)) }
{
    for node in parts.tree.below(who).rev() {
        cut(parts, node.serial, entries)?;
    }
    Ok(())
}

// Appends the cut of a node, where it is active.
fn cut(parts: &Parts<'_>, who: u32, entries: &mut Vec<Entry>) -> Result<(), AllocError>
    ensures { OnOk result (Appends parts.now entries.old entries.new
        (cut_of parts.now.book.now who)) }
{
    if parts.book.active(who) {
        put(parts, Step::Cut { who }, entries)
    } else {
        Ok(())
    }
}
