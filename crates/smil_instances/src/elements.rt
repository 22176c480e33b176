//! Where the elements of a document stand, and which time child is before each.

ghost use Rattle.std.specs.Prelude.{◌≡◌, ℕ, if◌then◌else◌, Some, option_and_then, IfOk, OnOk, nat_eq, map};
ghost use Rattle.std.specs.FinMap.{get};
ghost use Rattle.std.specs.HashMap.{get as last_of};
ghost use Rattle.smil_model.specs.declared.document.Node.{Node as AnyNode};
ghost use Rattle.smil_model.specs.document.Document.{elements, previous_child, time_parent, serials, serial_of};
ghost use Rattle.smil_model.specs.reach.Reach.{is_option};
ghost use Rattle.smil_instances.specs.Spread.{IsIndex};

use smil_model::{SerialTable, first_places};
use smil_tree::Tree;
use std::alloc::{AllocError, Global};
use std::collections::HashMap;

/// The places of the elements in the list, by their serials.
pub fn places_of(alloc: Global, tree: &Tree, whos: &[u32]) -> Result<SerialTable, AllocError>
    requires { whos.now ≡ serials (elements tree.now.nodes) }
    ensures { IfOk result (λ places. IsIndex whos.now (get places)) }
{
    tree.valid();
    first_places(alloc, whos)
}

/// For each element the time child before it in its time parent, if there is one.
pub fn children_before(
    alloc: Global,
    tree: &Tree,
    whos: &[u32],
) -> Result<Vec<Option<u32>>, AllocError>
    requires { whos.now ≡ serials (elements tree.now.nodes) }
    ensures { IfOk result (λ befores. befores.items
        ≡ map (λ (n : AnyNode). serial_of
        (previous_child tree.now.nodes (time_parent tree.now.nodes n.serial) n.serial))
        (elements tree.now.nodes)) }
{
    tree.valid();
    let mut last = HashMap::new(alloc);
    let mut befores = Vec::with_capacity(alloc, whos.len())?;
    for who in whos {
        let parent = tree.time_parent(*who);
        let before = put_last(&mut last, parent, *who)?;
        befores.push(before)?;
    }
    Ok(befores)
}

// Puts a time child in the place of the last one of its parent, if it has one; the answer is the
// one that was there.
fn put_last(
    last: &mut HashMap<u32, u32>,
    parent: Option<u32>,
    who: u32,
) -> Result<Option<u32>, AllocError>
    ensures before { IfOk result (λ before. before ≡ option_and_then (last_of nat_eq last.old) parent) }
    ensures last { OnOk result ((p : ℕ)
        → last_of nat_eq last.new p
        ≡ (if is_option p parent then Some who else last_of nat_eq last.old p)) }
{
    match parent {
        Some(parent) => Ok(last.insert(parent, who)?),
        None => Ok(None),
    }
}
