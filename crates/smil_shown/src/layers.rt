//! What a set sets.

ghost use Rattle.std.specs.Prelude.{◌≡◌, IfOk, IsSome, Option, Some};
ghost use Rattle.smil_model.specs.declared.document.Node.{Node as AnyNode};
ghost use Rattle.smil_model.specs.document.Document.{is_set_kind, node_at, serial_of};
ghost use Rattle.smil_model.specs.document.Edits.{place_in};
ghost use Rattle.smil_model.specs.shown.Sandwich.{begin_shown, contributes, layer_by, layer_of, target_by};

use smil_model::{Bytes, Duplicate, Kind, Layer, Shown, State, View, Who};
use smil_tree::Tree;
use std::alloc::AllocError;

/// The layer of an element by its view: that of a set that is active, paused or frozen, whose begin
/// is shown as a number, and which has an attribute to set, a value and a target; None for all
/// others; unless memory runs out.
pub fn layer(tree: &Tree, view: &View) -> Result<Option<Layer>, AllocError>
    requires { (n : AnyNode) × (node_at tree.now.nodes view.now.serial ≡ Some n) }
    ensures { (n : AnyNode) → node_at tree.now.nodes view.now.serial ≡ Some n
        → IfOk result (λ layer. layer ≡ layer_of tree.now.nodes view.now n) }
{
    let attrs = tree.attrs(view.serial);
    if !is_set(tree.kind(view.serial)) || !contributes(view.state) || attrs.texts.to.is_none() {
        return Ok(None);
    }
    let place = place_of(tree, view.serial);
    let target = target(tree, view.serial, &attrs.texts.target_element)?;
    layer_at(
        place,
        target,
        &attrs.texts.attribute_name,
        begin_of(view.begin),
    )
}

// The layer of a set at a place in document order, where it has a target, an attribute to set and a
// begin.
fn layer_at(
    place: u32,
    target: Option<u32>,
    name: &Option<Bytes>,
    begin: Option<i64>,
) -> Result<Option<Layer>, AllocError>
    ensures { (node : Option AnyNode) → target ≡ serial_of node
        → IfOk result (λ layer. layer ≡ layer_by place node name.now begin) }
{
    let (Some(target), Some(name), Some(begin)) = (target, name, begin) else {
        return Ok(None);
    };
    Ok(Some(Layer {
        target,
        attr: name.copy()?,
        begin,
        position: place,
    }))
}

// The place of a node in document order.
fn place_of(tree: &Tree, serial: u32) -> u32
    requires { IsSome (node_at tree.now.nodes serial) }
    ensures { result ≡ place_in tree.now.nodes serial }
{
    tree.valid();
    tree.position(serial).unwrap() as u32
}

// Whether elements of this kind set an attribute.
fn is_set(kind: Kind) -> bool
    ensures { result ≡ is_set_kind kind }
{
    matches!(kind, Kind::Set)
}

// Whether a set in this state sets its attribute.
fn contributes(state: State) -> bool
    ensures { result ≡ contributes state }
{
    matches!(state, State::Active | State::Paused | State::Frozen)
}

// The serial of the target of a set: the node with the id, or the time parent where it names none.
fn target(tree: &Tree, setter: u32, named: &Option<Bytes>) -> Result<Option<u32>, AllocError>
    requires { (n : AnyNode) × (node_at tree.now.nodes setter ≡ Some n) }
    ensures { IfOk result (λ target. target
        ≡ serial_of (target_by tree.now.nodes setter named.now)) }
{
    match named {
        None => Ok(tree.time_parent(setter)),
        Some(id) => Ok(tree.find(&Who::Id(id.copy()?))),
    }
}

// A begin that is shown as a number, in milliseconds of document time.
fn begin_of(begin: Shown) -> Option<i64>
    ensures { result ≡ begin_shown begin }
{
    match begin {
        Shown::At(begin) => Some(begin),
        _ => None,
    }
}
