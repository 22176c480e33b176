//! Edits of a tree by orders.

ghost use Rattle.std.specs.Prelude.{◌≡◌, Some, IfOk, IsSome};
ghost use Rattle.smil_model.specs.declared.document.Node.{Node as AnyNode};
ghost use Rattle.smil_model.specs.document.Document.{node_at};
ghost use Rattle.smil_model.specs.document.Valid.{kind_of};

use super::orders::is_known;
use smil_attrs::{AttrFault, attr_name, read_attr, read_kind, read_node};
use smil_model::{Bytes, Kind, Order, Who};
use smil_test_cases::{Fault, put_node_fault, put_number, put_valued, put_word};
use smil_tree::{Tree, TreeFault};
use std::alloc::Global;

/// A tree that is edited, and where it takes its memory.
#[derive(Drop)]
pub struct Editor {
    pub alloc: Global,
    pub tree: Tree,
}

impl Editor {
    /// Edits the tree by an order, and tells `ok` or why the edit is refused.
    pub fn edit(&mut self, order: &Order, out: &mut Bytes) -> Result<(), Fault> {
        let Some(serial) = self.tree.find(named(order)?) else {
            return Ok(put_word(out, "no-element")?);
        };
        if is_known(&self.tree, serial) {
            self.edit_node(serial, order, out)
        } else {
            Err(Fault::Refused)
        }
    }

    // Edits a node.
    fn edit_node(&mut self, serial: u32, order: &Order, out: &mut Bytes) -> Result<(), Fault>
        requires { IsSome (node_at self.old.tree.nodes serial) }
    {
        match order {
            Order::Set { attr, value, .. } => self.set(serial, attr, value, out),
            Order::Unset { attr, .. } => self.unset(serial, attr, out),
            Order::Insert { place, node, .. } => self.insert(serial, *place as usize, node, out),
            _ => told(out, self.tree.remove(serial)),
        }
    }

    // Gives a node an attribute.
    fn set(
        &mut self,
        serial: u32,
        attr: &Bytes,
        value: &Bytes,
        out: &mut Bytes,
    ) -> Result<(), Fault>
        requires { IsSome (node_at self.old.tree.nodes serial) }
    {
        self.tree.valid();
        let parent = parent_kind(&self.tree, serial)?;
        match read_attr(
            self.alloc,
            self.tree.kind(serial),
            parent,
            attr.slice(),
            value.slice(),
        ) {
            Ok(attr) => told(out, self.tree.set(serial, attr)),
            Err(fault) => attr_fault(out, fault),
        }
    }

    // Takes an attribute of a node away.
    fn unset(&mut self, serial: u32, attr: &Bytes, out: &mut Bytes) -> Result<(), Fault>
        requires { IsSome (node_at self.old.tree.nodes serial) }
    {
        match attr_name(self.tree.kind(serial), attr.slice()) {
            Ok(name) => {
                self.tree.unset(serial, name)?;
                Ok(put_word(out, "ok")?)
            }
            Err(fault) => attr_fault(out, fault),
        }
    }

    // Inserts the node of a line into a node, at a place from 1.
    fn insert(
        &mut self,
        parent: u32,
        place: usize,
        line: &Bytes,
        out: &mut Bytes,
    ) -> Result<(), Fault>
        requires { IsSome (node_at self.old.tree.nodes parent) }
    {
        let line = line.slice();
        let kind = match read_kind(line) {
            Ok(kind) => kind,
            Err(fault) => return put_node_fault(out, fault),
        };
        if let Err(fault) = self.tree.may_insert(parent, place, kind) {
            return told(out, Err(fault));
        }
        match read_node(self.alloc, Some(self.tree.kind(parent)), line) {
            Ok((kind, attrs)) => match self.tree.insert(parent, place, kind, attrs) {
                Ok(serial) => Ok(put_number(out, serial)?),
                Err(fault) => told(out, Err(fault)),
            },
            Err(fault) => put_node_fault(out, fault),
        }
    }
}

// The node that is edited.
fn named(order: &Order) -> Result<&Who, Fault> {
    match order {
        Order::Set { who, .. }
        | Order::Unset { who, .. }
        | Order::Insert { who, .. }
        | Order::Remove { who } => Ok(who),
        _ => Err(Fault::Refused),
    }
}

// The kind of a node's parent, and none for the root.
fn parent_kind(tree: &Tree, serial: u32) -> Result<Option<Kind>, Fault>
    requires { IsSome (node_at tree.now.nodes serial) }
    ensures { IfOk result (λ parent. (n : AnyNode) → node_at tree.now.nodes serial ≡ Some n → parent
        ≡ kind_of (node_at tree.now.nodes n.parent)) }
{
    match tree.parent(serial) {
        Some(parent) if is_known(tree, parent) => Ok(Some(tree.kind(parent))),
        Some(_) => Err(Fault::Refused),
        None => Ok(None),
    }
}

// What an edit of a tree answers.
fn told(out: &mut Bytes, answer: Result<(), TreeFault>) -> Result<(), Fault> {
    let word = match answer {
        Ok(()) => "ok",
        Err(TreeFault::TooDeep) => "too-deep",
        Err(TreeFault::BadPlace) => "bad-place",
        Err(TreeFault::DuplicateId) => "duplicate-id",
        Err(TreeFault::TooManyElements) => "too-many-elements",
        Err(TreeFault::TooManyReferences) => "too-many-references",
        Err(TreeFault::Root) => "root",
        Err(TreeFault::Memory) => return Err(Fault::Memory),
    };
    Ok(put_word(out, word)?)
}

// Why an attribute has no reading, and the place in its value, from 0, where there is one.
fn attr_fault(out: &mut Bytes, fault: AttrFault) -> Result<(), Fault> {
    match fault {
        AttrFault::UnknownAttribute => Ok(put_word(out, "unknown-attribute")?),
        AttrFault::UnsupportedName => Ok(put_word(out, "unsupported")?),
        AttrFault::UnsupportedValue { place } => Ok(put_valued(out, "unsupported", place)?),
        AttrFault::BadValue { place } => Ok(put_valued(out, "bad-value", place)?),
        AttrFault::TooManyItems => Ok(put_word(out, "too-many-items")?),
        AttrFault::Memory => Err(Fault::Memory),
    }
}
