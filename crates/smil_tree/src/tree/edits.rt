//! Edits of a tree.

ghost use Rattle.std.specs.Prelude.{◌≡◌, ℕ, List, true, None, Some, Ok, IsSome, IfOk, OnOk, OnErr, IfErr, if◌then◌else◌};
ghost use Rattle.std.specs.Str.{bytes_eq};
ghost use Rattle.std.specs.Map.{lookup};
ghost use Rattle.smil_model.specs.document.Document.{node_at, has_id};
ghost use Rattle.smil_model.specs.document.Edits.{attr_set, attr_unset};
ghost use Rattle.smil_model.specs.document.Valid.{is_id_taken, references};
ghost use Rattle.smil_model.specs.shown.Orders.{id_in};
ghost use Rattle.smil_tree.specs.TreeFields.{bears, is_other};
ghost use Rattle.smil_tree.specs.Outcomes.{IsFaultOf, may_take, set_outcome};

use super::Tree;
use crate::fault::TreeFault;
use crate::ids::{Ids, forget_node};
use crate::outline::{reads, reads_name};
use crate::references::{references_with, references_without};
use smil_model::{Attr, AttrName, Bytes, Duplicate, Node, REFERENCES, references_in};
use std::alloc::{AllocError, Global};
use std::rc::Rc;

impl Tree {
    /// Gives a node an attribute, which fits its kind and its parent's kind. Refused where another
    /// node has the id (`DuplicateId`), then where more than 32,000 items would refer to an
    /// element, an event or an access key (`TooManyReferences`), and where memory runs out
    /// (`Memory`). After a refusal the tree is as before.
    pub fn set(&mut self, serial: u32, attr: Attr) -> Result<(), TreeFault>
        requires { may_take self.old.nodes serial attr ≡ true }
        ensures ok { OnOk result (set_outcome self.old serial attr ≡ Ok self.new) }
        ensures err { IfErr result (IsFaultOf (set_outcome self.old serial attr)) }
        ensures unchanged { OnErr result (self.new ≡ self.old) }
    {
        if self.takes_id(serial, &attr) {
            return Err(TreeFault::DuplicateId);
        }
        let references = self.references_set(serial, &attr);
        if REFERENCES < references {
            return Err(TreeFault::TooManyReferences);
        }
        let differs = reads(&attr);
        let node = self.nodes.with_attr(serial, attr)?;
        let old = self.nodes.get(serial).unwrap();
        let ids = renamed(self.alloc, &self.ids, old, node.node())?;
        self.nodes.replace(serial, node);
        self.outline.follow(&self.nodes, self.kin.as_ref(), differs);
        self.ids = ids;
        self.references = references;
        Ok(())
    }

    /// Takes an attribute of a node away; nothing changes where it is absent. Where memory runs
    /// out the tree is as before.
    pub fn unset(&mut self, serial: u32, name: AttrName) -> Result<(), AllocError>
        requires { IsSome (node_at self.old.nodes serial) }
        ensures ok { OnOk result (self.new ≡ attr_unset self.old serial name) }
        ensures err { OnErr result (self.new ≡ self.old) }
    {
        let references = self.references_unset(serial, name);
        let differs = reads_name(name);
        let node = self.nodes.without_attr(serial, name)?;
        let old = self.nodes.get(serial).unwrap();
        let ids = renamed(self.alloc, &self.ids, old, node.node())?;
        self.nodes.replace(serial, node);
        self.outline.follow(&self.nodes, self.kin.as_ref(), differs);
        self.ids = ids;
        self.references = references;
        Ok(())
    }

    // Whether another node has the id that an attribute gives.
    fn takes_id(&self, serial: u32, attr: &Attr) -> bool
        ensures { result ≡ is_id_taken self.now.nodes serial (id_in attr.now) }
    {
        let ids = self.ids.as_ref();
        match attr {
            Attr::Id(id) => other_has(ids, serial, id.slice()),
            _ => false,
        }
    }

    // How many items refer to something once a node has an attribute.
    fn references_set(&self, serial: u32, attr: &Attr) -> usize
        requires { may_take self.now.nodes serial attr.now ≡ true }
        ensures { result ≡ references (attr_set self.now serial attr.now).nodes }
    {
        let attrs = &self.nodes.get(serial).unwrap().attrs;
        self.references - references_in(attrs) + references_with(attrs, attr)
    }

    // How many items refer to something once an attribute of a node is absent.
    fn references_unset(&self, serial: u32, name: AttrName) -> usize
        requires { IsSome (node_at self.now.nodes serial) }
        ensures { result ≡ references (attr_unset self.now serial name).nodes }
    {
        let attrs = &self.nodes.get(serial).unwrap().attrs;
        self.references - references_in(attrs) + references_without(attrs, name)
    }
}

/// Whether an id leads to another serial.
pub fn other_has(ids: &Ids, serial: u32, id: &[u8]) -> bool
    ensures { result ≡ is_other serial (lookup (bytes_eq id.now) ids.now) }
{
    match ids.get(id) {
        Some(other) => other != serial,
        None => false,
    }
}

// The table once another node stands in the place of a node, with its serial: the table itself
// where the two have the same id, and else a new one.
fn renamed(alloc: Global, ids: &Rc<Ids>, old: &Node, new: &Node) -> Result<Rc<Ids>, AllocError>
    requires { (q : List ℕ) → bears q old.now ≡ true
        → lookup (bytes_eq q) ids.now.value ≡ Some old.now.serial }
    ensures { IfOk result (λ table. (q : List ℕ) → lookup (bytes_eq q) table.value
        ≡ (if bears q new.now then Some old.now.serial else
        (if bears q old.now then None else lookup (bytes_eq q) ids.now.value))) }
{
    if have_same_id(old, new) {
        return Ok(ids.clone()?);
    }
    let mut table = ids.as_ref().copy()?;
    rename(&mut table, old, new)?;
    Ok(Rc::new(alloc, table)?)
}

// Whether two nodes have the same id, or none.
fn have_same_id(old: &Node, new: &Node) -> bool
    ensures { result ≡ true → old.now.attrs.id ≡ new.now.attrs.id }
{
    match (&old.attrs.id, &new.attrs.id) {
        (None, None) => true,
        (Some(one), Some(other)) => one.slice() == other.slice(),
        _ => false,
    }
}

// The table once another node stands in the place of a node, with its serial.
fn rename(ids: &mut Ids, old: &Node, new: &Node) -> Result<(), AllocError>
    ensures ok { OnOk result ((q : List ℕ)
        → lookup (bytes_eq q) ids.new ≡ (if bears q new.now then Some old.now.serial else
        (if bears q old.now then None else lookup (bytes_eq q) ids.old))) }
    ensures err { OnErr result (ids.new ≡ ids.old) }
{
    match &new.attrs.id {
        Some(id) => exchange(ids, &old.attrs.id, id.slice(), old.serial),
        None => {
            forget_node(ids, old);
            Ok(())
        }
    }
}

// The table with another id for a serial.
fn exchange(ids: &mut Ids, old: &Option<Bytes>, new: &[u8], serial: u32) -> Result<(), AllocError>
    ensures ok { OnOk result ((q : List ℕ)
        → lookup (bytes_eq q) ids.new ≡ (if bytes_eq new.now q then Some serial else
        (if has_id q old.now then None else lookup (bytes_eq q) ids.old))) }
    ensures err { OnErr result (ids.new ≡ ids.old) }
{
    ids.note(new, serial)?;
    forget_other(ids, old, new);
    Ok(())
}

// The table without an id, unless it is this one.
fn forget_other(ids: &mut Ids, old: &Option<Bytes>, new: &[u8])
    ensures { (q : List ℕ) → lookup (bytes_eq q) ids.new
        ≡ (if bytes_eq new.now q then lookup (bytes_eq q) ids.old else
        (if has_id q old.now then None else lookup (bytes_eq q) ids.old)) }
{
    match old {
        Some(old) if old.slice() != new => ids.forget(old.slice()),
        _ => {}
    }
}
