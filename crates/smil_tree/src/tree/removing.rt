//! A node taken out of a tree with its descendants.

ghost use Rattle.std.specs.Prelude.{◌≡◌, ℕ, ◌+◌, ◌≤◌, List, length, false, Ok, IsSome, OnOk, OnErr, IfOk, IfErr, count_by};
ghost use Rattle.smil_model.specs.declared.limits.TheConstants.{REFERENCES as the_references};
ghost use Rattle.smil_model.specs.document.Document.{node_at};
ghost use Rattle.smil_model.specs.document.Edits.{node_removed};
ghost use Rattle.smil_model.specs.document.Valid.{references};
ghost use Rattle.smil_tree.specs.Places.{cut};
ghost use Rattle.smil_tree.specs.TreeFields.{bears, IsTableOf};
ghost use Rattle.smil_tree.specs.Outcomes.{IsFaultOf, is_root, remove_outcome};

use super::Tree;
use super::family::element_from;
use super::spans::end_of;
use crate::fault::TreeFault;
use crate::ids::{Ids, forget_node};
use crate::nodes::Nodes;
use smil_model::{Duplicate, references_in};
use std::alloc::{AllocError, Global};
use std::rc::Rc;

impl Tree {
    /// Removes a node with its descendants; their ids may be given again, their serials are not.
    /// Refused where the node has no parent (`Root`), and where memory runs out (`Memory`). After a
    /// refusal the tree is as before.
    pub fn remove(&mut self, serial: u32) -> Result<(), TreeFault>
        requires { IsSome (node_at self.old.nodes serial) }
        ensures ok { OnOk result (remove_outcome self.old serial ≡ Ok self.new) }
        ensures err { IfErr result (IsFaultOf (remove_outcome self.old serial)) }
        ensures unchanged { OnErr result (self.new ≡ self.old) }
    {
        if self.nodes.get(serial).unwrap().parent == 0 {
            return Err(TreeFault::Root);
        }
        self.cut_out(serial)?;
        Ok(())
    }

    // Takes a node that has a parent out with its descendants.
    fn cut_out(&mut self, serial: u32) -> Result<(), AllocError>
        requires known { IsSome (node_at self.old.nodes serial) }
        requires parented { is_root (node_at self.old.nodes serial) ≡ false }
        ensures ok { OnOk result (self.new ≡ node_removed self.old serial) }
        ensures err { OnErr result (self.new ≡ self.old) }
    {
        let start = self.nodes.position(serial).unwrap();
        let end = end_of(&self.nodes, self.kin.as_ref(), serial);
        let time_parent = element_from(&self.nodes, self.nodes.get(serial).unwrap().parent);
        let ids = without_nodes(self.alloc, &self.ids, &self.nodes, start, end)?;
        let mut rest = self.kin.as_ref().copy()?;
        rest.shrink(&self.nodes, time_parent, start, end);
        let kin = Rc::new(self.alloc, rest)?;
        self.references -= references_between(&self.nodes, start, end);
        self.nodes.remove(start, end);
        self.outline.refresh(&self.nodes, kin.as_ref());
        self.ids = ids;
        self.kin = kin;
        Ok(())
    }
}

// A table without the ids of the nodes from a position on up to another.
fn without_nodes(
    alloc: Global,
    ids: &Rc<Ids>,
    nodes: &Nodes,
    start: usize,
    end: usize,
) -> Result<Rc<Ids>, AllocError>
    requires in_order { start ≤ end }
    requires within { end ≤ length nodes.now }
    requires once { (q : List ℕ) → count_by (bears q) nodes.now ≤ 1 }
    requires table { IsTableOf ids.now.value nodes.now }
    ensures { IfOk result (λ table. IsTableOf table.value (cut start end nodes.now)) }
{
    let mut table = ids.as_ref().copy()?;
    forget_nodes(&mut table, nodes, start, end);
    Ok(Rc::new(alloc, table)?)
}

// The table without the ids of the nodes from a position on up to another.
fn forget_nodes(ids: &mut Ids, nodes: &Nodes, start: usize, end: usize)
    requires in_order { start ≤ end }
    requires within { end ≤ length nodes.now }
    requires once { (q : List ℕ) → count_by (bears q) nodes.now ≤ 1 }
    requires table { IsTableOf ids.old nodes.now }
    ensures { IsTableOf ids.new (cut start end nodes.now) }
{
    for node in nodes.between(start, end) {
        forget_node(ids, node);
    }
}

// How many items of the nodes from a position on up to another refer to an element, an event or an
// access key.
fn references_between(nodes: &Nodes, start: usize, end: usize) -> usize
    requires in_order { start ≤ end }
    requires within { end ≤ length nodes.now }
    requires few { references nodes.now ≤ the_references }
    ensures { result + references (cut start end nodes.now) ≡ references nodes.now }
{
    let mut count = 0;
    for node in nodes.between(start, end) {
        count += references_in(&node.attrs);
    }
    count
}
