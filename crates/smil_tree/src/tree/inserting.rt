//! A node put into a tree.

ghost use Rattle.std.specs.Prelude.{◌≡◌, ℕ, suc, ◌+◌, ◌*◌, ◌≤◌, List, [], length, true, insert, slice_get, Some, Ok, IfOk, IfErr, OnOk, OnErr, if◌then◌else◌};
ghost use Rattle.std.specs.Map.{lookup};
ghost use Rattle.std.specs.Str.{bytes_eq};
ghost use Rattle.smil_model.specs.declared.limits.TheConstants.{ITEMS as the_items};
ghost use Rattle.smil_model.specs.declared.document.Node.{Node as AnyNode};
ghost use Rattle.smil_model.specs.document.Document.{Document, serial_of, time_parent as time_parent_in};
ghost use Rattle.smil_model.specs.document.Edits.{children};
ghost use Rattle.smil_model.specs.document.Valid.{IsValid, is_id_taken, references, references_among};
ghost use Rattle.smil_laws.specs.Edited.{IsOrdered};
ghost use Rattle.smil_tree.specs.Kin.{IsKinOf};
ghost use Rattle.smil_tree.specs.Places.{cut};
ghost use Rattle.smil_tree.specs.TreeFields.{bears};
ghost use Rattle.smil_tree.specs.Outcomes.{IsFaultOf, and_after, insert_outcome, may_bear, room_outcome};

use super::Tree;
use super::edits::other_has;
use super::family::element_from;
use super::spans::position_of_child;
use crate::fault::TreeFault;
use crate::ids::{Ids, note_node};
use crate::kin::Kin;
use crate::nodes::Nodes;
use smil_model::{Attrs, Duplicate, Kind, NODES, Node, REFERENCES, SERIALS, references_in};
use std::alloc::{AllocError, Global};
use std::rc::Rc;

impl Tree {
    /// Inserts a node without children into a node, at a place among its children that is counted
    /// from 1, with attributes that fit its kind and its parent's kind. The answer is its serial,
    /// which no node had before. Refused as by `may_insert` (`TooDeep`, `BadPlace`), then where
    /// another node has the id (`DuplicateId`), where there would be more than 8,000 nodes or no
    /// serial is left (`TooManyElements`), where more than 32,000 items would refer to an element,
    /// an event or an access key (`TooManyReferences`), and where memory runs out (`Memory`). After
    /// a refusal the tree is as before.
    pub fn insert(
        &mut self,
        parent: u32,
        place: usize,
        kind: Kind,
        attrs: Attrs,
    ) -> Result<u32, TreeFault>
        requires { may_bear self.old.nodes parent kind attrs ≡ true }
        ensures ok { OnOk result (insert_outcome self.old parent place kind attrs ≡ Ok self.new) }
        ensures serial { IfOk result (λ serial. serial ≡ self.old.next) }
        ensures err { IfErr result (IsFaultOf (insert_outcome self.old parent place kind attrs)) }
        ensures unchanged { OnErr result (self.new ≡ self.old) }
    {
        self.may_insert(parent, place, kind)?;
        self.has_room(&attrs)?;
        let serial = self.next;
        let at = position_of_child(&self.nodes, self.kin.as_ref(), parent, place);
        self.put(
            at,
            Node {
                serial,
                kind,
                parent,
                attrs,
            },
        )?;
        Ok(serial)
    }

    // Whether one more node may have these attributes.
    fn has_room(&self, attrs: &Attrs) -> Result<(), TreeFault>
        requires { references_among attrs.now ≤ 2 * the_items }
        ensures { (after : Document) → length after.nodes ≡ suc (length self.now.nodes)
            → references after.nodes ≡ references self.now.nodes + references_among attrs.now
            → and_after result (Ok after) ≡ room_outcome self.now attrs.now after }
    {
        if self.knows_id(attrs) {
            return Err(TreeFault::DuplicateId);
        }
        if NODES <= self.nodes.len() || SERIALS <= self.next {
            return Err(TreeFault::TooManyElements);
        }
        if REFERENCES < self.references + references_in(attrs) {
            return Err(TreeFault::TooManyReferences);
        }
        Ok(())
    }

    // Whether a node has the id of these attributes.
    fn knows_id(&self, attrs: &Attrs) -> bool
        ensures { result ≡ is_id_taken self.now.nodes self.now.next attrs.now.id }
    {
        let next = self.next;
        let ids = self.ids.as_ref();
        match &attrs.id {
            Some(id) => other_has(ids, next, id.slice()),
            None => false,
        }
    }

    // Puts a node in at its place in document order.
    fn put(&mut self, at: usize, node: Node) -> Result<(), AllocError>
        requires within { at ≤ length self.old.nodes }
        requires serial { node.serial ≡ self.old.next }
        requires valid { IsValid (record
            { nodes = insert self.old.nodes at node; next = suc self.old.next }) }
        ensures ok { OnOk result (self.new
            ≡ record { nodes = insert self.old.nodes at node; next = suc self.old.next }) }
        ensures err { OnErr result (self.new ≡ self.old) }
    {
        let references = references_in(&node.attrs);
        let parent = node.parent;
        self.outline.reserve(self.nodes.len() + 1)?;
        let ids = with_node(self.alloc, &self.ids, &node)?;
        self.nodes.insert(at, node)?;
        let time_parent = element_from(&self.nodes, parent);
        let kin = match grown(self.alloc, &self.kin, &self.nodes, time_parent, at) {
            Ok(kin) => kin,
            Err(fault) => {
                self.nodes.remove(at, at + 1);
                return Err(fault);
            }
        };
        self.outline.refresh(&self.nodes, kin.as_ref());
        self.ids = ids;
        self.kin = kin;
        self.references += references;
        self.next += 1;
        Ok(())
    }
}

// The kin with the node at a place among these nodes, which has this time parent and no children.
fn grown(
    alloc: Global,
    kin: &Rc<Kin>,
    nodes: &Nodes,
    time_parent: Option<u32>,
    at: usize,
) -> Result<Rc<Kin>, AllocError>
    requires kin { IsKinOf kin.now.value (cut at (at + 1) nodes.now) }
    requires ordered { IsOrdered nodes.now }
    requires leaf { (n : AnyNode) × (slice_get nodes.now at ≡ Some n)
        × (children (cut at (at + 1) nodes.now) n.serial ≡ [])
        × (time_parent ≡ serial_of (time_parent_in nodes.now n.serial)) }
    ensures { IfOk result (λ grown. IsKinOf grown.value nodes.now) }
{
    let mut grown = kin.as_ref().copy()?;
    grown.grow(nodes, time_parent, at)?;
    Ok(Rc::new(alloc, grown)?)
}

// A table with the id of one more node, if it has one.
fn with_node(alloc: Global, ids: &Rc<Ids>, node: &Node) -> Result<Rc<Ids>, AllocError>
    ensures { IfOk result (λ table. (q : List ℕ) → lookup (bytes_eq q) table.value
        ≡ (if bears q node.now then Some node.now.serial
        else lookup (bytes_eq q) ids.now.value)) }
{
    let mut table = ids.as_ref().copy()?;
    note_node(&mut table, node)?;
    Ok(Rc::new(alloc, table)?)
}
