//! What all sets set.

ghost use Rattle.std.specs.Prelude.{◌≡◌, ℕ, ◌==◌, List, IfOk, IsSome, OnOk, if◌then◌else◌, slice_get};
ghost use Rattle.smil_model.specs.declared.view.Layer.{Layer as AnyLayer};
ghost use Rattle.smil_model.specs.document.Document.{node_at};
ghost use Rattle.smil_model.specs.shown.Sandwich.{layer_in, layers, names_on, put_name, stack_of};
ghost use Rattle.smil_model.specs.ListTables.{list_of};
ghost use Rattle.smil_sandwich.specs.Stacks.{AreApart};
ghost use Rattle.smil_shown.specs.Sets.{AreOfElements, AreSetsOf, and_layer};

use super::layers::layer;
use super::names::put_name;
use smil_model::{Bytes, View};
use smil_sandwich::Sandwich;
use smil_tree::Tree;
use std::alloc::{AllocError, Global};
use std::collections::HashMap;
use std::marker::Model;

/// The layers of all sets, and of each target the names of the attributes that are set, in the
/// order of their bytes; seen as both.
#[derive(Drop)]
pub struct Sets {
    sandwich: Sandwich,
    names: HashMap<u32, Vec<Bytes>>,
    alloc: Global,
}

impl Model for Sets {
    ghost use Rattle.smil_model.specs.ListTables.{rows};
    ghost use Rattle.smil_shown.specs.Sets.{LayerTable};

    ghost Value = { LayerTable };

    ghost view = { λ s. record { layers = s.sandwich; names = rows s.names.entries } };
}

impl Sets {
    /// The sets of a document by the views of its elements, unless memory runs out.
    pub fn of(alloc: Global, tree: &Tree, views: &[View]) -> Result<Sets, AllocError>
        requires { AreOfElements tree.now.nodes views.now }
        ensures { IfOk result (λ sets. AreSetsOf sets (layers tree.now.nodes views.now)) }
    {
        tree.valid();
        let mut sets = Sets {
            sandwich: Sandwich::new(alloc),
            names: HashMap::new(alloc),
            alloc,
        };
        for view in views {
            sets.take_in(tree, view)?;
        }
        Ok(sets)
    }

    // Takes in the layer of an element, where it has one. The element is another one than those
    // taken in before, and stands at another place.
    fn take_in(&mut self, tree: &Tree, view: &View) -> Result<(), AllocError>
        requires { IsSome (node_at tree.now.nodes view.now.serial) }
        ensures { (before : List (ℕ × AnyLayer)) → AreSetsOf self.old before
            → AreApart (and_layer before (layer_in tree.now.nodes view.now))
            → OnOk result (AreSetsOf self.new
            (and_layer before (layer_in tree.now.nodes view.now))) }
    {
        let Some(layer) = layer(tree, view)? else {
            return Ok(());
        };
        note(&mut self.names, self.alloc, layer.target, &layer.attr)?;
        self.sandwich.apply(view.serial, Some(layer))
    }

    /// The names of the attributes of a target that are set, in the order of their bytes, each
    /// once. It takes no memory.
    pub fn names(&self, target: u32) -> &[Bytes]
        ensures { (all : List (ℕ × AnyLayer)) → AreSetsOf self.now all
            → result.now ≡ names_on all target }
    {
        match self.names.get(&target) {
            Some(names) => names,
            None => &[],
        }
    }

    /// The serial of the set at a place, from 0 at the top, in the stack of an attribute of a
    /// target; None past its end. It takes no memory.
    pub fn at(&self, target: u32, attr: &[u8], k: usize) -> Option<u32>
        ensures { (all : List (ℕ × AnyLayer)) → AreSetsOf self.now all → result
            ≡ slice_get (stack_of all target attr.now) k }
    {
        self.sandwich.at(target, attr, k)
    }
}

// Notes the name of an attribute of a target.
fn note(
    table: &mut HashMap<u32, Vec<Bytes>>,
    alloc: Global,
    target: u32,
    name: &Bytes,
) -> Result<(), AllocError>
    ensures { OnOk result ((t : ℕ) → list_of table.new.entries t
        ≡ (if target == t then put_name (list_of table.old.entries t) name.now else list_of
        table.old.entries t)) }
{
    if let Some(names) = table.get_mut(&target) {
        return put_name(names, name);
    }
    let mut names = Vec::new(alloc);
    put_name(&mut names, name)?;
    table.insert(target, names)?;
    Ok(())
}
