//! Orders that tell something and change nothing.

ghost use Rattle.std.specs.Prelude.{◌≡◌, ℕ, List, ◌++◌, drop, flat_map, length, true, Some, Ok, OnOk, OnErr, IfErr, IsSome};
ghost use Rattle.smil_model.specs.declared.document.Node.{Node as AnyNode};
ghost use Rattle.smil_model.specs.declared.order.Order.TheVariants as order;
ghost use Rattle.smil_model.specs.declared.order.Who.{Who as AnyWho};
ghost use Rattle.smil_model.specs.declared.view.Layer.{Layer as AnyLayer};
ghost use Rattle.smil_model.specs.document.Document.{node_at};
ghost use Rattle.smil_model.specs.shown.Answers.{Accepts, IsGiven, Refuses, answer_text, history_text, stack_text, top_text, value_of as model_value_of, values_on};
ghost use Rattle.smil_model.specs.shown.Lines.{entry_line};
ghost use Rattle.smil_model.specs.shown.Orders.{node_of, outcome};
ghost use Rattle.smil_model.specs.shown.Sandwich.{stack_of};
ghost use Rattle.smil_grammar.specs.Formats.{formats};
ghost use Rattle.smil_model.specs.document.Words.{Begins};
ghost use Rattle.smil_shown.specs.Sets.{AreSetsAmong, AreSetsOf};
ghost use Rattle.smil_report.specs.Tellings.{is_telling};
ghost use Rattle.smil_live.specs.Telling.{element_named, is_plain_telling, layers_text, setter_text};

use super::outlines::{put_outline, put_saved_outline};
use super::presentation::PresentationOver;
use smil_cells::Table;
use smil_diary::Book;
use smil_model::{Bytes, Log, Order, Refusal, Who};
use smil_report::{SetValue, put_entry, put_layer, put_now, put_outline_end, put_value};
use smil_shown::{Scene, Sets, Subject, name_of, put_intervals, put_views};
use smil_tree::Tree;
use std::alloc::AllocError;

/// A document with what all its sets set.
#[derive(Clone, Copy)]
struct LayeredDocument<'a> {
    tree: &'a Tree,
    sets: &'a Sets,
}

impl<T: Table> PresentationOver<T> {
    /// Tells what an order asks for. After a refusal `out` is as before.
    #[inline(never)]
    pub fn tell(&self, order: &Order, out: &mut Bytes) -> Result<(), Refusal>
        requires given { IsGiven order.now }
        requires telling { is_telling order.now ≡ true }
        ensures ok { OnOk result (Accepts formats self.now self.now order.now
            (drop (length out.old) out.new)) }
        ensures appended { OnOk result (out.new ≡ out.old ++ drop (length out.old) out.new) }
        ensures refused { IfErr result (Refuses formats self.now order.now) }
        ensures text { OnErr result (out.new ≡ out.old) }
    {
        let len = out.len();
        let told = self.put_told(order, out);
        if told.is_err() {
            out.cut_back(len);
        }
        told
    }

    // Appends what an order asks for.
    fn put_told(&self, order: &Order, out: &mut Bytes) -> Result<(), Refusal>
        requires telling { is_telling order.now ≡ true }
        ensures state { OnOk result (outcome formats self.now order.now ≡ Ok self.now) }
        ensures told { OnOk result (out.new ≡ out.old
            ++ answer_text formats self.now self.now order.now) }
        ensures refused { IfErr result (Refuses formats self.now order.now) }
        ensures begins { Begins out.old out.new }
    {
        match order {
            Order::History { who } => self.put_history_of(who, out),
            Order::Stack { who, attr } => self.put_stack(who, attr, out),
            _ => Ok(self.put_plain(order, out)?),
        }
    }

    // Appends what an order asks for that names no node.
    fn put_plain(&self, order: &Order, out: &mut Bytes) -> Result<(), AllocError>
        requires { is_plain_telling order.now ≡ true }
        ensures told { OnOk result (out.new ≡ out.old
            ++ answer_text formats self.now self.now order.now) }
        ensures begins { Begins out.old out.new }
    {
        match order {
            Order::Show => self.put_shown(out),
            Order::Text => self.put_text(out),
            Order::Save => self.put_saved(out),
            Order::Values => self.put_values(out),
            Order::Diary => self.put_diary(out),
            _ => unreachable!(),
        }
    }

    // Appends the views of all elements.
    fn put_shown(&self, out: &mut Bytes) -> Result<(), AllocError>
        ensures told { OnOk result (out.new ≡ out.old
            ++ answer_text formats self.now self.now order.Show) }
        ensures begins { Begins out.old out.new }
    {
        let scene = Scene {
            tree: self.tree(),
            moment: self.viewer.cells.moment(),
        };
        put_views(scene, &self.viewer.seen, out)
    }

    // Appends the outline of the document.
    fn put_text(&self, out: &mut Bytes) -> Result<(), AllocError>
        ensures told { OnOk result (out.new ≡ out.old
            ++ answer_text formats self.now self.now order.Text) }
        ensures begins { Begins out.old out.new }
    {
        put_outline(self.tree(), out)
    }

    // Appends the outline of the document with its serials.
    fn put_saved(&self, out: &mut Bytes) -> Result<(), AllocError>
        ensures told { OnOk result (out.new ≡ out.old
            ++ answer_text formats self.now self.now order.Save) }
        ensures begins { Begins out.old out.new }
    {
        put_saved_outline(self.tree(), out)
    }

    // Appends the intervals of an element. `NoElement` where there is no such node, `BadPlace`
    // where it is a priorityClass.
    fn put_history_of(&self, who: &Who, out: &mut Bytes) -> Result<(), Refusal>
        ensures state { OnOk result
            (outcome formats self.now (order.History who.now) ≡ Ok self.now) }
        ensures told { OnOk result (out.new ≡ out.old
            ++ history_text self.now (node_of self.now.document.nodes who.now)) }
        ensures refused { IfErr result (Refuses formats self.now (order.History who.now)) }
        ensures begins { Begins out.old out.new }
    {
        let serial = self.element(who)?;
        Ok(self.put_history_at(serial, out)?)
    }

    // Appends the intervals of an element.
    fn put_history_at(&self, serial: u32, out: &mut Bytes) -> Result<(), AllocError>
        requires { (who : AnyWho) × (n : AnyNode) × (element_named self.now who ≡ Ok n)
            × (serial ≡ n.serial) }
        ensures told { (who : AnyWho) (n : AnyNode) → element_named self.now who ≡ Ok n → serial
            ≡ n.serial → OnOk result (out.new ≡ out.old ++ history_text self.now (Some n)) }
        ensures begins { Begins out.old out.new }
    {
        let subject = Subject {
            serial,
            name: name_of(self.tree(), serial),
        };
        put_intervals(self.alloc, &self.viewer.cells, subject, out)
    }

    // Appends each attribute that is set, targets in document order.
    fn put_values(&self, out: &mut Bytes) -> Result<(), AllocError>
        ensures told { OnOk result (out.new ≡ out.old
            ++ answer_text formats self.now self.now order.Values) }
        ensures begins { Begins out.old out.new }
    {
        let tree = self.tree();
        let sets = Sets::of(self.alloc, tree, self.viewer.seen.views())?;
        put_all_values(LayeredDocument { tree, sets: &sets }, out)
    }

    // Appends the sets of an attribute of a node, from the top of their stack down. `NoElement`
    // where there is no such node.
    fn put_stack(&self, who: &Who, attr: &Bytes, out: &mut Bytes) -> Result<(), Refusal>
        ensures state { OnOk result (outcome formats self.now (order.Stack who.now attr.now)
            ≡ Ok self.now) }
        ensures told { OnOk result (out.new ≡ out.old
            ++ stack_text self.now attr.now (node_of self.now.document.nodes who.now)) }
        ensures refused { IfErr result (Refuses formats self.now (order.Stack who.now attr.now)) }
        ensures begins { Begins out.old out.new }
    {
        let target = self.node(who)?;
        Ok(self.put_stack_at(target, attr, out)?)
    }

    // Appends the sets of an attribute of a node, from the top of their stack down.
    fn put_stack_at(&self, target: u32, attr: &Bytes, out: &mut Bytes) -> Result<(), AllocError>
        ensures told { (n : AnyNode) → n.serial ≡ target
            → OnOk result (out.new ≡ out.old ++ stack_text self.now attr.now (Some n)) }
        ensures begins { Begins out.old out.new }
    {
        let tree = self.tree();
        let sets = Sets::of(self.alloc, tree, self.viewer.seen.views())?;
        put_layers(LayeredDocument { tree, sets: &sets }, target, attr, out)
    }

    // Appends the document with its serials, the diary entry by entry, and the moment.
    fn put_diary(&self, out: &mut Bytes) -> Result<(), AllocError>
        ensures told { OnOk result (out.new ≡ out.old
            ++ answer_text formats self.now self.now order.Diary) }
        ensures begins { Begins out.old out.new }
    {
        self.put_saved(out)?;
        put_outline_end(out)?;
        put_entries(self.viewer.cells.log(), self.viewer.cells.book(), out)?;
        put_now(out, self.viewer.cells.moment())
    }
}

// Appends the entries of a diary.
fn put_entries(log: &Log, book: &Book, out: &mut Bytes) -> Result<(), AllocError>
    ensures ok { OnOk result (out.new ≡ out.old ++ flat_map (entry_line log.now) book.now) }
    ensures begins { Begins out.old out.new }
{
    for entry in book.entries() {
        put_entry(out, log, *entry)?;
    }
    Ok(())
}

// Appends each attribute that is set, targets in document order.
fn put_all_values(document: LayeredDocument<'_>, out: &mut Bytes) -> Result<(), AllocError>
    requires setters { (all : List (ℕ × AnyLayer))
        × AreSetsAmong document.tree.now.nodes document.sets.now all }
    ensures told { (all : List (ℕ × AnyLayer)) → AreSetsOf document.entry.sets.now all
        → OnOk result (out.new ≡ out.old ++ flat_map (values_on document.entry.tree.now.nodes all)
        document.entry.tree.now.nodes) }
    ensures begins { Begins out.old out.new }
{
    document.tree.valid();
    for node in document.tree.nodes() {
        put_values_on(document, node.serial, out)?;
    }
    Ok(())
}

// Appends each attribute of a target that is set, by the top of its stack, in the order of the
// names' bytes.
fn put_values_on(
    document: LayeredDocument<'_>,
    target: u32,
    out: &mut Bytes,
) -> Result<(), AllocError>
    requires target { IsSome (node_at document.tree.now.nodes target) }
    requires setters { (all : List (ℕ × AnyLayer))
        × AreSetsAmong document.tree.now.nodes document.sets.now all }
    ensures told { (n : AnyNode) (all : List (ℕ × AnyLayer)) → n.serial ≡ target
        → AreSetsOf document.entry.sets.now all
        → OnOk result (out.new ≡ out.old ++ values_on document.entry.tree.now.nodes all n) }
    ensures begins { Begins out.old out.new }
{
    for name in document.sets.names(target) {
        put_top(document, target, name, out)?;
    }
    Ok(())
}

// Appends an attribute of a target, with the value of the set on top of its stack.
fn put_top(
    document: LayeredDocument<'_>,
    target: u32,
    name: &Bytes,
    out: &mut Bytes,
) -> Result<(), AllocError>
    requires target { IsSome (node_at document.tree.now.nodes target) }
    requires setters { (all : List (ℕ × AnyLayer))
        × AreSetsAmong document.tree.now.nodes document.sets.now all }
    ensures told { (all : List (ℕ × AnyLayer)) → AreSetsOf document.entry.sets.now all
        → OnOk result (out.new ≡ out.old ++ top_text document.entry.tree.now.nodes target name.now
        (stack_of all target name.now)) }
    ensures err { OnErr result (out.new ≡ out.old) }
{
    let Some(setter) = document.sets.at(target, name.slice(), 0) else {
        return Ok(());
    };
    let tree = document.tree;
    let value = value_of(tree, setter);
    put_value(
        out,
        &SetValue {
            target: name_of(tree, target),
            attr: name.slice(),
            value,
            setter: name_of(tree, setter),
        },
    )
}

// Appends the sets of an attribute of a target, from the top of their stack down.
fn put_layers(
    document: LayeredDocument<'_>,
    target: u32,
    attr: &Bytes,
    out: &mut Bytes,
) -> Result<(), AllocError>
    requires setters { (all : List (ℕ × AnyLayer))
        × AreSetsAmong document.tree.now.nodes document.sets.now all }
    ensures told { (all : List (ℕ × AnyLayer)) → AreSetsOf document.entry.sets.now all
        → OnOk result (out.new ≡ out.old ++ layers_text document.entry.tree.now.nodes
        (stack_of all target attr.now)) }
    ensures begins { Begins out.old out.new }
{
    document.tree.valid();
    let mut k = 0;
    while let Some(setter) = document.sets.at(target, attr.slice(), k) {
        put_setter(document.tree, setter, out)?;
        k += 1;
    }
    Ok(())
}

// Appends a set of a stack, with the value that it sets.
fn put_setter(tree: &Tree, setter: u32, out: &mut Bytes) -> Result<(), AllocError>
    requires { IsSome (node_at tree.now.nodes setter) }
    ensures ok { OnOk result (out.new ≡ out.old ++ setter_text tree.now.nodes setter) }
    ensures err { OnErr result (out.new ≡ out.old) }
{
    put_layer(out, name_of(tree, setter), value_of(tree, setter))
}

// The value that a set sets; an empty one where it has none.
fn value_of(tree: &Tree, setter: u32) -> &[u8]
    requires { IsSome (node_at tree.now.nodes setter) }
    ensures { result.now ≡ model_value_of tree.now.nodes setter }
{
    match &tree.attrs(setter).texts.to {
        Some(value) => value.slice(),
        None => b"",
    }
}
