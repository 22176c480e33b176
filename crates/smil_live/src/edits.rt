//! Orders that edit the document.

ghost use Rattle.std.specs.Prelude.{◌≡◌, ◌≤◌, ◌-◌, ◌++◌, ◌↔◌, IsTrue, drop, length, true, Ok, Option, OnOk, OnErr, IfOk, IfErr};
ghost use Rattle.smil_model.specs.declared.document.Node.{Node as AnyNode};
ghost use Rattle.smil_model.specs.declared.order.Order.TheVariants as order;
ghost use Rattle.smil_model.specs.document.Document.{serial_of, time_parent};
ghost use Rattle.smil_model.specs.shown.Answers.{IsGiven, IsRefusedBy, Refuses};
ghost use Rattle.smil_model.specs.shown.Orders.{IsState, changes_between, node_of};
ghost use Rattle.smil_grammar.specs.Formats.{formats};
ghost use Rattle.smil_graph.specs.Graph.{document_of};
ghost use Rattle.smil_graph.specs.Reduced.{all_reduced};
ghost use Rattle.smil_report.specs.Tellings.{Begins, Tells, gone_told};
ghost use Rattle.smil_cells.specs.CellsState.{WhereTold};
ghost use Rattle.smil_live.specs.Counted.{KeepsToCounts};
ghost use Rattle.smil_live.specs.Counts.{agreed_under, least_editing, least_loading, serial_or_0};
ghost use Rattle.smil_live.specs.Editing.{IsEdited, edit_of};
ghost use Rattle.smil_shown.specs.ShownViews.{IsPlaying};
ghost use Rattle.smil_live.specs.Moves.{IsReplayed, IsTooFull, edited_to, told_of};
ghost use Rattle.smil_revision.specs.References.{keeps_references};
ghost use Rattle.smil_text_laws.specs.PlainTexts.{DifferInTexts};
ghost use Rattle.smil_live.specs.Texts.{AgreeButForTexts};
ghost use Rattle.smil_live.specs.Sites.{IsMade, most_resolving, site_nodes, site_serial, staying};

use super::presentation::PresentationOver;
use super::replay::{cells_with, diary_through};
use super::viewer::Viewer;
use smil_cells::{Cells, Table};
use smil_diary::Book;
use smil_graph::{Graph, Revised};
use smil_instances::parent_of;
use smil_interval::Steps;
use smil_model::{GrowingList, Refusal, Who};
use smil_report::ChangeItem;
use smil_revision::{
    Child, LineText, Revision, Setting, agree_but_for_texts, are_alike_at, keeps_references,
    with_child, with_value, without_name, without_node,
};
use smil_shown::{Scene, ViewTable, put_all_gone, put_differences};
use smil_tree::Tree;
use std::alloc::{AllocError, Global};
use std::mem::swap;
use std::sync::ledger::Ledger;

/// Where an edit takes place: at a node that the document had, by its serial, or at a new one.
#[derive(Clone, Copy)]
pub(crate) enum Site {
    Old(u32),
    New,
}

/// An edited copy of a document, with the place of the edit.
#[derive(Drop)]
pub(crate) struct EditedCopy {
    pub tree: Tree,
    pub site: Site,
}

impl<T: Table> PresentationOver<T> {
    /// Gives an attribute of a node a value. The refusals are those of the node, of name and value,
    /// of the edit, and that of a diary without room.
    pub fn set<I: ChangeItem, L: Ledger>(
        &mut self,
        who: &Who,
        setting: Setting<'_>,
        out: &mut GrowingList<I>,
        steps: &mut Steps<L>,
    ) -> Result<(), Refusal>
        requires { IsGiven (order.Set who.now setting.attr.text.now setting.value.text.now
            setting.attr.column setting.value.column) }
        ensures ok { OnOk result (Tells I.telling formats self.old self.new
            (order.Set who.now setting.entry.attr.text.now setting.entry.value.text.now
            setting.entry.attr.column setting.entry.value.column) (drop (length out.old) out.new)) }
        ensures appended { OnOk result (out.new ≡ out.old ++ drop (length out.old) out.new) }
        ensures refused { IfErr result (Refuses formats self.old
            (order.Set who.now setting.entry.attr.text.now setting.entry.value.text.now
            setting.entry.attr.column setting.entry.value.column)) }
        ensures kept { OnErr result (self.new ≡ self.old) }
        ensures text { OnErr result (out.new ≡ out.old) }
        ensures counted { steps.old ≤ steps.new }
        ensures bounded { KeepsToCounts T.counts self.old
            (order.Set who.now setting.entry.attr.text.now setting.entry.value.text.now
            setting.entry.attr.column setting.entry.value.column) result (steps.new - steps.old) }
    {
        self.settled();
        let edited = self.set_copy(who, setting)?;
        self.take_edited(edited, out, steps)
    }

    /// Takes an attribute of a node away. The refusals are those of the node, of the name, and that
    /// of a diary without room.
    pub fn unset<I: ChangeItem, L: Ledger>(
        &mut self,
        who: &Who,
        attr: LineText<'_>,
        out: &mut GrowingList<I>,
        steps: &mut Steps<L>,
    ) -> Result<(), Refusal>
        requires { IsGiven (order.Unset who.now attr.text.now attr.column) }
        ensures ok { OnOk result (Tells I.telling formats self.old self.new
            (order.Unset who.now attr.entry.text.now attr.entry.column)
            (drop (length out.old) out.new)) }
        ensures appended { OnOk result (out.new ≡ out.old ++ drop (length out.old) out.new) }
        ensures refused { IfErr result (Refuses formats self.old
            (order.Unset who.now attr.entry.text.now attr.entry.column)) }
        ensures kept { OnErr result (self.new ≡ self.old) }
        ensures text { OnErr result (out.new ≡ out.old) }
        ensures counted { steps.old ≤ steps.new }
        ensures bounded { KeepsToCounts T.counts self.old
            (order.Unset who.now attr.entry.text.now attr.entry.column) result
            (steps.new - steps.old) }
    {
        self.settled();
        let edited = self.unset_copy(who, attr)?;
        self.take_edited(edited, out, steps)
    }

    /// Inserts a node into another at a place. The refusals are those of the parent, of the line's
    /// kind, of the place, of the line's attributes, of the edit, and that of a diary without room.
    pub fn insert<I: ChangeItem, L: Ledger>(
        &mut self,
        who: &Who,
        child: Child<'_>,
        out: &mut GrowingList<I>,
        steps: &mut Steps<L>,
    ) -> Result<(), Refusal>
        requires { IsGiven
            (order.Insert who.now child.place child.line.text.now child.line.column) }
        ensures ok { OnOk result (Tells I.telling formats self.old self.new
            (order.Insert who.now child.entry.place child.entry.line.text.now
            child.entry.line.column) (drop (length out.old) out.new)) }
        ensures appended { OnOk result (out.new ≡ out.old ++ drop (length out.old) out.new) }
        ensures refused { IfErr result (Refuses formats self.old
            (order.Insert who.now child.entry.place child.entry.line.text.now
            child.entry.line.column)) }
        ensures kept { OnErr result (self.new ≡ self.old) }
        ensures text { OnErr result (out.new ≡ out.old) }
        ensures counted { steps.old ≤ steps.new }
        ensures bounded { KeepsToCounts T.counts self.old (order.Insert who.now child.entry.place
            child.entry.line.text.now child.entry.line.column) result (steps.new - steps.old) }
    {
        self.settled();
        let edited = self.insert_copy(who, child)?;
        self.take_edited(edited, out, steps)
    }

    /// Removes a node with all below it. The refusals are those of the node, `Root`, and that of a
    /// diary without room.
    pub fn remove<I: ChangeItem, L: Ledger>(
        &mut self,
        who: &Who,
        out: &mut GrowingList<I>,
        steps: &mut Steps<L>,
    ) -> Result<(), Refusal>
        requires { IsGiven (order.Remove who.now) }
        ensures ok { OnOk result (Tells I.telling formats self.old self.new (order.Remove who.now)
            (drop (length out.old) out.new)) }
        ensures appended { OnOk result (out.new ≡ out.old ++ drop (length out.old) out.new) }
        ensures refused { IfErr result (Refuses formats self.old (order.Remove who.now)) }
        ensures kept { OnErr result (self.new ≡ self.old) }
        ensures text { OnErr result (out.new ≡ out.old) }
        ensures counted { steps.old ≤ steps.new }
        ensures bounded { KeepsToCounts T.counts self.old (order.Remove who.now) result
            (steps.new - steps.old) }
    {
        self.settled();
        let edited = self.remove_copy(who)?;
        self.take_edited(edited, out, steps)
    }

    // The document with an attribute of a node set.
    fn set_copy(&self, who: &Who, setting: Setting<'_>) -> Result<EditedCopy, Refusal>
        requires { IsGiven (order.Set who.now setting.attr.text.now setting.value.text.now
            setting.attr.column setting.value.column) }
        ensures ok { IfOk result (λ edited. edit_of self.now
            (order.Set who.now setting.entry.attr.text.now setting.entry.value.text.now
            setting.entry.attr.column setting.entry.value.column) ≡ Ok edited.tree) }
        ensures site { IfOk result (λ edited. edited.site
            ≡ Site.Old (serial_or_0 (node_of self.now.document.nodes who.now))) }
        ensures err { IfErr result (IsRefusedBy (edit_of self.now
            (order.Set who.now setting.entry.attr.text.now setting.entry.value.text.now
            setting.entry.attr.column setting.entry.value.column))) }
    {
        let tree = self.tree();
        let serial = self.node(who)?;
        let copy = with_value(self.alloc, tree, serial, setting)?;
        Ok(EditedCopy {
            tree: copy,
            site: Site::Old(serial),
        })
    }

    // The document with an attribute of a node absent.
    fn unset_copy(&self, who: &Who, attr: LineText<'_>) -> Result<EditedCopy, Refusal>
        requires { IsGiven (order.Unset who.now attr.text.now attr.column) }
        ensures ok { IfOk result (λ edited. edit_of self.now
            (order.Unset who.now attr.entry.text.now attr.entry.column) ≡ Ok edited.tree) }
        ensures site { IfOk result (λ edited. edited.site
            ≡ Site.Old (serial_or_0 (node_of self.now.document.nodes who.now))) }
        ensures err { IfErr result (IsRefusedBy
            (edit_of self.now (order.Unset who.now attr.entry.text.now attr.entry.column))) }
    {
        let tree = self.tree();
        let serial = self.node(who)?;
        let copy = without_name(tree, serial, attr)?;
        Ok(EditedCopy {
            tree: copy,
            site: Site::Old(serial),
        })
    }

    // The document with one more node.
    fn insert_copy(&self, who: &Who, child: Child<'_>) -> Result<EditedCopy, Refusal>
        requires { IsGiven
            (order.Insert who.now child.place child.line.text.now child.line.column) }
        ensures ok { IfOk result (λ edited. edit_of self.now
            (order.Insert who.now child.entry.place child.entry.line.text.now
            child.entry.line.column) ≡ Ok edited.tree) }
        ensures site { IfOk result (λ edited. edited.site ≡ Site.New) }
        ensures err { IfErr result (IsRefusedBy (edit_of self.now
            (order.Insert who.now child.entry.place child.entry.line.text.now
            child.entry.line.column))) }
    {
        let tree = self.tree();
        let parent = self.node(who)?;
        let copy = with_child(self.alloc, tree, parent, child)?;
        Ok(EditedCopy {
            tree: copy,
            site: Site::New,
        })
    }

    // The document without a node and all below it.
    fn remove_copy(&self, who: &Who) -> Result<EditedCopy, Refusal>
        ensures ok { IfOk result
            (λ edited. edit_of self.now (order.Remove who.now) ≡ Ok edited.tree) }
        ensures site { IfOk result (λ edited. edited.site
            ≡ Site.Old (serial_or_0 (node_of self.now.document.nodes who.now))) }
        ensures err { IfErr result (IsRefusedBy (edit_of self.now (order.Remove who.now))) }
    {
        let tree = self.tree();
        let serial = self.node(who)?;
        let copy = without_node(tree, serial)?;
        Ok(EditedCopy {
            tree: copy,
            site: Site::Old(serial),
        })
    }

    // Goes on with an edited document: where its plain texts alone are others, all else stays; or
    // it is resolved with the same log from the part of the diary that stays, and what is gone and
    // what has changed is told.
    fn take_edited<I: ChangeItem, L: Ledger>(
        &mut self,
        edited: EditedCopy,
        out: &mut GrowingList<I>,
        steps: &mut Steps<L>,
    ) -> Result<(), Refusal>
        requires { IsMade self.old.document edited.site edited.tree }
        ensures ok { OnOk result
            (IsEdited I.telling self.old edited.tree self.new out.old out.new) }
        ensures refused { IfErr result (IsTooFull (edited_to self.old edited.tree)) }
        ensures kept { OnErr result (self.new ≡ self.old) }
        ensures text { OnErr result (out.new ≡ out.old) }
        ensures counted { steps.old ≤ steps.new }
        ensures most { OnOk result (WhereTold T.counts
            (steps.new - steps.old ≤ most_resolving self.old edited.site edited.tree)) }
        ensures free { AgreeButForTexts self.old.document edited.tree edited.site
            → OnOk result (WhereTold T.counts (steps.new - steps.old ≤ 0)) }
        ensures least { OnOk result (WhereTold T.counts
            (least_editing self.old (edited_to self.old edited.tree) ≤ steps.new - steps.old)) }
    {
        let EditedCopy { tree, site } = edited;
        if self.changes_texts_alone(&tree, site) {
            self.settled();
            tree.valid();
            self.edited = Some(tree);
            return Ok(());
        }
        let mut cells = self.edited_cells(tree, site, steps)?;
        self.viewer.take_over(self.alloc, &mut cells, out)?;
        self.edited = None;
        Ok(())
    }

    // Whether an edit changes plain texts alone, on which no time depends, or nothing.
    fn changes_texts_alone(&self, edited: &Tree, site: Site) -> bool
        requires { IsMade self.now.document site edited.now }
        ensures alone { IsTrue result ↔ AgreeButForTexts self.now.document edited.now site }
        ensures differ { result ≡ true → DifferInTexts self.now.document.nodes edited.now.nodes }
        ensures next { result ≡ true → edited.now.next ≡ self.now.document.next }
    {
        match site {
            Site::Old(serial) => agree_but_for_texts(self.tree(), edited, serial),
            Site::New => false,
        }
    }

    // The cells of an edited document, resolved with the same log from the part of the diary that
    // stays.
    fn edited_cells<L: Ledger>(
        &self,
        edited: Tree,
        site: Site,
        steps: &mut Steps<L>,
    ) -> Result<Cells<T>, Refusal>
        requires { IsMade self.now.document site edited }
        ensures state { OnOk result (IsState (edited_to self.now edited)) }
        ensures ok { IfOk result (IsReplayed (edited_to self.now edited)) }
        ensures refused { IfErr result (IsTooFull (edited_to self.now edited)) }
        ensures counted { steps.old ≤ steps.new }
        ensures most { OnOk result (WhereTold T.counts
            (steps.new - steps.old ≤ most_resolving self.now site edited)) }
        ensures least { OnOk result (WhereTold T.counts
            (least_loading (edited_to self.now edited) ≤ steps.new - steps.old)) }
    {
        edited.valid();
        let cells = &self.viewer.cells;
        let revised = self.revised(edited, site)?;
        let len = self.staying(&revised, site)?;
        cells_with(cells, revised, len, steps)
    }

    // The graph of an edited document, unless memory runs out: where a graph reads the same of the
    // document, what the graph of the one before has is shared.
    fn revised(&self, edited: Tree, site: Site) -> Result<Revised, AllocError>
        requires { IsMade self.now.document site edited }
        ensures document { IfOk result (λ revised. document_of revised.graph ≡ edited) }
        ensures alike { IfOk result (λ revised. revised.alike ≡ true
            → all_reduced self.now.document.nodes ≡ all_reduced revised.graph.nodes) }
    {
        if self.is_alike(&edited, site) {
            let graph = self.viewer.cells.past().graph().shared(edited)?;
            return Ok(Revised { graph, alike: true });
        }
        let graph = Graph::of(self.alloc, edited)?;
        Ok(Revised {
            graph,
            alike: false,
        })
    }

    // Whether an edit leaves the document alike in what a graph reads of it. The edited node alone
    // is compared.
    fn is_alike(&self, edited: &Tree, site: Site) -> bool
        requires { IsMade self.now.document site edited.now }
        ensures { result ≡ true
            → all_reduced self.now.document.nodes ≡ all_reduced edited.now.nodes }
    {
        match site {
            Site::Old(serial) => are_alike_at(self.tree(), edited, serial),
            Site::New => false,
        }
    }

    // How many entries of the diary stay by an edit, unless memory runs out: those up to the first
    // begin of the time parent of the edited node, with that, where the edit leaves the references
    // as they were.
    fn staying(&self, revised: &Revised, site: Site) -> Result<usize, AllocError>
        requires made { IsMade self.now.document site (document_of revised.now.graph) }
        requires alike { revised.now.alike ≡ true
            → all_reduced self.now.document.nodes ≡ all_reduced revised.now.graph.nodes }
        ensures { IfOk result (λ len. len ≡ staying self.now (document_of revised.now.graph) site) }
    {
        let (serial, parent) = edited_node(self.tree(), revised.graph.tree(), site);
        let keeps = self.keeps_references(serial, revised)?;
        Ok(entries_staying(self.viewer.cells.book(), keeps, parent))
    }

    // Whether an edit of a node leaves the references as they were, unless memory runs out.
    fn keeps_references(&self, serial: u32, revised: &Revised) -> Result<bool, AllocError>
        requires { revised.now.alike ≡ true
            → all_reduced self.now.document.nodes ≡ all_reduced revised.now.graph.nodes }
        ensures { IfOk result (λ keeps. keeps
            ≡ keeps_references serial self.now.document.nodes revised.now.graph.nodes) }
    {
        if revised.alike {
            return Ok(true);
        }
        let revision = Revision {
            edited: serial,
            old: self.viewer.cells.past().graph(),
            new: &revised.graph,
        };
        keeps_references(self.alloc, revision)
    }
}

impl<T: Table> Viewer<T> {
    /// Tells which elements other cells have no longer and which views differ by them, and puts
    /// them in the place of its own, which `cells` holds then. Where memory runs out all is as
    /// before.
    pub(crate) fn take_over<I: ChangeItem>(
        &mut self,
        alloc: Global,
        cells: &mut Cells<T>,
        out: &mut GrowingList<I>,
    ) -> Result<(), Refusal>
        requires playing { IsPlaying self.old.cells self.old.seen }
        requires state { IsState cells.old.presentation }
        requires replayed { IsReplayed cells.old.presentation cells.old }
        ensures cells { OnOk result (self.new.cells ≡ cells.old) }
        ensures playing { OnOk result (IsPlaying self.new.cells self.new.seen) }
        ensures told { OnOk result (out.new ≡ out.old
            ++ gone_told I.telling self.old.cells.presentation cells.old.presentation
            ++ told_of I.telling cells.old.presentation
            (changes_between self.old.cells.presentation cells.old.presentation)) }
        ensures refused { IfErr result (λ refusal. refusal ≡ Refusal.Memory) }
        ensures kept { OnErr result (self.new ≡ self.old) }
        ensures text { OnErr result (out.new ≡ out.old) }
    {
        let seen = ViewTable::of(alloc, cells)?;
        let len = out.len();
        if self.put_edited(cells, &seen, out).is_err() {
            out.cut_back(len);
            return Err(Refusal::Memory);
        }
        swap(&mut self.cells, cells);
        self.seen = seen;
        Ok(())
    }

    // Tells the elements that are gone, and the views that differ.
    fn put_edited<I: ChangeItem>(
        &self,
        cells: &Cells<T>,
        seen: &ViewTable,
        out: &mut GrowingList<I>,
    ) -> Result<(), AllocError>
        requires before { IsPlaying self.now.cells self.now.seen }
        requires after { IsPlaying cells.now seen.now }
        ensures ok { OnOk result (out.new ≡ out.old
            ++ gone_told I.telling self.now.cells.presentation cells.now.presentation
            ++ told_of I.telling cells.now.presentation
            (changes_between self.now.cells.presentation cells.now.presentation)) }
        ensures err { OnErr result (Begins out.old out.new) }
    {
        let now = cells.moment();
        let before = Scene {
            tree: self.cells.tree(),
            moment: now,
        };
        put_all_gone(before, cells.tree(), out)?;
        let after = Scene {
            tree: cells.tree(),
            moment: now,
        };
        put_differences(after, &self.seen, seen, out)
    }
}

// The serial of the node that was edited, and that of its time parent, if it has one.
fn edited_node(tree: &Tree, edited: &Tree, site: Site) -> (u32, Option<u32>)
    requires { IsMade tree.now site edited.now }
    ensures serial { result.0 ≡ site_serial tree.now site }
    ensures parent { result.1 ≡ serial_of
        (time_parent (site_nodes tree.now edited.now site) (site_serial tree.now site)) }
{
    match site {
        Site::Old(serial) => (serial, parent_of(tree, serial)),
        Site::New => {
            let serial = edited.next() - 1;
            (serial, parent_of(edited, serial))
        }
    }
}

// How many entries of a diary stay by an edit: those up to the first begin of the time parent of
// the edited node, with that, if it has one and the edit leaves the references as they were; else
// none.
fn entries_staying(book: &Book, keeps: bool, parent: Option<u32>) -> usize
    ensures { (node : Option AnyNode) → serial_of node ≡ parent
        → result ≡ agreed_under keeps node book.now }
{
    match parent {
        Some(parent) if keeps => diary_through(book, parent),
        _ => 0,
    }
}
