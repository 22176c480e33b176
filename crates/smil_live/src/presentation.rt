//! A presentation that answers orders.

ghost use Rattle.std.specs.Prelude.{◌≡◌, ◌≤◌, ◌-◌, ◌++◌, true, false, Some, IsSome, Ok, Err, OnOk, OnErr, IfOk, IfErr};
ghost use Rattle.smil_model.specs.declared.document.Node.{Node as AnyNode};
ghost use Rattle.smil_model.specs.declared.order.Order.TheVariants as order;
ghost use Rattle.smil_model.specs.diary.Logs.{is_serial};
ghost use Rattle.smil_model.specs.document.Document.{node_at};
ghost use Rattle.smil_model.specs.document.Valid.{IsValid};
ghost use Rattle.smil_model.specs.happening.Resolution.{diary_of};
ghost use Rattle.smil_model.specs.shown.Orders.{IsState, course_of, found, node_of, opened};
ghost use Rattle.smil_model.specs.shown.Answers.{IsGiven, IsRefusedBy};
ghost use Rattle.smil_report.specs.Tellings.{is_telling, load_told};
ghost use Rattle.smil_cells.specs.CellsState.{WhereTold};
ghost use Rattle.smil_live.specs.Answered.{IsAnswered};
ghost use Rattle.smil_live.specs.Counts.{least_loading, most_loading};
ghost use Rattle.smil_shown.specs.ShownViews.{IsPlaying};
ghost use Rattle.smil_live.specs.Moves.{IsReplayed};
ghost use Rattle.smil_live.specs.Telling.{element_named, is_edit};

use super::replay::{Replay, replayed};
use super::screen::on_screen;
use super::viewer::Viewer;
use smil_cells::{Cells, Table};
use smil_house::{OnScreen, Player};
use smil_interval::Steps;
use smil_model::{Bytes, Doc, GrowingList, Happening, Order, Refusal, Who};
use smil_nodes::LiveTable;
use smil_report::{ChangeItem, Changes};
use smil_revision::{Child, LineText, Setting};
use smil_shown::{Scene, ViewTable, put_differences};
use smil_tree::Tree;
use std::alloc::Global;
use std::marker::Model;
use std::sync::ledger::Ledger;

/// A presentation that evaluates after each happening those elements alone that the happening can
/// reach.
pub type Presentation = PresentationOver<LiveTable>;

/// A presentation, seen as its document, its log and its moment, in milliseconds of document time.
/// It answers every order, and tells bounds of its interval evaluations where its table counts
/// them.
pub struct PresentationOver<T: Table> {
    pub viewer: Viewer<T>,
    /// The document, where its plain texts are no longer those that the cells were made of.
    pub edited: Option<Tree>,
    pub alloc: Global,
}

impl<T: Table> Drop for PresentationOver<T> {
    // Dropped by a call of its own, not field by field in each function that drops one.
    fn drop(self) {
        let PresentationOver {
            viewer: _viewer,
            edited: _edited,
            alloc: _alloc,
        } = self;
    }
}

impl<T: Table> Model for PresentationOver<T> {
    ghost use Rattle.smil_model.specs.shown.Orders.{Presentation as State};
    ghost use Rattle.smil_text_laws.specs.PlainTexts.{with_document};
    ghost use Rattle.smil_live.specs.Texts.{IsPlayed, current};

    ghost Value = { State };

    ghost view = { λ p. with_document p.viewer.cells.presentation
        (current p.viewer.cells.presentation.document p.edited) };

    ghost invariant = { λ p. IsPlayed p.viewer.cells p.viewer.seen
        (current p.viewer.cells.presentation.document p.edited) };
}

impl<T: Table> PresentationOver<T> {
    /// Opens a valid document at moment 0 with an empty log, and tells what is shown of it. `DiaryFull` where its diary has too many entries, `Memory` where memory runs out;
    /// after a refusal `out` is as before.
    pub fn new<I: ChangeItem, L: Ledger>(
        alloc: Global,
        doc: Doc,
        out: &mut GrowingList<I>,
        steps: &mut Steps<L>,
    ) -> Result<Self, Refusal>
        requires { IsValid doc }
        ensures state { IfOk result (λ playing. opened doc ≡ Ok playing) }
        ensures answer { IfOk result (λ playing. out.new ≡ out.old ++ load_told I.telling playing) }
        ensures refused { IfErr result (IsRefusedBy (opened doc)) }
        ensures text { OnErr result (out.new ≡ out.old) }
        ensures counted { steps.old ≤ steps.new }
        ensures most { IfOk result (λ playing. WhereTold T.counts
            (steps.new - steps.old ≤ most_loading playing)) }
        ensures least { IfOk result (λ playing. WhereTold T.counts
            (least_loading playing ≤ steps.new - steps.old)) }
    {
        let replay = Replay { log: &[], to: 0 };
        let cells = replayed(alloc, doc, replay, steps)?;
        PresentationOver::over(alloc, cells, out)
    }

    // A presentation over cells that are settled at moment 0, with what is shown of it told.
    fn over<I: ChangeItem>(
        alloc: Global,
        cells: Cells<T>,
        out: &mut GrowingList<I>,
    ) -> Result<Self, Refusal>
        requires state { IsState cells.presentation }
        requires replayed { IsReplayed cells.presentation cells }
        requires moment { cells.presentation.now ≡ 0 }
        ensures state { IfOk result (λ playing. playing ≡ cells.presentation) }
        ensures answer { IfOk result (λ playing. out.new ≡ out.old ++ load_told I.telling playing) }
        ensures refused { IfErr result (λ refusal. refusal ≡ Refusal.Memory) }
        ensures text { OnErr result (out.new ≡ out.old) }
    {
        let seen = put_first(alloc, &cells, out)?;
        Ok(PresentationOver {
            viewer: Viewer { cells, seen },
            edited: None,
            alloc,
        })
    }

    /// The document. It takes no memory.
    pub fn tree(&self) -> &Tree
        ensures document { result.now ≡ self.now.document }
        ensures valid { IsValid result.now }
    {
        let tree = match &self.edited {
            Some(tree) => tree,
            None => self.viewer.cells.tree(),
        };
        tree.valid();
        tree
    }

    /// The serial of a node. `NoElement` where there is no such node.
    pub fn node(&self, who: &Who) -> Result<u32, Refusal>
        ensures ok { IfOk result (λ serial. (n : AnyNode)
            × (node_of self.now.document.nodes who.now ≡ Some n) × (serial ≡ n.serial)) }
        ensures known { IfOk result (λ serial. IsSome (node_at self.now.document.nodes serial)) }
        ensures serial { IfOk result (λ serial. is_serial serial ≡ true) }
        ensures err { IfErr result (λ refusal. found (node_of self.now.document.nodes who.now)
            ≡ Err refusal) }
    {
        match self.tree().find(who) {
            Some(serial) => Ok(serial),
            None => Err(Refusal::NoElement),
        }
    }

    /// The serial of an element. `NoElement` where there is no such node, `BadPlace` where it is a
    /// priorityClass.
    pub fn element(&self, who: &Who) -> Result<u32, Refusal>
        ensures ok { IfOk result (λ serial. (n : AnyNode) × (element_named self.now who.now ≡ Ok n)
            × (serial ≡ n.serial)) }
        ensures serial { IfOk result (λ serial. is_serial serial ≡ true) }
        ensures err { IfErr result (λ refusal. element_named self.now who.now ≡ Err refusal) }
    {
        let serial = self.node(who)?;
        if self.tree().kind(serial).is_element() {
            Ok(serial)
        } else {
            Err(Refusal::BadPlace)
        }
    }

    /// A presentation is a state, and has its diary: a law for proofs, which costs nothing.
    pub fn settled(&self)
        ensures state { IsState self.now }
        ensures diary { IsSome (diary_of (course_of self.now)) }
    {
        let _kept = &self.viewer;
    }

    // Hears a key, and tells what changes.
    #[inline(never)]
    fn press<I: ChangeItem, L: Ledger>(
        &mut self,
        key: u8,
        out: &mut GrowingList<I>,
        steps: &mut Steps<L>,
    ) -> Result<(), Refusal>
        requires { IsGiven (order.Key key) }
        ensures { IsAnswered I.telling T.counts (order.Key key) result self.old self.new
            out.old out.new steps.old steps.new }
    {
        self.settled();
        self.hear(Happening::Key { key }, out, steps)
    }

    // Answers an order that edits the document.
    #[inline(never)]
    fn edit<I: ChangeItem, L: Ledger>(
        &mut self,
        order: &Order,
        out: &mut GrowingList<I>,
        steps: &mut Steps<L>,
    ) -> Result<(), Refusal>
        requires given { IsGiven order.now }
        requires edits { is_edit order.now ≡ true }
        ensures { IsAnswered I.telling T.counts order.now result self.old self.new
            out.old out.new steps.old steps.new }
    {
        match order {
            Order::Set {
                who,
                attr,
                value,
                attr_column,
                column,
            } => {
                let setting = Setting {
                    attr: placed(attr, *attr_column),
                    value: placed(value, *column),
                };
                self.set(who, setting, out, steps)
            }
            Order::Unset {
                who,
                attr,
                attr_column,
            } => self.unset(who, placed(attr, *attr_column), out, steps),
            Order::Insert {
                who,
                place,
                node,
                column,
            } => {
                let child = Child {
                    place: *place,
                    line: placed(node, *column),
                };
                self.insert(who, child, out, steps)
            }
            Order::Remove { who } => self.remove(who, out, steps),
            _ => unreachable!(),
        }
    }

    // Answers an order that may change something: tells what it changes.
    fn change<I: ChangeItem, L: Ledger>(
        &mut self,
        order: &Order,
        out: &mut GrowingList<I>,
        steps: &mut Steps<L>,
    ) -> Result<(), Refusal>
        requires given { IsGiven order.now }
        requires changes { is_telling order.now ≡ false }
        ensures { IsAnswered I.telling T.counts order.now result self.old self.new
            out.old out.new steps.old steps.new }
    {
        match order {
            Order::Advance { by } => self.advance(*by, out, steps),
            Order::Seek { to } => self.seek(*to, out, steps),
            Order::Event { who, name } => self.event(who, name, out, steps),
            Order::Media { who, length } => self.media(who, *length, out, steps),
            Order::Key { key } => self.press(*key, out, steps),
            Order::Set { .. } | Order::Unset { .. } | Order::Insert { .. } | Order::Remove { .. } =>
                self.edit(order, out, steps),
            _ => unreachable!(),
        }
    }
}

impl<T: Table> Player for PresentationOver<T> {
    ghost use Rattle.smil_grammar.specs.Formats.{formats};
    ghost use Rattle.smil_live.specs.Counts.{least_number, most_number, told_where};

    ghost formats = { λ _. formats };

    ghost presentation = { λ p. p };

    ghost least_steps = { λ p order. told_where T.counts (least_number p order) };

    ghost most_steps = { λ p order. told_where T.counts (most_number p order) };

    fn now(&self) -> i64 {
        self.viewer.cells.moment()
    }

    fn next_due(&self) -> Option<i64> {
        self.viewer.cells.next_due()
    }

    fn find(&self, who: &Who) -> Option<u32> {
        self.tree().find(who)
    }

    fn on_screen(&self, index: usize) -> Option<OnScreen> {
        let view = self.viewer.seen.views().get(index)?;
        let cells = &self.viewer.cells;
        Some(on_screen(cells.past(), cells.moment(), view))
    }

    fn answer<L: Ledger>(
        &mut self,
        order: &Order,
        out: &mut Bytes,
        steps: &mut Steps<L>,
    ) -> Result<(), Refusal> {
        if is_telling(order) {
            self.tell(order, out)
        } else {
            self.change(order, out, steps)
        }
    }

    fn record<L: Ledger>(
        &mut self,
        order: &Order,
        out: &mut Changes,
        steps: &mut Steps<L>,
    ) -> Result<(), Refusal> {
        self.change(order, out, steps)
    }
}

// Whether an order only tells something.
fn is_telling(order: &Order) -> bool
    ensures { result ≡ is_telling order.now }
{
    matches!(
        order,
        Order::Show
            | Order::History { .. }
            | Order::Text
            | Order::Save
            | Order::Values
            | Order::Stack { .. }
            | Order::Diary
    )
}

// A text in an order's line, with its column.
fn placed(text: &Bytes, column: u32) -> LineText<'_>
    ensures text { result.text.now ≡ text.now }
    ensures column { result.column ≡ column }
{
    LineText {
        text: text.slice(),
        column,
    }
}

// The views of cells that are settled at moment 0, which are told.
fn put_first<T: Table, I: ChangeItem>(
    alloc: Global,
    cells: &Cells<T>,
    out: &mut GrowingList<I>,
) -> Result<ViewTable, Refusal>
    requires state { IsState cells.now.presentation }
    requires replayed { IsReplayed cells.now.presentation cells.now }
    requires moment { cells.now.presentation.now ≡ 0 }
    ensures seen { IfOk result (IsPlaying cells.now) }
    ensures answer { OnOk result (out.new ≡ out.old ++ load_told I.telling cells.now.presentation) }
    ensures refused { IfErr result (λ refusal. refusal ≡ Refusal.Memory) }
    ensures text { OnErr result (out.new ≡ out.old) }
{
    let before = ViewTable::none(alloc)?;
    let seen = ViewTable::of(alloc, cells)?;
    let len = out.len();
    let scene = Scene {
        tree: cells.tree(),
        moment: 0,
    };
    if put_differences(scene, &before, &seen, out).is_err() {
        out.cut_back(len);
        return Err(Refusal::Memory);
    }
    Ok(seen)
}
