//! Orders that go on from the present state, or back to an earlier one.

ghost use Rattle.std.specs.Prelude.{◌≡◌, ◌≤◌, ◌-◌, ◌++◌, length as length_of, true, OnOk, OnErr, IfOk, IfErr, ◌<ℤ◌, pos};
ghost use Rattle.smil_model.specs.declared.order.Order.TheVariants as order;
ghost use Rattle.smil_model.specs.document.Document.{is_continuous, elements};
ghost use Rattle.smil_model.specs.document.Values.{is_clock};
ghost use Rattle.smil_model.specs.diary.Logs.{may_happen};
ghost use Rattle.smil_model.specs.shown.Answers.{IsGiven};
ghost use Rattle.smil_model.specs.shown.Orders.{IsState};
ghost use Rattle.smil_cells.specs.CellsState.{WhereTold};
ghost use Rattle.smil_live.specs.Answered.{IsAnswered, IsHeard};
ghost use Rattle.smil_live.specs.Counts.{least_loading, least_onward, most_onward};
ghost use Rattle.smil_live.specs.Moves.{IsReplayed, IsTooFull, MayMove, changes_by, made, sought_of, told_of};

use super::presentation::PresentationOver;
use super::replay::cells_at;
use smil_cells::{Cells, Table};
use smil_interval::Steps;
use smil_model::{
    Bytes, GrowingList, HORIZON, Happening, Kind, LOG_ENTRIES, LogEntry, Refusal, Who,
};
use smil_report::ChangeItem;
use std::sync::ledger::Ledger;

/// How a presentation goes on from its present state. Moments are in milliseconds of document time.
#[derive(Drop)]
pub enum Move {
    /// It plays on to a moment, and tells the changes of each moment on the way.
    Pass(i64),
    /// It plays on to a moment, and tells what is different there.
    Settle(i64),
    /// Something comes from outside at the present moment.
    Hear(LogEntry),
}

impl<T: Table> PresentationOver<T> {
    /// Moves on by so many milliseconds of document time, and tells the changes of each moment on
    /// the way. `BeyondHorizon` where the new moment would be above 10^12, then `DiaryFull` where
    /// the diary would have too many entries, or `Memory`.
    pub fn advance<I: ChangeItem, L: Ledger>(
        &mut self,
        by: i64,
        out: &mut GrowingList<I>,
        steps: &mut Steps<L>,
    ) -> Result<(), Refusal>
        requires { is_clock by ≡ true }
        ensures { IsAnswered I.telling T.counts (order.Advance by) result self.old self.new
            out.old out.new steps.old steps.new }
    {
        let to = self.viewer.cells.moment() + by;
        if to > HORIZON {
            return Err(Refusal::BeyondHorizon);
        }
        self.go(Move::Pass(to), out, steps)?;
        self.settled();
        Ok(())
    }

    /// Moves to a moment, in milliseconds of document time, and tells what is different there.
    /// Backward, the log entries that are later are removed. `DiaryFull` where the diary would have
    /// too many entries, or `Memory`.
    pub fn seek<I: ChangeItem, L: Ledger>(
        &mut self,
        to: i64,
        out: &mut GrowingList<I>,
        steps: &mut Steps<L>,
    ) -> Result<(), Refusal>
        requires { is_clock to ≡ true }
        ensures { IsAnswered I.telling T.counts (order.Seek to) result self.old self.new
            out.old out.new steps.old steps.new }
    {
        if to < self.viewer.cells.moment() {
            return self.seek_back(to, out, steps);
        }
        self.go(Move::Settle(to), out, steps)?;
        self.settled();
        Ok(())
    }

    // Moves to an earlier moment, over cells with the entries of the diary and the log up to it.
    #[inline(never)]
    fn seek_back<I: ChangeItem, L: Ledger>(
        &mut self,
        to: i64,
        out: &mut GrowingList<I>,
        steps: &mut Steps<L>,
    ) -> Result<(), Refusal>
        requires clock { is_clock to ≡ true }
        requires back { to <ℤ pos self.old.now }
        ensures { IsAnswered I.telling T.counts (order.Seek to) result self.old self.new
            out.old out.new steps.old steps.new }
    {
        self.settled();
        let mut cells = cells_at(&mut self.viewer.cells, to, steps)?;
        self.viewer.take_over(self.alloc, &mut cells, out)
    }

    /// An event happens on an element at the present moment. `NoElement` where there is no such
    /// node, `BadPlace` where it is a priorityClass, then `LogFull` and `DiaryFull`, or `Memory`.
    pub fn event<I: ChangeItem, L: Ledger>(
        &mut self,
        who: &Who,
        name: &Bytes,
        out: &mut GrowingList<I>,
        steps: &mut Steps<L>,
    ) -> Result<(), Refusal>
        requires { IsGiven (order.Event who.now name.now) }
        ensures { IsAnswered I.telling T.counts (order.Event who.now name.now) result self.old
            self.new out.old out.new steps.old steps.new }
    {
        self.settled();
        let serial = self.element(who)?;
        let name = Bytes::of(self.alloc, name.slice())?;
        self.hear(Happening::Event { who: serial, name }, out, steps)
    }

    /// The length of a node's media, in milliseconds, becomes known at the present moment.
    /// `NoElement` where there is no such node, `NotContinuous` where its media have no length,
    /// then `LogFull` and `DiaryFull`, or `Memory`.
    #[inline(never)]
    pub fn media<I: ChangeItem, L: Ledger>(
        &mut self,
        who: &Who,
        length: i64,
        out: &mut GrowingList<I>,
        steps: &mut Steps<L>,
    ) -> Result<(), Refusal>
        requires { IsGiven (order.Media who.now length) }
        ensures { IsAnswered I.telling T.counts (order.Media who.now length) result self.old
            self.new out.old out.new steps.old steps.new }
    {
        let serial = self.node(who)?;
        if !is_continuous(self.tree().kind(serial)) {
            return Err(Refusal::NotContinuous);
        }
        let what = Happening::Media {
            who: serial,
            length,
        };
        self.hear(what, out, steps)
    }

    /// Appends what came from outside to the log, at the present moment, and tells what differs
    /// behind it. `LogFull` where the log is full, then `DiaryFull`, or `Memory`.
    pub fn hear<I: ChangeItem, L: Ledger>(
        &mut self,
        what: Happening,
        out: &mut GrowingList<I>,
        steps: &mut Steps<L>,
    ) -> Result<(), Refusal>
        requires { may_happen what ≡ true }
        ensures { IsHeard I.telling T.counts what result self.old self.new out.old out.new
            steps.old steps.new }
    {
        if self.viewer.cells.log().len() >= LOG_ENTRIES {
            return Err(Refusal::LogFull);
        }
        let moment = self.viewer.cells.moment();
        let entry = LogEntry { moment, what };
        self.go(Move::Hear(entry), out, steps)?;
        self.settled();
        Ok(())
    }

    // Goes on by a move under a mark; after a refusal all is as before.
    fn go<I: ChangeItem, L: Ledger>(
        &mut self,
        step: Move,
        out: &mut GrowingList<I>,
        steps: &mut Steps<L>,
    ) -> Result<(), Refusal>
        requires { MayMove self.old step }
        ensures state { OnOk result (self.new ≡ made self.old step) }
        ensures told { OnOk result (out.new ≡ out.old
            ++ told_of I.telling self.old (changes_by self.old step)) }
        ensures refused { IfErr result (IsTooFull (made self.old step)) }
        ensures kept { OnErr result (self.new ≡ self.old) }
        ensures text { OnErr result (out.new ≡ out.old) }
        ensures counted { steps.old ≤ steps.new }
        ensures most { OnOk result (WhereTold T.counts
            (steps.new - steps.old ≤ most_onward self.old (made self.old step))) }
        ensures least { OnOk result (WhereTold T.counts
            (least_onward self.old (made self.old step) ≤ steps.new - steps.old)) }
    {
        let len = out.len();
        let viewer = &mut self.viewer;
        viewer.cells.mark();
        let gone = viewer.go_on(step, out, steps);
        match gone {
            Ok(()) => viewer.cells.forget(),
            Err(_) => {
                viewer.cells.back();
                viewer.seen.renew(&viewer.cells);
                out.cut_back(len);
            }
        }
        gone
    }
}

// Whether media of this kind have a length.
fn is_continuous(kind: Kind) -> bool
    ensures { result ≡ is_continuous kind }
{
    matches!(
        kind,
        Kind::Audio | Kind::Video | Kind::Animation | Kind::TextStream | Kind::Ref
    )
}
