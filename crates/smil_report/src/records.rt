//! Changes as records, beside their lines.

ghost use Rattle.std.specs.Prelude.{◌≡◌, ◌++◌, OnOk, OnErr};
ghost use Rattle.smil_report.specs.Tellings.{Telling};
ghost use Rattle.smil_report.specs.Words.{who_of};

use super::changes::put_change;
use super::lines::put_gone;
use super::words::Name;
use smil_model::{GrowingList, View};
use std::alloc::AllocError;

/// What an order changed of an element at a moment, in milliseconds of document time: what is shown
/// of the element from then on, or that it is gone.
#[derive(Clone, Copy)]
pub enum Change {
    Shown { moment: i64, view: View },
    Gone { moment: i64, serial: u32 },
}

/// Records of changes.
pub type Changes = GrowingList<Change>;

/// An item by which changes are told: a byte of their lines, or a record.
pub trait ChangeItem: Copy {
    ghost telling: { Telling Self };

    /// Appends what is told of a changed view at a moment, in milliseconds of document time. The
    /// name is that of the view's element. Where memory is refused, `out` is as before.
    fn put_change(
        out: &mut GrowingList<Self>,
        moment: i64,
        name: Name<'_>,
        view: &View,
    ) -> Result<(), AllocError>
        ensures ok { OnOk result (out.new ≡ out.old
            ++ telling.change moment (who_of name.entry) view.now) }
        ensures err { OnErr result (out.new ≡ out.old) };

    /// Appends what is told of an element that was removed at a moment, in milliseconds of document
    /// time, by its name and its serial. Where memory is refused, `out` is as before.
    fn put_gone(
        out: &mut GrowingList<Self>,
        moment: i64,
        name: Name<'_>,
        serial: u32,
    ) -> Result<(), AllocError>
        ensures ok { OnOk result (out.new ≡ out.old
            ++ telling.gone moment (who_of name.entry) serial) }
        ensures err { OnErr result (out.new ≡ out.old) };
}

impl ChangeItem for u8 {
    ghost use Rattle.smil_report.specs.Tellings.{as_text};

    ghost telling = { as_text };

    fn put_change(
        out: &mut GrowingList<u8>,
        moment: i64,
        name: Name<'_>,
        view: &View,
    ) -> Result<(), AllocError> {
        put_change(out, moment, name, view)
    }

    fn put_gone(
        out: &mut GrowingList<u8>,
        moment: i64,
        name: Name<'_>,
        _serial: u32,
    ) -> Result<(), AllocError> {
        put_gone(out, moment, name)
    }
}

impl ChangeItem for Change {
    ghost use Rattle.smil_report.specs.Records.{as_records};

    ghost telling = { as_records };

    fn put_change(
        out: &mut GrowingList<Change>,
        moment: i64,
        _name: Name<'_>,
        view: &View,
    ) -> Result<(), AllocError> {
        out.push(Change::Shown {
            moment,
            view: *view,
        })
    }

    fn put_gone(
        out: &mut GrowingList<Change>,
        moment: i64,
        _name: Name<'_>,
        serial: u32,
    ) -> Result<(), AllocError> {
        out.push(Change::Gone { moment, serial })
    }
}
