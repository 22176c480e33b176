//! The lines of the answers to orders.

ghost use Rattle.std.specs.Prelude.{◌≡◌, ◌++◌, OnOk, OnErr};
ghost use Rattle.smil_model.specs.shown.Lines.{gone_line, interval_line, layer_line, value_line};
ghost use Rattle.smil_report.specs.Words.{who_of};

use super::words::{Name, Word, how_word, put_line};
use smil_model::{Bytes, How, Shown};
use std::alloc::AllocError;

/// Appends `MOMENT REF gone`, for an element that was removed at that moment, in milliseconds of
/// document time. Where memory is refused, `out` is as before.
pub fn put_gone(out: &mut Bytes, moment: i64, name: Name<'_>) -> Result<(), AllocError>
    ensures ok { OnOk result (out.new ≡ out.old ++ gone_line moment (who_of name.entry)) }
    ensures err { OnErr result (out.new ≡ out.old) }
{
    put_line(
        out,
        &[Word::Moment(moment), Word::Name(name), Word::Text(b"gone")],
    )
}

/// Appends an interval as `REF from BEGIN to END WORD`, with its times in milliseconds of document
/// time. Where memory is refused, `out` is as before.
pub fn put_history(
    out: &mut Bytes,
    name: Name<'_>,
    begin: Shown,
    end: Shown,
    how: How,
) -> Result<(), AllocError>
    ensures ok { OnOk result (out.new ≡ out.old
        ++ interval_line (who_of name.entry) begin end how) }
    ensures err { OnErr result (out.new ≡ out.old) }
{
    put_line(
        out,
        &[
            Word::Name(name),
            Word::Text(b"from"),
            Word::Time(begin),
            Word::Text(b"to"),
            Word::Time(end),
            Word::Text(how_word(how)),
        ],
    )
}

/// An attribute of an element that is set, with its value and the set on top of its stack.
#[derive(Drop)]
pub struct SetValue<'a> {
    pub target: Name<'a>,
    pub attr: &'a [u8],
    pub value: &'a [u8],
    pub setter: Name<'a>,
}

/// Appends an attribute that is set as `TARGET ATTRIBUTE "VALUE" SETTER`. Where memory is refused,
/// `out` is as before.
pub fn put_value(out: &mut Bytes, set: &SetValue<'_>) -> Result<(), AllocError>
    ensures ok { OnOk result (out.new ≡ out.old ++ value_line (who_of set.now.target)
        set.now.attr.now set.now.value.now (who_of set.now.setter)) }
    ensures err { OnErr result (out.new ≡ out.old) }
{
    put_line(
        out,
        &[
            Word::Name(set.target),
            Word::Text(set.attr),
            Word::Quoted(set.value),
            Word::Name(set.setter),
        ],
    )
}

/// Appends a set of a stack as `SETTER "VALUE"`. Where memory is refused, `out` is as before.
pub fn put_layer(out: &mut Bytes, setter: Name<'_>, value: &[u8]) -> Result<(), AllocError>
    ensures ok { OnOk result (out.new ≡ out.old ++ layer_line (who_of setter.entry) value.now) }
    ensures err { OnErr result (out.new ≡ out.old) }
{
    put_line(out, &[Word::Name(setter), Word::Quoted(value)])
}
