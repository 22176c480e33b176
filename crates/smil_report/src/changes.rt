//! The lines of changes.

ghost use Rattle.std.specs.Prelude.{◌≡◌, ◌+◌, ◌≤◌, ◌++◌, [], ◌∷◌, length, drop, OnOk, OnErr};
ghost use Rattle.std.specs.Fmt.{signed_decimal};
ghost use Rattle.smil_model.specs.document.Words.{space};
ghost use Rattle.smil_model.specs.shown.Lines.{change_line, line_of, serial_text, shown_text, state_text};
ghost use Rattle.smil_report.specs.Words.{view_text, who_of};

use super::backwards::{put_before, put_number_before, put_signed_before};
use super::words::{Name, Word, put_line};
use smil_model::{Bytes, Shown, State, View};
use std::alloc::AllocError;

// The most bytes of an id with which a line is made whole before it is appended.
const SHORT_ID_BYTES: usize = 48;

// The room that a line of a change takes at most with such an id, in bytes.
const CHANGE_BYTES: usize = 144;

/// Appends a changed view as `MOMENT REF STATE BEGIN END ITERATION FINISHED`. The moment and the
/// times are in milliseconds of document time. Where memory is refused, `out` is as before.
pub fn put_change(
    out: &mut Bytes,
    moment: i64,
    name: Name<'_>,
    view: &View,
) -> Result<(), AllocError>
    ensures ok { OnOk result (out.new ≡ out.old
        ++ change_line moment (who_of name.entry) view.now) }
    ensures err { OnErr result (out.new ≡ out.old) }
{
    let mut buf = [0; CHANGE_BYTES];
    let end = put_before(&mut buf, CHANGE_BYTES, b"\n");
    let shown = put_view(&mut buf, end, view);
    let at = match name {
        Name::Id(id) if id.len() > SHORT_ID_BYTES => {
            return put_long(out, moment, id, &buf[shown..end]);
        }
        Name::Id(id) => put_id(&mut buf, shown, id),
        Name::Serial(serial) => put_serial(&mut buf, shown, serial),
    };
    let at = put_before(&mut buf, at, b" ");
    let at = put_signed_before(&mut buf, at, moment);
    out.append(&buf[at..])
}

// Appends the line of a change of an element with a long id, by what is shown of it.
#[inline(never)]
fn put_long<'a>(
    out: &mut Bytes,
    moment: i64,
    id: &'a [u8],
    shown: &'a [u8],
) -> Result<(), AllocError>
    ensures ok { OnOk result (out.new ≡ out.old
        ++ line_of (signed_decimal moment ∷ id.now ∷ shown.now ∷ [])) }
    ensures err { OnErr result (out.new ≡ out.old) }
{
    put_line(
        out,
        &[Word::Moment(moment), Word::Text(id), Word::Text(shown)],
    )
}

// Writes an id and a space before a place, and gives the place where the id begins.
#[inline(always)]
fn put_id(buf: &mut [u8], end: usize, id: &[u8]) -> usize
    requires fits { length id.now + 1 ≤ end }
    requires within { end ≤ length buf.old }
    ensures place { result + length id.now + 1 ≡ end }
    ensures written { drop result buf.new ≡ id.now ++ space ∷ drop end buf.old }
{
    let at = put_before(buf, end, b" ");
    put_before(buf, at, id)
}

// Writes a serial and a space before a place, and gives the place where the serial begins.
#[inline(never)]
fn put_serial(buf: &mut [u8], end: usize, serial: u32) -> usize
    requires fits { 12 ≤ end }
    requires within { end ≤ length buf.old }
    ensures short { end ≤ result + 12 }
    ensures place { result + length (serial_text serial) + 1 ≡ end }
    ensures written { drop result buf.new ≡ serial_text serial ++ space ∷ drop end buf.old }
{
    let at = put_before(buf, end, b" ");
    let at = put_number_before(buf, at, serial);
    put_before(buf, at, b"#")
}

// Writes what a view shows before a place, and gives the place where it begins.
fn put_view(buf: &mut [u8], end: usize, view: &View) -> usize
    requires fits { 72 ≤ end }
    requires within { end ≤ length buf.old }
    ensures short { end ≤ result + 72 }
    ensures place { result + length (view_text view.now) ≡ end }
    ensures written { drop result buf.new ≡ view_text view.now ++ drop end buf.old }
{
    let at = put_number_before(buf, end, view.finished);
    let at = put_before(buf, at, b" ");
    let at = put_number_before(buf, at, view.iteration);
    let at = put_before(buf, at, b" ");
    let at = put_time(buf, at, view.end);
    let at = put_time(buf, at, view.begin);
    put_state(buf, at, view.state)
}

// Writes a state before a place, and gives the place where it begins.
fn put_state(buf: &mut [u8], end: usize, state: State) -> usize
    requires fits { 8 ≤ end }
    requires within { end ≤ length buf.old }
    ensures short { end ≤ result + 8 }
    ensures place { result + length (state_text state) ≡ end }
    ensures written { drop result buf.new ≡ state_text state ++ drop end buf.old }
{
    match state {
        State::Idle => put_before(buf, end, b"idle"),
        State::Waiting => put_before(buf, end, b"waiting"),
        State::Active => put_before(buf, end, b"active"),
        State::Paused => put_before(buf, end, b"paused"),
        State::Deferred => put_before(buf, end, b"deferred"),
        State::Frozen => put_before(buf, end, b"frozen"),
        State::Done => put_before(buf, end, b"done"),
    }
}

// Writes a space and a time of a view before a place, and gives the place where they begin.
fn put_time(buf: &mut [u8], end: usize, time: Shown) -> usize
    requires fits { 21 ≤ end }
    requires within { end ≤ length buf.old }
    ensures short { end ≤ result + 21 }
    ensures place { result + length (space ∷ shown_text time) ≡ end }
    ensures written { drop result buf.new ≡ (space ∷ shown_text time) ++ drop end buf.old }
{
    match time {
        Shown::Nothing => put_before(buf, end, b" -"),
        Shown::At(value) => {
            let at = put_signed_before(buf, end, value);
            put_before(buf, at, b" ")
        }
        Shown::Indefinite => put_before(buf, end, b" indefinite"),
        Shown::Unresolved => put_before(buf, end, b" unresolved"),
        Shown::Standing => put_before(buf, end, b" ?"),
    }
}
