//! The engine for programs in other languages: a session under a handle, which is given line after
//! line. `embed/tenphsar.h` declares the exports.
//!
//! A caller meets each `requires`: a session that is open is passed to every call but
//! `tenphsar_open`, and one that is not to that. Nothing is global, and no call keeps what it is
//! passed.
#![tactic(auto)]

ghost use Rattle.std.specs.Prelude.{◌≡◌, drop, length, map, None, Some, IfSome, IsSome};
ghost use Rattle.smil_top.specs.Held.{answer_of};
ghost use Rattle.smil_top.specs.declared.held.Held.{Held as AnyHeld};
ghost use Rattle.tenphsar.specs.Calls.{Copies, Opens, TakesIn, TellsMoment, TellsNext};
ghost use Rattle.tenphsar.specs.Edits.{insert_of, remove_of, set_of, unset_of};
ghost use Rattle.tenphsar.specs.Loads.{Loads, Unloads, fault_record, head_of};
ghost use Rattle.tenphsar.specs.Orders.{Calls, advance_of, event_by, key_of, media_of, seek_of};
ghost use Rattle.tenphsar.specs.Records.{record_of};
ghost use Rattle.tenphsar.specs.Screen.{Finds, TellsScreen};

mod calls;
mod edits;
mod faults;
mod handle;
mod loads;
mod loose;
mod orders;
mod records;
mod screen;

use calls::{DONE, NO_MEMORY};
use faults::FaultRecord;
use handle::Handle;
use loads::LoadTexts;
use records::ChangeRecord;
use screen::ScreenRecord;
use std::alloc::Global;
use std::marker::Brand;
use std::sync::ledger::Blank;

/// Opens a session with no presentation, and answers 0; or -1 where memory runs out, and then
/// `session` is not open. It is not open before: what an open one holds would be forgotten.
#[unsafe(no_mangle)]
pub extern "C" fn tenphsar_open(alloc: Global, session: &mut Handle) -> i32
    ensures { Opens result session.new.value }
{
    match calls::opened(alloc) {
        Some(opened) => {
            session.put(opened);
            DONE
        }
        None => {
            *session = Handle::none();
            NO_MEMORY
        }
    }
}

/// Takes in a line, without its line feed, and answers 0 where the line has no answer, 1 where its
/// order was accepted, and 2 where it was refused. An order for which memory runs out is refused.
/// The answer stands until the next line. -2 comes where there were 4,294,967,295 lines, and then
/// all is as before.
#[unsafe(no_mangle)]
pub extern "C" fn tenphsar_line(alloc: Global, session: &mut Handle, line: &[u8]) -> i32
    requires open { IsSome session.old.value }
    ensures open { IsSome session.new.value }
    ensures takes { (held : AnyHeld) → session.old.value ≡ Some held
        → IfSome session.new.value (λ after. TakesIn result line.now held after) }
{
    let mut held = session.take(alloc);
    let code = calls::take_line::<Brand>(&mut held, line, Blank::new(1));
    session.put(held);
    code
}

/// How many bytes the answer to the last line has.
#[unsafe(no_mangle)]
pub extern "C" fn tenphsar_size(alloc: Global, session: &mut Handle) -> usize
    requires open { IsSome session.old.value }
    ensures same { session.new.value ≡ session.old.value }
    ensures size { IfSome session.old.value (λ held. result ≡ length (answer_of held)) }
{
    let held = session.take(alloc);
    let size = calls::size(&held);
    session.put(held);
    size
}

/// Copies the answer to the last line to `out`, from the byte with this index on, as much as there
/// is room for, and gives how many bytes that are. The bytes of `out` behind them stay.
#[unsafe(no_mangle)]
pub extern "C" fn tenphsar_answer(
    alloc: Global,
    session: &mut Handle,
    from: usize,
    out: &mut [u8],
) -> usize
    requires open { IsSome session.old.value }
    ensures same { session.new.value ≡ session.old.value }
    ensures copied { IfSome session.old.value
        (λ held. Copies result (drop from (answer_of held)) out.old out.new) }
{
    let held = session.take(alloc);
    let copied = calls::copy(&held, from, out);
    session.put(held);
    copied
}

/// The moment of the presentation of this name, in milliseconds of document time; -1 where there is
/// none.
#[unsafe(no_mangle)]
pub extern "C" fn tenphsar_moment(alloc: Global, session: &mut Handle, name: &[u8]) -> i64
    requires open { IsSome session.old.value }
    ensures same { session.new.value ≡ session.old.value }
    ensures moment { IfSome session.old.value (TellsMoment result name.now) }
{
    let held = session.take(alloc);
    let moment = calls::moment(&held, name);
    session.put(held);
    moment
}

/// The moment at which something comes next in the presentation of this name, in milliseconds of
/// document time, if no order comes before: up to it an advance tells no change. -1 where nothing
/// does or there is none.
#[unsafe(no_mangle)]
pub extern "C" fn tenphsar_next(alloc: Global, session: &mut Handle, name: &[u8]) -> i64
    requires open { IsSome session.old.value }
    ensures same { session.new.value ≡ session.old.value }
    ensures next { IfSome session.old.value (TellsNext result name.now) }
{
    let held = session.take(alloc);
    let next = calls::next_due(&held, name);
    session.put(held);
    next
}

/// Loads a presentation under this name, from an outline, as the lines `load NAME`, those between
/// the line feeds of the outline, and `%%` do; `start` is empty, or the instant of moment 0, and the
/// first line is `load NAME at START`. It answers as an advance does; -3 where that line is longer
/// than a line may be. A line `%%` in the outline doesn't end it, but is refused.
#[unsafe(no_mangle)]
pub extern "C" fn tenphsar_load(
    alloc: Global,
    session: &mut Handle,
    name: &[u8],
    start: &[u8],
    outline: &[u8],
) -> i32
    requires open { IsSome session.old.value }
    ensures open { IsSome session.new.value }
    ensures loads { (held : AnyHeld) → session.old.value ≡ Some held
        → IfSome session.new.value
        (Loads result (head_of name.now start.now) outline.now held) }
{
    let mut held = session.take(alloc);
    let given = LoadTexts {
        name,
        start,
        outline,
    };
    let code = loads::load::<Brand>(alloc, &mut held, &given, Blank::new(1));
    session.put(held);
    code
}

/// Closes the presentation of this name, as the line `close NAME` does. It answers as an advance
/// does, and leaves no records.
#[unsafe(no_mangle)]
pub extern "C" fn tenphsar_unload(alloc: Global, session: &mut Handle, name: &[u8]) -> i32
    requires open { IsSome session.old.value }
    ensures open { IsSome session.new.value }
    ensures unloads { (held : AnyHeld) → session.old.value ≡ Some held
        → IfSome session.new.value (Unloads result name.now held) }
{
    let mut held = session.take(alloc);
    let code = loads::unload(&mut held, name);
    session.put(held);
    code
}

/// Writes to `out` where the last call was refused: the number of the line that it stands for, or
/// of the line of its outline, and the column from 1; 0 where there is none.
#[unsafe(no_mangle)]
pub extern "C" fn tenphsar_fault(alloc: Global, session: &mut Handle, out: &mut FaultRecord)
    requires open { IsSome session.old.value }
    ensures same { session.new.value ≡ session.old.value }
    ensures fault { IfSome session.old.value (λ held. out.new ≡ fault_record held.fault) }
{
    let held = session.take(alloc);
    *out = faults::of(&held);
    session.put(held);
}

/// Moves the presentation of this name on by a length, in milliseconds from 0 to 10^12. It answers
/// 0, or the number of the refusal, and then all is as before; -3 for a length that is none, -4
/// where a load that was begun by lines hasn't ended, and -2 where there were 4,294,967,295 lines
/// and orders. What it changed stands as records until the next call that takes in a line or an
/// order.
#[unsafe(no_mangle)]
pub extern "C" fn tenphsar_advance(alloc: Global, session: &mut Handle, name: &[u8], by: i64) -> i32
    requires open { IsSome session.old.value }
    ensures open { IsSome session.new.value }
    ensures calls { (held : AnyHeld) → session.old.value ≡ Some held
        → IfSome session.new.value (Calls result name.now (advance_of by) held) }
{
    let mut held = session.take(alloc);
    let code = calls::change::<Brand>(&mut held, name, orders::advance(by), Blank::new(1));
    session.put(held);
    code
}

/// Moves the presentation of this name to a moment, in milliseconds of document time from 0 to
/// 10^12. Backward, later events, lengths and keys are removed. It answers as an advance does.
#[unsafe(no_mangle)]
pub extern "C" fn tenphsar_seek(alloc: Global, session: &mut Handle, name: &[u8], to: i64) -> i32
    requires open { IsSome session.old.value }
    ensures open { IsSome session.new.value }
    ensures calls { (held : AnyHeld) → session.old.value ≡ Some held
        → IfSome session.new.value (Calls result name.now (seek_of to) held) }
{
    let mut held = session.take(alloc);
    let code = calls::change::<Brand>(&mut held, name, orders::seek(to), Blank::new(1));
    session.put(held);
    code
}

/// An event of this name on an element, by its serial, at the present moment of the presentation.
/// It answers as an advance does; -3 for a name that no line may name.
#[unsafe(no_mangle)]
pub extern "C" fn tenphsar_event(
    alloc: Global,
    session: &mut Handle,
    name: &[u8],
    element: u32,
    event: &[u8],
) -> i32
    requires open { IsSome session.old.value }
    ensures open { IsSome session.new.value }
    ensures calls { (held : AnyHeld) → session.old.value ≡ Some held
        → IfSome session.new.value (Calls result name.now (event_by element event.now) held) }
{
    let mut held = session.take(alloc);
    let code = calls::change::<Brand>(
        &mut held,
        name,
        orders::event(alloc, element, event),
        Blank::new(1),
    );
    session.put(held);
    code
}

/// The length of the media of an element, by its serial, in milliseconds from 0 to 10^12, known
/// from the present moment of the presentation on. It answers as an advance does.
#[unsafe(no_mangle)]
pub extern "C" fn tenphsar_media(
    alloc: Global,
    session: &mut Handle,
    name: &[u8],
    element: u32,
    length: i64,
) -> i32
    requires open { IsSome session.old.value }
    ensures open { IsSome session.new.value }
    ensures calls { (held : AnyHeld) → session.old.value ≡ Some held
        → IfSome session.new.value (Calls result name.now (media_of element length) held) }
{
    let mut held = session.take(alloc);
    let code = calls::change::<Brand>(
        &mut held,
        name,
        orders::media(element, length),
        Blank::new(1),
    );
    session.put(held);
    code
}

/// A press of an access key, one byte, at the present moment of the presentation. It answers as an
/// advance does; -3 for a byte that is no access key.
#[unsafe(no_mangle)]
pub extern "C" fn tenphsar_key(alloc: Global, session: &mut Handle, name: &[u8], key: u8) -> i32
    requires open { IsSome session.old.value }
    ensures open { IsSome session.new.value }
    ensures calls { (held : AnyHeld) → session.old.value ≡ Some held
        → IfSome session.new.value (Calls result name.now (key_of key) held) }
{
    let mut held = session.take(alloc);
    let code = calls::change::<Brand>(&mut held, name, orders::key(key), Blank::new(1));
    session.put(held);
    code
}

/// Gives an attribute of an element, by its serial, a value. It answers as an advance does; -3 for
/// a name or a value that no line can have.
#[unsafe(no_mangle)]
pub extern "C" fn tenphsar_set(
    alloc: Global,
    session: &mut Handle,
    name: &[u8],
    element: u32,
    attr: &[u8],
    value: &[u8],
) -> i32
    requires open { IsSome session.old.value }
    ensures open { IsSome session.new.value }
    ensures calls { (held : AnyHeld) → session.old.value ≡ Some held
        → IfSome session.new.value (Calls result name.now (set_of element attr.now value.now) held) }
{
    let mut held = session.take(alloc);
    let code = calls::change::<Brand>(
        &mut held,
        name,
        edits::set(alloc, element, attr, value),
        Blank::new(1),
    );
    session.put(held);
    code
}

/// Takes an attribute of an element, by its serial, away. It answers as an advance does; -3 for a
/// name that no line can have.
#[unsafe(no_mangle)]
pub extern "C" fn tenphsar_unset(
    alloc: Global,
    session: &mut Handle,
    name: &[u8],
    element: u32,
    attr: &[u8],
) -> i32
    requires open { IsSome session.old.value }
    ensures open { IsSome session.new.value }
    ensures calls { (held : AnyHeld) → session.old.value ≡ Some held
        → IfSome session.new.value (Calls result name.now (unset_of element attr.now) held) }
{
    let mut held = session.take(alloc);
    let code = calls::change::<Brand>(
        &mut held,
        name,
        edits::unset(alloc, element, attr),
        Blank::new(1),
    );
    session.put(held);
    code
}

/// Inserts a node as the child of another, by its serial, at a place from 1. The node is that of an
/// outline's line without depth. It answers as an advance does; -3 for a place above 999,999,999 or
/// a text that no line can have.
#[unsafe(no_mangle)]
pub extern "C" fn tenphsar_insert(
    alloc: Global,
    session: &mut Handle,
    name: &[u8],
    parent: u32,
    place: u32,
    node: &[u8],
) -> i32
    requires open { IsSome session.old.value }
    ensures open { IsSome session.new.value }
    ensures calls { (held : AnyHeld) → session.old.value ≡ Some held
        → IfSome session.new.value (Calls result name.now (insert_of parent place node.now) held) }
{
    let mut held = session.take(alloc);
    let code = calls::change::<Brand>(
        &mut held,
        name,
        edits::insert(alloc, parent, place, node),
        Blank::new(1),
    );
    session.put(held);
    code
}

/// Removes an element or a priorityClass, by its serial, with all below it. It answers as an
/// advance does.
#[unsafe(no_mangle)]
pub extern "C" fn tenphsar_remove(
    alloc: Global,
    session: &mut Handle,
    name: &[u8],
    element: u32,
) -> i32
    requires open { IsSome session.old.value }
    ensures open { IsSome session.new.value }
    ensures calls { (held : AnyHeld) → session.old.value ≡ Some held
        → IfSome session.new.value (Calls result name.now (remove_of element) held) }
{
    let mut held = session.take(alloc);
    let code = calls::change::<Brand>(&mut held, name, edits::remove(element), Blank::new(1));
    session.put(held);
    code
}

/// How many records the last call that took in a line or an order left; a line leaves none.
#[unsafe(no_mangle)]
pub extern "C" fn tenphsar_count(alloc: Global, session: &mut Handle) -> usize
    requires open { IsSome session.old.value }
    ensures same { session.new.value ≡ session.old.value }
    ensures count { IfSome session.old.value (λ held. result ≡ length held.changes) }
{
    let held = session.take(alloc);
    let count = calls::count_changes(&held);
    session.put(held);
    count
}

/// Copies the records of what the last call changed to `out`, in the order of its change lines,
/// from the one with this index on, as many as there is room for, and gives how many they are. The
/// records of `out` behind them stay.
#[unsafe(no_mangle)]
pub extern "C" fn tenphsar_changes(
    alloc: Global,
    session: &mut Handle,
    from: usize,
    out: &mut [ChangeRecord],
) -> usize
    requires open { IsSome session.old.value }
    ensures same { session.new.value ≡ session.old.value }
    ensures copied { IfSome session.old.value
        (λ held. Copies result (drop from (map record_of held.changes)) out.old out.new) }
{
    let held = session.take(alloc);
    let copied = calls::copy_changes(&held, from, out);
    session.put(held);
    copied
}

/// The serial of the node with this id in the presentation of this name; 0 where there is no such
/// node or no such presentation, and -1 where memory runs out.
#[unsafe(no_mangle)]
pub extern "C" fn tenphsar_find(alloc: Global, session: &mut Handle, name: &[u8], id: &[u8]) -> i64
    requires open { IsSome session.old.value }
    ensures same { session.new.value ≡ session.old.value }
    ensures found { IfSome session.old.value (Finds result name.now id.now) }
{
    let held = session.take(alloc);
    let found = screen::find(alloc, &held, name, id);
    session.put(held);
    found
}

/// Writes to `out` what is on the screen of the element at a place in document order, from 0, of the
/// presentation of this name, and answers 1; 0 past the last element and where there is no such
/// presentation, and then `out` stays.
#[unsafe(no_mangle)]
pub extern "C" fn tenphsar_screen(
    alloc: Global,
    session: &mut Handle,
    name: &[u8],
    index: usize,
    out: &mut ScreenRecord,
) -> i32
    requires open { IsSome session.old.value }
    ensures same { session.new.value ≡ session.old.value }
    ensures screen { IfSome session.old.value
        (λ held. TellsScreen result name.now index held out.old out.new) }
{
    let held = session.take(alloc);
    let code = screen::tell(&held, name, index, out);
    session.put(held);
    code
}

/// Ends a session, and gives its memory back. It is not open then.
#[unsafe(no_mangle)]
pub extern "C" fn tenphsar_close(alloc: Global, session: &mut Handle)
    requires open { IsSome session.old.value }
    ensures closed { session.new.value ≡ None }
{
    drop(session.take(alloc))
}
