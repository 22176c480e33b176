//! Loads and closes that the arguments of calls make.

ghost use Rattle.std.specs.Prelude.{◌≡◌, ◌<◌, IfOk};
ghost use Rattle.tenphsar.specs.Loads.{Loads, Unloads, head_of};
ghost use Rattle.tenphsar.specs.Orders.{code_given};

use super::calls::{BAD_ARGUMENT, DONE, OUT_OF_MEMORY, code_of_refusal};
use smil_interval::Steps;
use smil_model::{Bytes, LINE_BYTES};
use smil_top::{CallRefusal, Held};
use std::alloc::{AllocError, Global};
use std::sync::ledger::{Blank, Ledger};

/// The texts of a load: the name of the presentation, the instant of its moment 0 or nothing, and
/// the outline.
#[derive(Clone, Copy)]
pub(crate) struct LoadTexts<'a> {
    pub name: &'a [u8],
    pub start: &'a [u8],
    pub outline: &'a [u8],
}

// The line that opens the load of a name, at an instant where its text isn't empty.
fn head(alloc: Global, name: &[u8], start: &[u8]) -> Result<Bytes, AllocError>
    ensures { IfOk result (λ head. head ≡ head_of name.now start.now) }
{
    let mut head = Bytes::of(alloc, b"load ")?;
    head.append(name)?;
    if !start.is_empty() {
        head.append(b" at ")?;
        head.append(start)?;
    }
    Ok(head)
}

/// Loads a presentation, and gives the call's code.
pub(crate) fn load<L: Ledger>(
    alloc: Global,
    held: &mut Held,
    given: &LoadTexts<'_>,
    blank: Blank,
) -> i32
    requires name { blank.name ≡ L.name }
    requires parts { blank.parts ≡ L.parts }
    requires backed { 0 < blank.parts }
    ensures { Loads result (head_of given.now.name.now given.now.start.now) given.now.outline.now
        held.old held.new }
{
    let Ok(head) = head(alloc, given.name, given.start) else {
        return OUT_OF_MEMORY;
    };
    if head.len() > LINE_BYTES {
        return BAD_ARGUMENT;
    }
    let mut steps = Steps::<L>::new(blank);
    code_of_done(&held.load(head.slice(), given.outline, &mut steps))
}

/// Closes the presentation of this name, and gives the call's code.
pub(crate) fn unload(held: &mut Held, name: &[u8]) -> i32
    ensures { Unloads result name.now held.old held.new }
{
    code_of_done(&held.close(name))
}

// The code of a load or a close that was given.
fn code_of_done(answered: &Result<(), CallRefusal>) -> i32
    ensures { result ≡ code_given answered.now }
{
    match answered {
        Ok(()) => DONE,
        Err(refusal) => code_of_refusal(*refusal),
    }
}
