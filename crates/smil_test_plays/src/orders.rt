//! Documents with orders behind them, and the orders of such lines.

ghost use Rattle.std.specs.Prelude.{◌≡◌, true, IfOk, IfSome, IsSome};
ghost use Rattle.smil_model.specs.document.Document.{node_at};
ghost use Rattle.smil_model.specs.shown.Answers.{IsGiven};

use smil_model::{Bytes, Order, TEXT_BYTES, Who, WordList};
use smil_script::{Read, read_line};
use smil_test_cases::Fault;
use smil_tree::Tree;
use std::alloc::{AllocError, Global};

/// An outline, and the orders behind its end `|%%|`.
pub fn outline_and_orders<'a>(text: &'a str) -> Result<(&'a str, &'a str), Fault> {
    text.split_once("|%%|").ok_or(Fault::Refused)
}

/// The lines of a script, which are separated by `|`.
pub fn lines_of(alloc: Global, orders: &str) -> Result<WordList, AllocError> {
    let mut lines = WordList::new(alloc);
    for line in orders.split('|') {
        lines.push(Bytes::of(alloc, line.as_bytes())?)?;
    }
    Ok(lines)
}

/// The order of a script line, and none for a blank one.
pub fn order_of(alloc: Global, line: &[u8]) -> Result<Option<Order>, Fault>
    ensures { IfOk result (λ order. IfSome order IsGiven) }
{
    if line.len() >= TEXT_BYTES {
        return Err(Fault::Refused);
    }
    match read_line(alloc, line)? {
        Read::To { order, .. } => Ok(Some(order)),
        Read::Blank => Ok(None),
        _ => Err(Fault::Refused),
    }
}

/// Whether there is a node with this serial.
pub fn is_known(tree: &Tree, serial: u32) -> bool
    ensures { result ≡ true → IsSome (node_at tree.now.nodes serial) }
{
    tree.find(&Who::Serial(serial)).is_some()
}
