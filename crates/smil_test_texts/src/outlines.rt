//! Calls of smil_outline.

ghost use Rattle.smil_model.specs.document.Valid.{IsValid};

use smil_model::{Bytes, Doc, Refusal};
use smil_outline::{Builder, write_doc};
use smil_test_cases::{Fault, Words, put_fault, put_lines, put_number};
use std::alloc::{AllocError, Global};

/// `outline LINE|LINE|..`: the canonical outline, or the index of the line that is refused, which
/// is the number of lines where that is the end of the outline, and why.
pub fn outline(alloc: Global, words: &mut Words<'_>, out: &mut Bytes) -> Result<(), Fault> {
    let mut builder = Builder::new(alloc)?;
    let mut lines = 0_u64;
    for line in words.rest().split('|') {
        if let Err(refusal) = builder.push(line.as_bytes()) {
            return refused(out, lines, refusal);
        }
        lines = lines.saturating_add(1);
    }
    match builder.finish() {
        Ok(doc) => Ok(put_doc(alloc, out, &doc)?),
        Err(refusal) => refused(out, lines, refusal),
    }
}

// A refusal, with the number of its line.
fn refused(out: &mut Bytes, line: u64, refusal: Refusal) -> Result<(), Fault> {
    put_number(out, line)?;
    Ok(put_fault(out, refusal.word(), refusal.column())?)
}

// A document, with `|` behind each line.
fn put_doc(alloc: Global, out: &mut Bytes, doc: &Doc) -> Result<(), AllocError>
    requires { IsValid doc.now }
{
    let mut text = Bytes::new(alloc);
    write_doc(doc, &mut text)?;
    put_lines(out, &text)
}
