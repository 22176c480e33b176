//! Documents, read from outlines and written.

ghost use Rattle.std.specs.Prelude.{IfOk};
ghost use Rattle.smil_model.specs.document.Valid.{IsValid};

use smil_model::{Bytes, Doc};
use smil_outline::{Builder, write_doc_2};
use smil_test_cases::{Fault, put_gap, put_lines};
use std::alloc::{AllocError, Global};

/// The document of an outline, with `|` between its lines.
pub fn document(alloc: Global, text: &str) -> Result<Doc, Fault>
    ensures { IfOk result IsValid }
{
    let mut builder = Builder::new(alloc)?;
    for line in text.split('|') {
        builder.push(line.as_bytes())?;
    }
    let doc = builder.finish()?;
    Ok(doc)
}

/// A document with its serials, with `|` behind each line.
pub fn put_saved(alloc: Global, out: &mut Bytes, doc: &Doc) -> Result<(), AllocError>
    requires { IsValid doc.now }
{
    let mut text = Bytes::new(alloc);
    write_doc_2(doc, &mut text)?;
    put_gap(out)?;
    put_lines(out, &text)
}
