//! Calls of smil_endsync.

use smil_endsync::{ChildEnd, implicit};
use smil_model::{Bytes, Endsync, Kind};
use smil_test_cases::{Fault, Words, put_time};
use std::alloc::Global;

/// `endsync KIND RULE START CHILD..`, where RULE is `last`, `first`, `all` or `child`, and CHILD
/// `NAMED,FIRST,LATEST`.
pub fn implicit_by(alloc: Global, words: &mut Words<'_>, out: &mut Bytes) -> Result<(), Fault> {
    let kind = container(words.word()?)?;
    let rule = match words.word()? {
        "last" => Endsync::Last,
        "first" => Endsync::First,
        "all" => Endsync::All,
        "child" => Endsync::Child(Bytes::new(alloc)),
        _ => return Err(Fault::Refused),
    };
    let start = words.number()?;
    let ends = words.values(alloc, "", child)?;
    put_time(out, implicit(kind, &rule, start, ends.as_slice()))?;
    Ok(())
}

// The kind of a container.
fn container(word: &str) -> Result<Kind, Fault> {
    match word {
        "par" => Ok(Kind::Par),
        "seq" => Ok(Kind::Seq),
        "excl" => Ok(Kind::Excl),
        _ => Err(Fault::Refused),
    }
}

// The ends of a child.
fn child(word: &str) -> Result<ChildEnd, Fault> {
    let mut parts = Words::of_word(word);
    let named = parts.flag()?;
    let first = parts.maybe_time()?;
    let latest = parts.maybe_time()?;
    Ok(ChildEnd {
        named,
        first,
        latest,
    })
}
