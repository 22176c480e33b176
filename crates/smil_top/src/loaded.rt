//! What the lines of a load give.

ghost use Rattle.std.specs.Prelude.{◌≤◌, length};
ghost use Rattle.smil_model.specs.declared.limits.TheConstants.{NAME_BYTES};

use super::loading::Loading;
use smil_model::{Bytes, Doc};

/// A presentation's name, the instant of its moment 0 where its load gives one, and the load's
/// lines so far.
#[derive(Drop)]
pub(crate) struct NamedLines {
    pub name: Bytes,
    pub start: Option<i64>,
    pub lines: Loading,
    ghost short: { length name ≤ NAME_BYTES },
}

/// What a load gives: the name, the document, and the version of the outline, 1 or 2.
#[derive(Drop)]
pub(crate) struct LoadedDoc {
    pub name: Bytes,
    pub doc: Doc,
    pub version: u32,
    ghost short: { length name ≤ NAME_BYTES },
}
