//! The parts of a presentation by which groups are told.

use smil_diary::Book;
use smil_past::Queues;
use smil_stretch::Clocks;
use smil_tree::Tree;

/// The parts of a presentation by which the group of a happening is told: the document, the diary
/// so far, the clocks and the queues that these give, and the moment at which it happens, in
/// milliseconds of document time.
#[derive(Clone, Copy)]
pub struct Parts<'a> {
    pub tree: &'a Tree,
    pub book: &'a Book,
    pub clocks: &'a Clocks,
    pub queues: &'a Queues,
    pub moment: i64,
}
