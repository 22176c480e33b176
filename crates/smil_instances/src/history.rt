//! What has happened to a document.

use smil_diary::Book;
use smil_model::Log;
use smil_tree::Tree;

/// What has happened to a document: the document, what came from outside, and the diary.
#[derive(Clone, Copy)]
pub struct DocumentHistory<'a> {
    pub tree: &'a Tree,
    pub log: &'a Log,
    pub book: &'a Book,
}
