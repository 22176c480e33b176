//! What a call of the program is made with.

use smil_model::WordList;
use std::alloc::Global;

/// Where a call takes its memory, and its words.
#[derive(Clone, Copy)]
pub struct Call<'a> {
    pub alloc: Global,
    pub words: &'a WordList,
}
