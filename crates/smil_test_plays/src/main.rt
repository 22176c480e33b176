//! Reads cases from the standard input, one a line: a word that names what is done with a document,
//! its outline, and the orders by which it is edited or played. Writes what comes of it to the
//! standard output, a line for each case: `refused` where a case has no reading, or where a call
//! may not be made with its arguments.
#![tactic(auto)]

mod documents;
mod edits;
mod graphs;
mod moments;
mod orders;
mod plays;
mod trees;

use smil_model::Bytes;
use smil_test_cases::{Cases, Fault, Words, answer_cases};
use std::alloc::Global;
use std::io;

fn main(rt: HostRuntime) -> io::Result<()> {
    answer_cases::<Calls, _, _>(rt.alloc(), rt.reader(), io::writer(&rt))
}

// The calls that cases ask for by their words.
struct Calls;

impl Cases for Calls {
    fn answer(alloc: Global, words: &mut Words<'_>, out: &mut Bytes) -> Result<(), Fault> {
        match words.word()? {
            "graph" => graphs::graph(alloc, words, out),
            "tree" => trees::tree(alloc, words, out),
            "play" => plays::play(alloc, words, out),
            _ => Err(Fault::Refused),
        }
    }
}
