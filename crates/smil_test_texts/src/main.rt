//! Reads cases from the standard input, one a line: a word that names a call and its arguments.
//! Writes what the call answers to the standard output, a line for each case: `refused` where a
//! case has no reading, or where the call may not be made with its arguments.
#![tactic(auto)]

mod choices;
mod diaries;
mod dues;
mod durations;
mod ends;
mod entries;
mod excls;
mod outlines;
mod rising;
mod scripts;
mod searches;
mod texts;
mod times;
mod views;
mod walls;

use smil_model::Bytes;
use smil_test_cases::{Cases, Fault, Words, answer_cases};
use std::alloc::Global;
use std::io;

fn main(rt: HostRuntime) -> io::Result<()> {
    answer_cases::<Calls, _, _>(rt.alloc(), rt.reader(), io::writer(&rt))
}

// The calls that cases ask for by their words.
struct Calls;

impl Cases for Calls {
    fn answer(alloc: Global, words: &mut Words<'_>, out: &mut Bytes) -> Result<(), Fault> {
        match words.word()? {
            "later" => times::later_by(words, out),
            "order" => times::order(words, out),
            "clock" => texts::clock(words, out),
            "list" => texts::list(alloc, words, out),
            "node" => texts::node(alloc, words, out),
            "script" => scripts::script(alloc, words, out),
            "simple" => durations::simple_of(alloc, words, out),
            "intermediate" => durations::intermediate_of(alloc, words, out),
            "active-end" => durations::active_end_of(alloc, words, out),
            "outline" => outlines::outline(alloc, words, out),
            "interval" => searches::interval(alloc, words, out),
            "endsync" => ends::implicit_by(alloc, words, out),
            "view" => views::viewed(words, out),
            word => answer_lines(alloc, word, words, out),
        }
    }
}

// Answers a case on a line that is rewritten, chosen or read as a diary's.
fn answer_lines(
    alloc: Global,
    word: &str,
    words: &mut Words<'_>,
    out: &mut Bytes,
) -> Result<(), Fault> {
    match word {
        "instant" => walls::instant(words, out),
        "anchor" => walls::anchored(words, out),
        "rewrite" => walls::rewritten(alloc, words, out),
        "prefer" => choices::prefer(alloc, words, out),
        "choose" => choices::choose(alloc, words, out),
        "entry" => entries::entry(alloc, words, out),
        word => answer_lists(alloc, word, words, out),
    }
}

// Answers a case on a queue, a diary or a line of a transcript.
fn answer_lists(
    alloc: Global,
    word: &str,
    words: &mut Words<'_>,
    out: &mut Bytes,
) -> Result<(), Fault> {
    match word {
        "decide" => excls::decided(words, out),
        "queue" => excls::queue(alloc, words, out),
        "before" => dues::before(words, out),
        "least-key" => dues::least_key(alloc, words, out),
        "due" => dues::due(alloc, words, out),
        "book" => diaries::book(alloc, words, out),
        "change" => views::change(words, out),
        "gone" => views::gone(words, out),
        "history" => views::history(words, out),
        "ok" => views::ok(words, out),
        "closed" => views::closed(words, out),
        "refusal" => views::refused(words, out),
        _ => Err(Fault::Refused),
    }
}
