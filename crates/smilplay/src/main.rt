//! Reads a session of script lines from the standard input and writes its transcript to the
//! standard output, or does what else the words ask for.
#![tactic(auto)]

ghost use Rattle.std.specs.Prelude.{◌≡◌, ◌≢◌, ◌<◌, ◌≤◌, drop, map, false, string_bytes, IfOk};
ghost use Rattle.std.specs.Process.{exit_status};
ghost use Rattle.smil_outside.specs.Faults.{HasRisen};
ghost use Rattle.smil_top.specs.declared.status.Status.{Status};
ghost use Rattle.smil_words.specs.Words.{mode_of};
ghost use Rattle.smil_top.specs.Serving.{Serves, reads};
ghost use Rattle.smil_top.specs.Words.{exit_number_of};

mod batch;

use batch::Batch;
use smil_interval::Steps;
use smil_model::{Bytes, WordList};
use smil_outside::{Sink, Source, StdSink, StdSource};
use smil_top::{Call, serve};
use std::alloc::{AllocError, Global};
use std::io::ErrorKind;
use std::marker::Brand;
use std::process::ExitCode;
use std::rt::Env;
use std::sync::ledger::{Blank, Ledger};
use std::{env, io};

// The exit number where there is no memory for the words or for what is kept back.
const NO_MEMORY: u8 = 5;

// The exit number where a word can't be read.
const UNREADABLE_WORD: u8 = 7;

fn main(rt: HostRuntime) -> ExitCode {
    let words = match words(&rt) {
        Ok(words) => words,
        Err(error) if error.kind() == ErrorKind::OutOfMemory => return ExitCode::from(NO_MEMORY),
        Err(_) => return ExitCode::from(UNREADABLE_WORD),
    };
    let Ok(writer) = Batch::new(rt.alloc(), io::writer(&rt)) else {
        return ExitCode::from(NO_MEMORY);
    };
    let call = Call {
        alloc: rt.alloc(),
        words: &words,
    };
    let mut source = StdSource::new(rt.reader());
    let mut sink = StdSink::new(writer);
    play::<_, _, Brand>(&call, Blank::new(1), &mut source, &mut sink)
}

// The words after the program's name.
fn words<R: Env + AllocGlobal>(rt: &R) -> io::Result<WordList> {
    let args: Vec<String> = env::args(rt)?.collect(rt.alloc())?;
    Ok(word_list(rt.alloc(), &args)?)
}

// The words behind the first argument, which is the program's name; unless memory runs out.
fn word_list(alloc: Global, args: &[String]) -> Result<WordList, AllocError>
    ensures { IfOk result (λ words. words ≡ map string_bytes (drop 1 args.now)) }
{
    let mut words = WordList::new(alloc);
    let Some((_, behind)) = args.split_first() else {
        return Ok(words);
    };
    for word in behind {
        words.push(Bytes::of(alloc, word.as_bytes())?)?;
    }
    Ok(words)
}

// Serves the input, and gives the exit number. Nothing is told of the count of evaluations.
fn play<S: Source, K: Sink, L: Ledger>(
    call: &Call<'_>,
    blank: Blank,
    source: &mut S,
    sink: &mut K,
) -> ExitCode
    requires name { blank.name ≡ L.name }
    requires parts { blank.parts ≡ L.parts }
    requires backed { 0 < blank.parts }
    ensures serves { (status : Status) × (exit_status result ≡ exit_number_of status)
        × Serves (mode_of call.now.words.now) status
        (S.rest source.old) (S.rest source.new) (K.taken sink.old) (K.taken sink.new)
        (K.sure_room sink.old) }
    ensures unread { reads (mode_of call.now.words.now) ≡ false → source.new ≡ source.old }
    ensures read_kept { exit_status result ≢ 3 → S.faults source.new ≡ S.faults source.old }
    ensures read_cause { exit_status result ≡ 3
        → HasRisen (S.faults source.old) (S.faults source.new) }
    ensures write_kept { exit_status result ≢ 4 → K.faults sink.new ≡ K.faults sink.old }
    ensures write_cause { exit_status result ≡ 4
        → HasRisen (K.faults sink.old) (K.faults sink.new) }
    ensures sure { S.never_fails source.old → exit_status result ≢ 3 }
    ensures bound { exit_status result ≤ 6 }
{
    let mut steps = Steps::<L>::new(blank);
    let status = serve(call.alloc, call.words, source, sink, &mut steps);
    ExitCode::from(status.exit_number())
}
