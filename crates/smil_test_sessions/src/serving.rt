//! Sessions, served.

ghost use Rattle.std.specs.Prelude.{◌≡◌, ◌<◌};

use super::pieces::{Pieces, ROOM};
use super::reporting_sink::ReportingSink;
use super::session::{Input, Session};
use super::turns::Turns;
use super::waiting_source::WaitingSource;
use smil_interval::Steps;
use smil_model::{Bytes, WordList};
use smil_outside::{MemSink, MemSource, Sink, Source};
use smil_test_cases::Fault;
use smil_top::{Call, Status, serve};
use std::alloc::{AllocError, Global};
use std::cell::Cell;
use std::marker::Brand;
use std::sync::ledger::{Blank, Ledger};

/// Serves a session, appends its transcript, and gives its status; none where a host holds it,
/// since then it doesn't end.
pub fn serve_session(
    alloc: Global,
    session: &Session,
    told: &mut Bytes,
) -> Result<Option<Status>, Fault> {
    match &session.input {
        Input::Pieces(pieces) => Ok(Some(serve_pieces(alloc, &session.words, pieces, told)?)),
        Input::Turns(turns) => Ok(Some(serve_turns(alloc, &session.words, turns, told)?)),
        Input::Requests(requests) => {
            requests.answer(alloc, told)?;
            Ok(None)
        }
    }
}

// Serves a session whose input is read in pieces.
fn serve_pieces(
    alloc: Global,
    words: &WordList,
    pieces: &Pieces,
    told: &mut Bytes,
) -> Result<Status, AllocError> {
    let text = pieces.text.slice();
    let mut source = MemSource::new(alloc, text, pieces.chunk, pieces.reads.as_slice())?;
    let mut sink = MemSink::new(alloc, pieces.room, pieces.writes.as_slice())?;
    let status = status_of(&Call { alloc, words }, &mut source, &mut sink);
    told.append(sink.bytes())?;
    Ok(status)
}

// Serves a session that is read line by line.
fn serve_turns(
    alloc: Global,
    words: &WordList,
    turns: &Turns,
    told: &mut Bytes,
) -> Result<Status, AllocError> {
    let taken = Cell::new(0);
    let mut source = WaitingSource::new(turns, &taken);
    let mut sink = ReportingSink {
        sink: MemSink::new(alloc, ROOM, &[])?,
        taken: &taken,
    };
    let status = status_of(&Call { alloc, words }, &mut source, &mut sink);
    told.append(sink.sink.bytes())?;
    Ok(status)
}

// How a session ends.
fn status_of<S: Source, K: Sink>(call: &Call<'_>, source: &mut S, sink: &mut K) -> Status {
    counted::<_, _, Brand>(call, Blank::new(1), source, sink)
}

// How a session ends whose evaluations are counted from 0.
fn counted<S: Source, K: Sink, L: Ledger>(
    call: &Call<'_>,
    blank: Blank,
    source: &mut S,
    sink: &mut K,
) -> Status
    requires name { blank.name ≡ L.name }
    requires parts { blank.parts ≡ L.parts }
    requires backed { 0 < blank.parts }
{
    let mut steps = Steps::<L>::new(blank);
    serve(call.alloc, call.words, source, sink, &mut steps)
}
