//! Serves sessions over memory and tells how each went: the worked sessions, as a run.
//!
//! The standard input is a list of sessions. A header begins one, its input stands below, and it is
//! served at its `end`:
//!
//!     session run chunk=3 writes=2
//!     |load d
//!     |par dur="1s"
//!     crlf|%%
//!     open|d text
//!     end
//!
//! | Line | What it says |
//! |---|---|
//! | `session WORD..` | a session with these words of the program, whose input is read in pieces |
//! | .. `chunk=N` | a read gives at most N bytes, 1 at least; 4,096 where this is left out |
//! | .. `room=N` | N bytes may be written, and no write that passes them; 65,536 where left out |
//! | .. `reads=N,N..` `writes=N,N..` | the reads and the writes that fail, counted from 1 |
//! | `\|TEXT` | a line of the input that ends with a line feed |
//! | `crlf\|TEXT` | one that ends with a carriage return and a line feed |
//! | `open\|TEXT` | one that ends with neither |
//! | `end` | the session is served |
//! | `turns WORD..` | a session that is read line by line |
//! | `N\|TEXT` | a line and a line feed, read where just N bytes of answers were taken; else a fault |
//! | `end N` | the input ends if N bytes of answers were taken; the session is served |
//! | `held` | a session that a host holds; it has no words |
//! | `\|TEXT` | a line that the host gives it, without an end |
//! | `call\|TEXT` | the order that this line says, given by a call |
//! | `load\|HEAD\|LINE..` | a load by a call: the line that opens it, and those of its outline |
//! | `close\|NAME` | the presentation of this name is closed by a call |
//! | `fault\|` | the host asks where the last call was refused |
//! | `moment\|NAME` | the host asks at which moment the presentation of this name is |
//! | `next\|NAME` | .. and at which moment something comes next in it |
//! | `end` | all that is asked is answered |
//!
//! An empty line and one that begins with `#` say nothing. Of each session are written `session`
//! and the number of its header among all headers, the transcript as it was taken, and `exit` with
//! the exit number. Of one that a host holds, which has no exit number, the answers to its lines are
//! written, and each moment that was asked for, with `-` where there is none; of an order by a call
//! its records, as change lines with serials, and `ok` with the moment, or the refusal; of a load and
//! a close the same without the moment, and of a fault its line and its column. A line that has no
//! reading is left out, and told as `refused` with its number among the lines; so is a header whose
//! session has no end. `memory` in place of `refused` says that memory ran out at the line.
#![tactic(auto)]

mod hosting;
mod listing;
mod pieces;
mod reporting_sink;
mod serving;
mod session;
mod turns;
mod waiting_source;

use listing::Listing;
use smil_model::Bytes;
use smil_test_cases::answer_lines;
use std::io::{self, BufWriter, Write};

fn main(rt: HostRuntime) -> io::Result<()> {
    let alloc = rt.alloc();
    let mut out = BufWriter::new(alloc, io::writer(&rt))?;
    let mut listing = Listing::new();
    answer_lines(alloc, rt.reader(), &mut out, |line, told| {
        listing.take(alloc, line, told)
    })?;
    let mut told = Bytes::new(alloc);
    listing.finish(&mut told)?;
    out.write_all(told.slice())?;
    out.flush()
}
