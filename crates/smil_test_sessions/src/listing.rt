//! The list of sessions, line by line.

use super::serving::serve_session;
use super::session::Session;
use smil_model::Bytes;
use smil_test_cases::{Fault, put, put_number};
use std::alloc::{AllocError, Global};

/// The list so far: how many lines and headers it had, and the session that is being read.
#[derive(Drop)]
pub struct Listing {
    lines: u64,
    headers: u64,
    open: Option<Open>,
}

// A session that has no end so far, with the line of its header.
#[derive(Drop)]
struct Open {
    line: u64,
    session: Session,
}

impl Listing {
    /// The list before its first line.
    pub fn new() -> Listing {
        Listing {
            lines: 0,
            headers: 0,
            open: None,
        }
    }

    /// Follows the next line, and appends what it makes the program tell.
    pub fn take(&mut self, alloc: Global, line: &str, told: &mut Bytes) -> Result<(), AllocError> {
        self.lines = self.lines.saturating_add(1);
        match self.follow(alloc, line, told) {
            Ok(()) => Ok(()),
            Err(fault) => put_line(told, fault.word(), self.lines),
        }
    }

    /// Tells a session that has no end.
    pub fn finish(&mut self, told: &mut Bytes) -> Result<(), AllocError> {
        match self.open.take() {
            Some(open) => put_line(told, Fault::Refused.word(), open.line),
            None => Ok(()),
        }
    }

    // Does what a line asks for.
    fn follow(&mut self, alloc: Global, line: &str, told: &mut Bytes) -> Result<(), Fault> {
        if line.is_empty() || line.starts_with('#') {
            return Ok(());
        }
        let (word, behind) = line.split_once(' ').unwrap_or((line, ""));
        match word {
            "session" => {
                self.begin(told)?;
                self.open(Session::in_pieces(alloc, behind)?);
                Ok(())
            }
            "turns" => {
                self.begin(told)?;
                self.open(Session::in_turns(alloc, behind)?);
                Ok(())
            }
            "held" => {
                self.begin(told)?;
                self.open(Session::of_host(alloc, behind)?);
                Ok(())
            }
            "end" => self.end(alloc, behind, told),
            _ => self.add(alloc, line),
        }
    }

    // Counts a header. The session before it, if it has no end, is told.
    fn begin(&mut self, told: &mut Bytes) -> Result<(), AllocError> {
        self.headers = self.headers.saturating_add(1);
        self.finish(told)
    }

    // Takes a session as the one that is being read.
    fn open(&mut self, session: Session) {
        self.open = Some(Open {
            line: self.lines,
            session,
        });
    }

    // Adds a line to the session that is being read.
    fn add(&mut self, alloc: Global, line: &str) -> Result<(), Fault> {
        let Some(open) = &mut self.open else {
            return Err(Fault::Refused);
        };
        open.session.add(alloc, line)
    }

    // Serves the session that is being read.
    fn end(&mut self, alloc: Global, behind: &str, told: &mut Bytes) -> Result<(), Fault> {
        let Some(mut open) = self.open.take() else {
            return Err(Fault::Refused);
        };
        open.session.end(behind)?;
        put_line(told, "session", self.headers)?;
        if let Some(status) = serve_session(alloc, &open.session, told)? {
            put_line(told, "exit", u64::from(status.exit_number()))?;
        }
        Ok(())
    }
}

// A line of a word and a number.
fn put_line(out: &mut Bytes, word: &str, number: u64) -> Result<(), AllocError> {
    put(out, word)?;
    put_number(out, number)?;
    out.push(b'\n')
}
