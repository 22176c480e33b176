//! A session as it is asked for.

use super::hosting::Requests;
use super::pieces::Pieces;
use super::turns::Turns;
use smil_model::{Bytes, WordList};
use smil_test_cases::Fault;
use std::alloc::Global;

/// A session: the words that the program is called with, and its input.
#[derive(Drop)]
pub struct Session {
    pub words: WordList,
    pub input: Input,
}

/// The input of a session.
#[derive(Drop)]
pub enum Input {
    /// It is read in pieces.
    Pieces(Pieces),
    /// It is read line by line, each once the answers before it were taken.
    Turns(Turns),
    /// A host holds the session, gives it its lines and asks what it wants to know.
    Requests(Requests),
}

impl Session {
    /// A session that is read in pieces, by the words and options of its header.
    pub fn in_pieces(alloc: Global, header: &str) -> Result<Session, Fault> {
        let mut words = WordList::new(alloc);
        let mut pieces = Pieces::new(alloc);
        for word in header.split_ascii_whitespace() {
            match word.split_once('=') {
                Some((name, value)) => pieces.set(alloc, name, value)?,
                None => words.push(Bytes::of(alloc, word.as_bytes())?)?,
            }
        }
        Ok(Session {
            words,
            input: Input::Pieces(pieces),
        })
    }

    /// A session that is read line by line, by the words of its header. It takes no option.
    pub fn in_turns(alloc: Global, header: &str) -> Result<Session, Fault> {
        if header.contains('=') {
            return Err(Fault::Refused);
        }
        let mut words = WordList::new(alloc);
        for word in header.split_ascii_whitespace() {
            words.push(Bytes::of(alloc, word.as_bytes())?)?;
        }
        Ok(Session {
            words,
            input: Input::Turns(Turns::new(alloc)),
        })
    }

    /// A session that a host holds. Its header has no word behind the first.
    pub fn of_host(alloc: Global, header: &str) -> Result<Session, Fault> {
        if !header.is_empty() {
            return Err(Fault::Refused);
        }
        Ok(Session {
            words: WordList::new(alloc),
            input: Input::Requests(Requests::new(alloc)),
        })
    }

    /// Adds a line to the input: its text stands behind the first `|`, and what stands before that
    /// says how the line is given.
    pub fn add(&mut self, alloc: Global, line: &str) -> Result<(), Fault> {
        let Some((mark, text)) = line.split_once('|') else {
            return Err(Fault::Refused);
        };
        match &mut self.input {
            Input::Pieces(pieces) => pieces.add(mark, text),
            Input::Turns(turns) => turns.add(alloc, mark, text),
            Input::Requests(requests) => requests.add(alloc, mark, text),
        }
    }

    /// Ends the input, by what stands behind the word `end`.
    pub fn end(&mut self, behind: &str) -> Result<(), Fault> {
        match &mut self.input {
            Input::Turns(turns) => turns.end(behind),
            Input::Pieces(_) | Input::Requests(_) if behind.is_empty() => Ok(()),
            Input::Pieces(_) | Input::Requests(_) => Err(Fault::Refused),
        }
    }
}
