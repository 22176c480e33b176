//! The part of a log that the first entries of a diary name, and the moment of the last of these.

ghost use Rattle.std.specs.Prelude.{◌≡◌, ◌≤◌, length, take, IfOk};
ghost use Rattle.smil_model.specs.diary.Diary.{last_moment as model_last_moment};
ghost use Rattle.smil_laws.specs.Cut.{is_logged as is_logged_step, logged};
ghost use Rattle.smil_cells.specs.CellsState.{cut_log};

use smil_diary::Book;
use smil_model::{Duplicate, Log, Step};
use smil_past::Past;
use std::alloc::{AllocError, Global};

/// The log entries that the first entries of a diary name, unless memory runs out.
pub fn heard_log(alloc: Global, log: &Log, book: &Book, len: usize) -> Result<Log, AllocError>
    requires { len ≤ length book.now }
    ensures { IfOk result (λ heard. heard ≡ cut_log log.now (take len book.now)) }
{
    first_of(alloc, log, logged_among(book, len))
}

/// The moment of the last entry of what has happened, in milliseconds of document time; 0 where
/// there is none. It takes no memory.
pub fn last_moment(past: &Past) -> i64
    ensures { result ≡ model_last_moment past.now.diary }
{
    past.possible();
    match past.book().entries().last() {
        Some(entry) => entry.moment,
        None => 0,
    }
}

/// How many of the first entries of a diary name a log entry. It takes no memory.
pub fn logged_among(book: &Book, len: usize) -> usize
    requires { len ≤ length book.now }
    ensures { result ≡ logged (take len book.now) }
{
    let first = &book.entries()[..len];
    first.iter().filter(|entry| is_logged(entry.step)).count()
}

// Whether a step names a log entry.
fn is_logged(step: Step) -> bool
    ensures { result ≡ is_logged_step step }
{
    matches!(step, Step::Logged { .. })
}

// A copy of the first entries of a log.
fn first_of(alloc: Global, log: &Log, count: usize) -> Result<Log, AllocError>
    ensures { IfOk result (λ first. first ≡ take count log.now) }
{
    let mut first = Log::new(alloc);
    let many = count.min(log.len());
    for entry in &log.slice()[..many] {
        first.push(entry.copy()?)?;
    }
    Ok(first)
}
