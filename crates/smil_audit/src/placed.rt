//! Log entries in their places.

ghost use Rattle.std.specs.Prelude.{◌≡◌, ◌≤◌, pos, length, take, true};
ghost use Rattle.smil_laws.specs.Cut.{is_logged as is_logged_step, logged as logged_in};
ghost use Rattle.smil_audit.specs.Verdict.{heard_at, is_in_place, placed};

use smil_model::{Entry, Step};

/// How many entries stand before the first log entry that is earlier than the one before it, or
/// later than the last moment. It takes no memory.
pub fn placed_len(entries: &[Entry], last: i64) -> usize
    ensures placed { take result entries.now ≡ placed (pos 0) last entries.now }
    ensures within { result ≤ length entries.now }
{
    let mut from = 0;
    for (index, entry) in entries.iter().enumerate() {
        if !is_in_place(from, last, *entry) {
            return index;
        }
        from = heard_at(from, *entry);
    }
    entries.len()
}

/// How many log entries a diary names. It takes no memory.
pub fn logged(entries: &[Entry]) -> usize
    ensures { result ≡ logged_in entries.now }
{
    entries.iter().filter(|entry| is_logged(entry.step)).count()
}

// Whether a step names a log entry.
fn is_logged(step: Step) -> bool
    ensures { result ≡ is_logged_step step }
{
    matches!(step, Step::Logged { .. })
}

// Whether an entry, if it names a log entry, is from the moment of the log entry before it to the
// last moment.
fn is_in_place(from: i64, last: i64, entry: Entry) -> bool
    ensures { result ≡ is_in_place from last entry }
{
    !is_logged(entry.step) || from <= entry.moment && entry.moment <= last
}

// The moment of the last log entry, once an entry has come.
fn heard_at(from: i64, entry: Entry) -> i64
    ensures { result ≡ heard_at from entry }
{
    if is_logged(entry.step) {
        entry.moment
    } else {
        from
    }
}
