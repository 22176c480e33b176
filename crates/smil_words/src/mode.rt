//! What the words ask for.

ghost use Rattle.std.specs.Prelude.{◌≡◌};
ghost use Rattle.std.specs.Result.{result_ok};
ghost use Rattle.smil_words.specs.Words.{mode_of, of_one, of_two, session_number};

use smil_lexis::numbers::short;
use smil_lexis::texts::is;
use smil_model::WordList;

/// The greatest number of a session that `gen` runs.
pub const SESSIONS: u32 = 900;

/// The greatest number of digits of a session's number.
pub const SESSION_DIGITS: usize = 3;

/// What the program is to do.
#[derive(Clone, Copy)]
pub enum Mode {
    /// Answer the session's orders.
    Run,
    /// Answer each load with its outline.
    Check,
    /// Run the session of this number, from 1 to `SESSIONS`.
    Gen(u32),
    /// Tell whether a diary is that of its document and its log.
    Audit,
}

/// The words are none that the program knows.
#[derive(Clone, Copy)]
pub struct Words;

/// What the words ask for: exactly `run`, `check`, `audit`, or `gen` and a number from 1 to
/// `SESSIONS`, of digits without a leading 0. Any other words are refused. It takes no memory.
pub fn read_words(words: &WordList) -> Result<Mode, Words>
    ensures { result_ok result ≡ mode_of words.now }
{
    let mode = match words.slice() {
        [word] => of_one(word.slice()),
        [word, digits] => of_two(word.slice(), digits.slice()),
        _ => None,
    };
    mode.ok_or(Words)
}

// What one word asks for.
fn of_one(word: &[u8]) -> Option<Mode>
    ensures { result ≡ of_one word.now }
{
    if is(word, b"run") {
        Some(Mode::Run)
    } else if is(word, b"check") {
        Some(Mode::Check)
    } else if is(word, b"audit") {
        Some(Mode::Audit)
    } else {
        None
    }
}

// What two words ask for.
fn of_two(word: &[u8], digits: &[u8]) -> Option<Mode>
    ensures { result ≡ of_two word.now digits.now }
{
    if is(word, b"gen") {
        Some(Mode::Gen(session_number(digits)?))
    } else {
        None
    }
}

// The number of a session: one to `SESSION_DIGITS` digits, the first not 0.
fn session_number(digits: &[u8]) -> Option<u32>
    ensures { result ≡ session_number digits.now }
{
    let first = digits.first()?;
    if *first == b'0' || SESSION_DIGITS < digits.len() {
        return None;
    }
    let number = short(digits)?;
    if 1 <= number && number <= SESSIONS {
        Some(number)
    } else {
        None
    }
}
