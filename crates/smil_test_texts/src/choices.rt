//! Calls of smil_switch.

use smil_model::{Bytes, Refusal, TEXT_BYTES};
use smil_switch::{Chooser, Chosen, Preferences};
use smil_test_cases::{Fault, Words, put, put_fault, put_flag, put_number, put_word};
use std::alloc::{AllocError, Global};

/// `prefer WORD VALUE`: whether the value has a reading for the word.
pub fn prefer(alloc: Global, words: &mut Words<'_>, out: &mut Bytes) -> Result<(), Fault> {
    let mut preferences = Preferences::new(alloc)?;
    let word = words.word()?;
    let read = preferences.prefer(word.as_bytes(), words.rest().as_bytes())?;
    Ok(put_flag(out, read)?)
}

/// `choose WORD VALUE LINE|LINE|..`: with this preference, or with none where WORD is `-`, what
/// becomes of each line: `-` for one that is dropped, how many levels higher it stands and the line
/// itself for one that is kept; and the refusal of the first line that is refused.
pub fn choose(alloc: Global, words: &mut Words<'_>, out: &mut Bytes) -> Result<(), Fault> {
    let mut preferences = Preferences::new(alloc)?;
    let word = words.word()?;
    let value = words.word()?;
    if word != "-" && !preferences.prefer(word.as_bytes(), value.as_bytes())? {
        return Err(Fault::Refused);
    }
    let mut chooser = Chooser::new(alloc, &preferences)?;
    for line in words.rest().split('|') {
        if line.len() >= TEXT_BYTES {
            return Err(Fault::Refused);
        }
        match chooser.push(line.as_bytes()) {
            Ok(chosen) => put_chosen(out, chosen, chooser.line())?,
            Err(refusal) => return refused(out, refusal),
        }
    }
    Ok(())
}

// What becomes of a line.
fn put_chosen(out: &mut Bytes, chosen: Chosen, line: &[u8]) -> Result<(), AllocError> {
    match chosen {
        Chosen::Dropped => put_word(out, "-"),
        Chosen::Kept { removed } => {
            put_number(out, removed)?;
            put(out, "|")?;
            out.append(line)
        }
    }
}

// The refusal of a line.
fn refused(out: &mut Bytes, refusal: Refusal) -> Result<(), Fault> {
    Ok(put_fault(out, refusal.word(), refusal.column())?)
}
