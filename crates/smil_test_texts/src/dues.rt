//! Calls of smil_due.

use smil_due::{DueQueue, comes_before, least_scan};
use smil_model::{Bytes, Duplicate, Key};
use smil_test_cases::{Fault, Words, number, put_flag, put_number, put_word};
use std::alloc::{AllocError, Global};

// A key as `VALUE,CLASS,POSITION,SERIAL,REPEAT`.
fn key(word: &str) -> Result<Key, Fault> {
    let mut parts = Words::of_word(word);
    Ok(Key {
        value: parts.number()?,
        class: number(parts.word()?)?,
        position: parts.natural()?,
        serial: parts.natural()?,
        repeat: parts.flag()?,
    })
}

// The value and the serial of a key, and whether it is a repeat, or `-` for none.
fn put_key(out: &mut Bytes, key: Option<Key>) -> Result<(), AllocError> {
    match key {
        Some(key) => {
            put_number(out, key.value)?;
            put_number(out, key.serial)?;
            put_flag(out, key.repeat)
        }
        None => put_word(out, "-"),
    }
}

/// `before KEY KEY`: whether the first comes before the second.
pub fn before(words: &mut Words<'_>, out: &mut Bytes) -> Result<(), Fault> {
    let first = key(words.word()?)?;
    let second = key(words.word()?)?;
    Ok(put_flag(out, comes_before(first, second))?)
}

/// `least-key KEY..`: the least of many keys.
pub fn least_key(alloc: Global, words: &mut Words<'_>, out: &mut Bytes) -> Result<(), Fault> {
    let keys = words.values(alloc, "", key)?;
    Ok(put_key(out, least_scan(keys.as_slice()))?)
}

/// `due STEP..`: `+KEY` puts a key, `-KEY` drops one, `?` asks for the least, `=` goes on with a
/// copy.
pub fn due(alloc: Global, words: &mut Words<'_>, out: &mut Bytes) -> Result<(), Fault> {
    let mut queue = DueQueue::new(alloc);
    for word in words.rest().split(' ') {
        take(&mut queue, word, out)?;
    }
    Ok(())
}

// One step.
fn take(queue: &mut DueQueue, word: &str, out: &mut Bytes) -> Result<(), Fault> {
    if let Some(rest) = word.strip_prefix('+') {
        Ok(queue.put(key(rest)?)?)
    } else if let Some(rest) = word.strip_prefix('-') {
        let dropped = queue.drop_key(key(rest)?);
        Ok(put_flag(out, dropped)?)
    } else if word == "?" {
        Ok(put_key(out, queue.least())?)
    } else if word == "=" {
        *queue = queue.copy()?;
        Ok(())
    } else {
        Err(Fault::Refused)
    }
}
