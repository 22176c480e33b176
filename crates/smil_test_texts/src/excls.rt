//! Calls of smil_excl.

ghost use Rattle.std.specs.Prelude.{◌≡◌, ◌+◌, ◌≤◌, ◌<◌, length};

use smil_excl::{Queue, decide};
use smil_model::{Act, Bytes, Class, Duplicate};
use smil_test_cases::{Fault, Words, natural, put_flag, put_maybe, put_word};
use std::alloc::{AllocError, Global};

/// `decide RANK PEERS HIGHER LOWER NEWCOMER`: what the class of the playing child does with a
/// newcomer of a rank.
pub fn decided(words: &mut Words<'_>, out: &mut Bytes) -> Result<(), Fault> {
    let playing = Class {
        rank: words.natural()?,
        peers: act(words.word()?)?,
        higher: act(words.word()?)?,
        lower: act(words.word()?)?,
    };
    let newcomer = words.natural()?;
    let word = match decide(playing, newcomer) {
        Act::Stop => "stop",
        Act::Pause => "pause",
        Act::Defer => "defer",
        Act::Never => "never",
    };
    Ok(put_word(out, word)?)
}

// What a class does with a newcomer, by its word.
fn act(word: &str) -> Result<Act, Fault> {
    match word {
        "stop" => Ok(Act::Stop),
        "pause" => Ok(Act::Pause),
        "defer" => Ok(Act::Defer),
        "never" => Ok(Act::Never),
        _ => Err(Fault::Refused),
    }
}

// A step of a queue.
#[derive(Clone, Copy)]
enum Move {
    Pause { who: u32, rank: u32 },
    Defer { who: u32, rank: u32 },
    First,
    Leave { who: u32 },
}

// `pWHO,RANK` for a paused child, `dWHO,RANK` for a deferred one, `lWHO` for one that leaves, `t`
// to take the first.
fn move_of(word: &str) -> Result<Move, Fault> {
    if word == "t" {
        Ok(Move::First)
    } else if let Some(rest) = word.strip_prefix('l') {
        Ok(Move::Leave {
            who: natural(rest)?,
        })
    } else if let Some(rest) = word.strip_prefix('p') {
        let (who, rank) = child(rest)?;
        Ok(Move::Pause { who, rank })
    } else if let Some(rest) = word.strip_prefix('d') {
        let (who, rank) = child(rest)?;
        Ok(Move::Defer { who, rank })
    } else {
        Err(Fault::Refused)
    }
}

// The serial and the rank of a child.
fn child(word: &str) -> Result<(u32, u32), Fault> {
    let mut parts = Words::of_word(word);
    let who = parts.natural()?;
    let rank = parts.natural()?;
    Ok((who, rank))
}

/// `queue STEP..`: what each step answers, and in the end the children of the queue, the next one
/// first.
pub fn queue(alloc: Global, words: &mut Words<'_>, out: &mut Bytes) -> Result<(), Fault> {
    let room = words.rest().len();
    let mut queue = Queue::new(alloc, room)?;
    let mut held = 0;
    for word in words.rest().split(' ') {
        if held == room {
            return Err(Fault::Refused);
        }
        take(&mut queue, move_of(word)?, out)?;
        held += 1;
    }
    let mut copy = queue.copy()?;
    drain(&mut copy, held, out)?;
    Ok(())
}

// One step.
#[tactic(auto, using(crate::proofs::QueueLengths::put_longer, crate::proofs::QueueLengths::without_shorter))]
fn take(queue: &mut Queue, next: Move, out: &mut Bytes) -> Result<(), AllocError>
    requires { length queue.old.held < queue.old.room }
    ensures held { length queue.new.held ≤ length queue.old.held + 1 }
    ensures room { queue.new.room ≡ queue.old.room }
{
    match next {
        Move::Pause { who, rank } => queue.pause(who, rank),
        Move::Defer { who, rank } => queue.defer(who, rank),
        Move::First => put_maybe(out, queue.take_first())?,
        Move::Leave { who } => put_flag(out, queue.leave(who))?,
    }
    Ok(())
}

// Takes out all children, of which there are so many at most.
fn drain(queue: &mut Queue, most: usize, out: &mut Bytes) -> Result<(), AllocError> {
    put_word(out, "/")?;
    for _ in 0..most {
        if let Some(who) = queue.take_first() {
            put_maybe(out, Some(who))?;
        }
    }
    Ok(())
}
