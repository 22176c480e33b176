//! The search for the end of a line.

ghost use Rattle.std.specs.Prelude.{◌≡◌, ◌≢◌, ◌+◌, ◌-◌, ◌<◌, ◌≤◌, [], length, drop, MatchBool};
ghost use Rattle.smil_outside.specs.Faults.{HasRisen};
ghost use Rattle.smil_outside.specs.Scan.{Scans};

use crate::failed::Failed;
use crate::line::INPUT_BYTES;
use crate::source::Source;
use crate::window::{WINDOW_BYTES, Window};
use smil_model::LINE_BYTES;

/// Where a scan stopped.
#[derive(Clone, Copy)]
pub(crate) enum Stop {
    /// At the first line feed, at this place of the window.
    LineFeed(usize),
    /// At the end of the input.
    InputEnd,
    /// Behind the most bytes that an input may have.
    InputTooLong,
    /// At a fault of the source.
    Fault,
}

/// How a scan ended.
#[derive(Clone, Copy)]
pub(crate) struct Scan {
    pub(crate) stop: Stop,
    /// Whether the front of a line that is too long was dropped.
    pub(crate) is_long: bool,
}

/// Reads on until a line feed stands in the window, or nothing more comes.
pub(crate) fn seek_line_end<S: Source>(
    window: &mut Window,
    taken: &mut usize,
    source: &mut S,
) -> Scan
    requires line { window.old.line ≡ [] }
    requires taken { taken.old ≤ INPUT_BYTES + WINDOW_BYTES }
    ensures scans { Scans window.old.bytes window.new.bytes taken.old taken.new result
        (S.rest source.old) (S.rest source.new) }
    ensures line { window.new.line ≡ [] }
    ensures taken { taken.new ≤ INPUT_BYTES + WINDOW_BYTES }
    ensures kept { result.stop ≢ Stop.Fault → S.faults source.new ≡ S.faults source.old }
    ensures cause { result.stop ≡ Stop.Fault
        → HasRisen (S.faults source.old) (S.faults source.new) }
    ensures sure { S.never_fails source.old
        → S.never_fails source.new × (result.stop ≢ Stop.Fault) }
{
    let mut is_long = false;
    let mut scanned = 0;
    let stop = loop {
        if let Some(at) = window.line_feed(scanned) {
            break Stop::LineFeed(at);
        }
        if *taken > INPUT_BYTES {
            break Stop::InputTooLong;
        }
        is_long |= drop_front(window);
        scanned = window.bytes().len();
        match window.fill(source, INPUT_BYTES - *taken) {
            Err(Failed) => break Stop::Fault,
            Ok(0) => break Stop::InputEnd,
            Ok(n) => *taken += n,
        }
    };
    Scan { stop, is_long }
}

// Drops the front of a line that is too long, and says whether it did. The last byte stays: it
// may be the carriage return before the line feed.
fn drop_front(window: &mut Window) -> bool
    ensures { let len = length window.old.bytes in MatchBool result
        ((LINE_BYTES + 1 < len)
        × (window.new ≡ record { line = []; bytes = drop (len - 1) window.old.bytes }))
        ((len ≤ LINE_BYTES + 1) × (window.new ≡ window.old)) }
{
    let len = window.bytes().len();
    if len <= LINE_BYTES + 1 {
        return false;
    }
    window.cut(0, len - 1);
    true
}
