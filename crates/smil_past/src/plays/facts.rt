//! What is kept of one element.

use smil_model::Time;

/// A finished interval, in milliseconds: on the time parent's clock, and in document time.
#[derive(Clone, Copy)]
pub struct PastInterval {
    pub begin: i64,
    /// The end, or what the time parent's clock showed at the cut.
    pub finish: i64,
    pub shown_begin: i64,
    pub shown_finish: i64,
    pub was_cut: bool,
}

/// What a diary says of the plays of an element, in milliseconds. What each evaluation reads of it
/// stands first, close together.
#[derive(Clone, Copy)]
pub struct PlayFacts {
    /// The begin of the present play on the time parent's clock; None where there is none.
    pub begun: Option<i64>,
    /// The start of the last iteration, on the element's own clock.
    pub start: i64,
    /// The play start of the last play, on the element's own clock.
    pub first: i64,
    /// The number of the iteration of the last play since birth, from 0; 0 where there is none.
    pub iteration: u32,
    /// Whether the element is active and paused.
    pub paused: bool,
    /// Whether the element began since birth.
    pub began_since_birth: bool,
    /// The begin that an excl has deferred, in document time.
    pub shown_deferred: Option<i64>,
    /// The greatest begin since birth that an excl passed over, on the time parent's clock.
    pub passed: Option<i64>,
    /// The last interval that finished since birth.
    pub last_finished: Option<PastInterval>,
    /// The first interval that finished since birth.
    pub first_finished: Option<PastInterval>,
    /// The last length of the element's media that the diary tells.
    pub length: Time,
    /// The begin of the present play in document time; None where there is none.
    pub shown_begun: Option<i64>,
    /// How many intervals finished since birth.
    pub finished: u32,
}
