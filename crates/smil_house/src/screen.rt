//! What is on the screen.

/// How an element is on the screen.
#[derive(Clone, Copy)]
pub enum Showing {
    /// It is neither active nor frozen.
    Off,
    /// It is active, and its clock runs.
    Playing,
    /// It is active, and its clock stands: it or an element above it is paused.
    Standing,
    /// It is frozen.
    Frozen,
}

/// What is on the screen of an element, by its serial: how it shows, where its media is, in
/// milliseconds from the begin of its iteration, and the iteration from 0. A frozen element is
/// where it stopped; one that is off is nowhere, and has 0.
#[derive(Clone, Copy)]
pub struct OnScreen {
    pub serial: u32,
    pub showing: Showing,
    pub position: i128,
    pub iteration: u32,
}
