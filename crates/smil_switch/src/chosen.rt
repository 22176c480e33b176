//! What becomes of a line.

/// What becomes of a line.
#[derive(Clone, Copy)]
pub enum Chosen {
    /// It isn't kept; a switch isn't, whatever is chosen below it.
    Dropped,
    /// It is kept, so many levels higher.
    Kept { removed: u32 },
}

/// How the lines below a line fare.
#[derive(Clone, Copy)]
pub enum Below {
    /// They are set aside.
    Aside,
    /// Each is judged by its own tests.
    Open,
    /// So is each, up to the first one that is kept.
    Switch,
    /// One of them was kept, and the others are set aside.
    Taken,
}
