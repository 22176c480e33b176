//! The units of clock values.

/// The milliseconds of a second.
pub const SECOND: u64 = 1000;

/// The milliseconds of a minute.
pub const MINUTE: u64 = 60_000;

/// The milliseconds of an hour.
pub const HOUR: u64 = 3_600_000;

/// The milliseconds of a day.
pub const DAY: u64 = 86_400_000;

/// The billionths of one: fractions are counted in billionths.
pub const BILLION: u64 = 1_000_000_000;

/// The billionths of a tenth: digits past the ninth of a fraction count nothing.
pub const TENTH: u64 = 100_000_000;
