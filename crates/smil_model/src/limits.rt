//! The limits of documents, logs, diaries and presentations.

/// The greatest number of items in a begin or end list.
pub const ITEMS: usize = 32;

/// The greatest number of nodes of a document.
pub const NODES: usize = 8_000;

/// The depth that no node of a document has, the root having depth 0.
pub const DEPTH: usize = 32;

/// The greatest number of items of a document that refer to an element, an event or a key.
pub const REFERENCES: usize = 32_000;

/// The greatest serial, and the greatest next serial of a document.
pub const SERIALS: u32 = 999_999_999;

/// The greatest number of digits of a serial, of an iteration's number, and of a `repeatCount`
/// before its point.
pub const DIGITS: usize = 9;

/// The greatest number of an iteration that an item names.
pub const ITERATIONS: u32 = 999_999_999;

/// The greatest `repeatCount`, in thousandths.
pub const COUNT_THOUSANDTHS: u64 = 999_999_999_999;

/// Each text of an order has fewer bytes than this.
pub const TEXT_BYTES: usize = 2_147_483_648;

/// The greatest number of bytes of a line, without its line feed.
pub const LINE_BYTES: usize = 16_384;

/// The greatest number of bytes of an id.
pub const ID_BYTES: usize = 64;

/// The greatest number of bytes of an event's name.
pub const EVENT_BYTES: usize = 64;

/// The greatest number of bytes of the name of an attribute that a `set` names.
pub const ATTRIBUTE_BYTES: usize = 64;

/// The greatest number of bytes of a presentation's name.
pub const NAME_BYTES: usize = 32;

/// The greatest number of presentations that stand side by side.
pub const PRESENTATIONS: usize = 64;

/// The greatest number of entries of a log.
pub const LOG_ENTRIES: usize = 50_000;

/// The greatest number of entries of a diary.
pub const DIARY_ENTRIES: usize = 1_000_000;
