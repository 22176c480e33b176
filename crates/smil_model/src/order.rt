//! Orders to a presentation, and the causes for which an order is refused.

ghost use Rattle.std.specs.Prelude.{◌≡◌};

use super::duplicate::Duplicate;
use super::growing_list::Bytes;
use std::alloc::AllocError;

/// A node, by its id or its serial.
#[derive(Drop)]
pub enum Who {
    Id(Bytes),
    Serial(u32),
}

impl Duplicate for Who {
    fn copy(&self) -> Result<Self, AllocError> {
        match self {
            Who::Id(id) => Ok(Who::Id(id.copy()?)),
            Who::Serial(serial) => Ok(Who::Serial(*serial)),
        }
    }
}

/// An order to a presentation. Moments and lengths are in milliseconds of document time.
/// `attr_column` is the column of the attribute's name in the order's line, and `column` that of
/// the value or of the node, in bytes from 1.
#[derive(Drop)]
pub enum Order {
    /// Moves on by a length.
    Advance {
        by: i64,
    },
    /// Moves to a moment; backward, later log entries are removed.
    Seek {
        to: i64,
    },
    /// An event on a node, at the present moment.
    Event {
        who: Who,
        name: Bytes,
    },
    /// The length of a node's media, known from the present moment on.
    Media {
        who: Who,
        length: i64,
    },
    /// A press of an access key, one byte, at the present moment.
    Key {
        key: u8,
    },
    /// Gives an attribute a value.
    Set {
        who: Who,
        attr: Bytes,
        value: Bytes,
        attr_column: u32,
        column: u32,
    },
    /// Takes an attribute away.
    Unset {
        who: Who,
        attr: Bytes,
        attr_column: u32,
    },
    /// Inserts a node as the child of another at a place from 1.
    Insert {
        who: Who,
        place: u32,
        node: Bytes,
        column: u32,
    },
    /// Removes a node with all below it.
    Remove {
        who: Who,
    },
    /// Tells the view of every element.
    Show,
    /// Tells the intervals of an element.
    History {
        who: Who,
    },
    /// Tells the document.
    Text,
    /// Tells the document with its serials and its next serial.
    Save,
    /// Tells the document as `Save`, then the diary and the moment.
    Diary,
    /// Tells each attribute that is set, with its value and the `set` that gives it.
    Values,
    /// Tells which `set` elements set an attribute of a node, the one that gives the value first.
    Stack {
        who: Who,
        attr: Bytes,
    },
}

/// Why an order is refused.
#[derive(Clone, Copy, PartialEq, Eq)]
pub enum Refusal {
    /// A line has more than 16,384 bytes without its line feed.
    LongLine,
    /// A line has no reading as an order.
    NotACommand,
    /// The input ends before the `%%` of a load.
    UnfinishedLoad,
    /// A node line has no reading, or, at the `%%` line, the outline has no node.
    BadOutline,
    /// A node is more than one level deeper than the node before, or the first node is not at depth
    /// 0.
    DepthJump,
    /// A node has depth 32 or more, the root having depth 0.
    TooDeep,
    /// A node may not stand there: a second root, a root that is no par, seq or excl, a child of a
    /// media element, a priorityClass outside an excl or inside another, an excl that would mix
    /// priorityClass elements with other children, or a place that is not from 1 to the number of
    /// children plus 1. Also an event or a history of a priorityClass.
    BadPlace,
    /// The kind of the node does not have the attribute, and it is none of those that are refused
    /// as unsupported. The column is that of the name.
    UnknownAttribute { column: u32 },
    /// An element, an attribute, a value or an item of SMIL 3.0 that this profile leaves out. The
    /// column is where it stands.
    Unsupported { column: u32 },
    /// The value of the attribute has no reading. The column is that of the first faulty item in a
    /// begin or end list, and otherwise that of the value.
    BadValue { column: u32 },
    /// A begin or end list has more than 32 items. The column is that of the value.
    TooManyItems { column: u32 },
    /// Another node has the id.
    DuplicateId,
    /// The document would have more than 8,000 nodes, or a node is inserted where the next serial
    /// is 999,999,999.
    TooManyElements,
    /// The document would have more than 32,000 items other than offsets and `indefinite`.
    TooManyReferences,
    /// No presentation has the name.
    NoPresentation,
    /// A presentation has the name already.
    NameTaken,
    /// There are 64 presentations already.
    TooManyPresentations,
    /// The document has no such node.
    NoElement,
    /// The root is to be removed.
    Root,
    /// A media length is given for a node that is no audio, video, animation, textstream or ref.
    NotContinuous,
    /// The log has 50,000 entries.
    LogFull,
    /// The new moment is above 10^12 milliseconds.
    BeyondHorizon,
    /// The diary after the order would have more than 1,000,000 entries.
    DiaryFull,
    /// Memory ran out.
    Memory,
    /// Kept for what a later version may read before it plays it: nothing is refused so.
    NotYet,
    /// A node line gives a serial that is not below the next serial, or that a line before it has.
    BadSerial,
    /// A line of a load with an instant has a wall clock item, and the root has no id or has a begin.
    NoAnchor,
}

impl From<AllocError> for Refusal {
    ghost use Rattle.smil_model.specs.declared.order.Refusal.TheVariants as refused;

    ghost from_gives = { λ _ refusal. refusal ≡ refused.Memory };

    fn from(_: AllocError) -> Self {
        Refusal::Memory
    }
}

impl Refusal {
    ghost use Rattle.smil_model.specs.shown.Lines.{refusal_number, refusal_text, refusal_column};

    /// The number, from 1 to 27.
    pub fn number(&self) -> u8
        ensures { result ≡ refusal_number self.now }
    {
        match self {
            Refusal::LongLine => 1,
            Refusal::NotACommand => 2,
            Refusal::UnfinishedLoad => 3,
            Refusal::BadOutline => 4,
            Refusal::DepthJump => 5,
            Refusal::TooDeep => 6,
            Refusal::BadPlace => 7,
            Refusal::UnknownAttribute { .. } => 8,
            Refusal::Unsupported { .. } => 9,
            Refusal::BadValue { .. } => 10,
            Refusal::TooManyItems { .. } => 11,
            Refusal::DuplicateId => 12,
            Refusal::TooManyElements => 13,
            Refusal::TooManyReferences => 14,
            Refusal::NoPresentation => 15,
            Refusal::NameTaken => 16,
            Refusal::TooManyPresentations => 17,
            Refusal::NoElement => 18,
            Refusal::Root => 19,
            Refusal::NotContinuous => 20,
            Refusal::LogFull => 21,
            Refusal::BeyondHorizon => 22,
            Refusal::DiaryFull => 23,
            Refusal::Memory => 24,
            Refusal::NotYet => 25,
            Refusal::BadSerial => 26,
            Refusal::NoAnchor => 27,
        }
    }

    /// The word by which a transcript names it.
    pub fn word(&self) -> &'static str
        ensures { result.now ≡ refusal_text self.now }
    {
        match self {
            Refusal::LongLine => "long-line",
            Refusal::NotACommand => "not-a-command",
            Refusal::UnfinishedLoad => "unfinished-load",
            Refusal::BadOutline => "bad-outline",
            Refusal::DepthJump => "depth-jump",
            Refusal::TooDeep => "too-deep",
            Refusal::BadPlace => "bad-place",
            Refusal::UnknownAttribute { .. } => "unknown-attribute",
            Refusal::Unsupported { .. } => "unsupported",
            Refusal::BadValue { .. } => "bad-value",
            Refusal::TooManyItems { .. } => "too-many-items",
            Refusal::DuplicateId => "duplicate-id",
            Refusal::TooManyElements => "too-many-elements",
            Refusal::TooManyReferences => "too-many-references",
            Refusal::NoPresentation => "no-presentation",
            Refusal::NameTaken => "name-taken",
            Refusal::TooManyPresentations => "too-many-presentations",
            Refusal::NoElement => "no-element",
            Refusal::Root => "root",
            Refusal::NotContinuous => "not-continuous",
            Refusal::LogFull => "log-full",
            Refusal::BeyondHorizon => "beyond-horizon",
            Refusal::DiaryFull => "diary-full",
            Refusal::Memory => "memory",
            Refusal::NotYet => "not-yet",
            Refusal::BadSerial => "bad-serial",
            Refusal::NoAnchor => "no-anchor",
        }
    }

    /// The column of the fault in its line, in bytes from 1, where the refusal tells one.
    pub fn column(&self) -> Option<u32>
        ensures { result ≡ refusal_column self.now }
    {
        match self {
            Refusal::UnknownAttribute { column }
            | Refusal::Unsupported { column }
            | Refusal::BadValue { column }
            | Refusal::TooManyItems { column } => Some(*column),
            _ => None,
        }
    }
}
