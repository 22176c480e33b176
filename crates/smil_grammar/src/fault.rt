//! What readers find at fault. Places are counted in bytes from 0, columns from 1.

ghost use Rattle.std.specs.Prelude.{◌≡◌};
ghost use Rattle.smil_grammar.specs.declared.fault.ItemFault.TheVariants as item_fault;
ghost use Rattle.smil_grammar.specs.declared.fault.ListFault.TheVariants as list_fault;
ghost use Rattle.smil_grammar.specs.declared.fault.AttrFault.TheVariants as attr_fault;
ghost use Rattle.smil_grammar.specs.declared.fault.NodeFault.TheVariants as node_fault;

use std::alloc::AllocError;
use thiserror::Error;

/// No word stands at this place.
#[derive(Clone, Copy)]
pub struct BadAt(pub usize);

/// Why a text is no clock value.
#[derive(Clone, Copy, Debug, PartialEq, Eq, Error)]
pub enum ClockFault {
    /// It is outside the grammar.
    #[error("not a clock value")]
    Bad,
    /// It is inside the grammar and above 10^12 milliseconds.
    #[error("above 10^12 milliseconds")]
    TooLong,
}

/// Why a text is no item of a list.
#[derive(Clone, Copy)]
pub enum ItemFault {
    /// It is outside the grammar.
    Bad,
    /// It is of a form that is left out.
    Unsupported,
    /// There is no memory for it.
    Memory,
}

impl From<AllocError> for ItemFault {
    ghost from_gives = { λ _ fault. fault ≡ item_fault.Memory };

    fn from(_: AllocError) -> ItemFault {
        ItemFault::Memory
    }
}

/// Why a text is no list.
#[derive(Clone, Copy)]
pub enum ListFault {
    /// An item is outside the grammar.
    Bad { place: usize },
    /// An item is of a form that is left out.
    Unsupported { place: usize },
    /// There are more than 32 items.
    TooManyItems,
    /// There is no memory for them.
    Memory,
}

impl From<AllocError> for ListFault {
    ghost from_gives = { λ _ fault. fault ≡ list_fault.Memory };

    fn from(_: AllocError) -> ListFault {
        ListFault::Memory
    }
}

/// Why an attribute has no reading.
#[derive(Clone, Copy)]
pub enum AttrFault {
    /// The kind doesn't have this attribute.
    UnknownAttribute,
    /// The attribute is left out.
    UnsupportedName,
    /// The value is of a form that is left out.
    UnsupportedValue { place: usize },
    /// The value is outside the grammar.
    BadValue { place: usize },
    /// A list has more than 32 items.
    TooManyItems,
    /// There is no memory for it.
    Memory,
}

impl From<AllocError> for AttrFault {
    ghost from_gives = { λ _ fault. fault ≡ attr_fault.Memory };

    fn from(_: AllocError) -> AttrFault {
        AttrFault::Memory
    }
}

/// Why a node line has no reading. Columns are counted from 1.
#[derive(Clone, Copy)]
pub enum NodeFault {
    /// It isn't of a node line's shape, has a name twice or calls an unknown kind.
    BadOutline,
    /// The kind, an attribute or a value is left out.
    Unsupported { column: u32 },
    /// The parent can't have such a child.
    BadPlace,
    /// The kind doesn't have this attribute.
    UnknownAttribute { column: u32 },
    /// A value is outside the grammar.
    BadValue { column: u32 },
    /// A list has more than 32 items.
    TooManyItems { column: u32 },
    /// There is no memory for it.
    Memory,
}

impl From<AllocError> for NodeFault {
    ghost from_gives = { λ _ fault. fault ≡ node_fault.Memory };

    fn from(_: AllocError) -> NodeFault {
        NodeFault::Memory
    }
}
