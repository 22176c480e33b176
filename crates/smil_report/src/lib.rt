//! The lines of a transcript, written.
#![tactic(auto)]

mod backwards;
mod buffers;
mod changes;
mod entries;
mod last_lines;
mod lines;
mod records;
mod words;

pub use changes::put_change;
pub use entries::{put_entry, put_now, put_outline_end};
pub use last_lines::{
    LAST_LINE_BYTES, REFUSAL_BYTES, put_checked, put_closed, put_ok, put_refusal,
};
pub use lines::{SetValue, put_gone, put_history, put_layer, put_value};
pub use records::{Change, ChangeItem, Changes};
pub use smil_model::How;
pub use words::Name;
