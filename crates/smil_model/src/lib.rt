//! What the timing engine and the program around it speak of: times, documents, diaries, views and
//! orders.
#![tactic(auto)]

pub mod attributes;
pub mod diary;
pub mod document;
pub mod duplicate;
pub mod growing_list;
pub mod happening;
pub mod interval;
pub mod limits;
pub mod order;
pub mod place_set;
pub mod places;
pub mod references;
pub mod serial_table;
pub mod texts;
pub mod times;
pub mod tournament;
pub mod view;

pub use attributes::{with_attr, without_attr};
pub use diary::{Diary, Entry, Happening, Log, LogEntry, Step, StepKind};
pub use document::{
    Act, Attr, AttrName, Attrs, Count, Doc, Dur, Edge, Endsync, Fill, FillDefault, Item, Items,
    Kind, Node, Restart, RestartDefault,
};
pub use duplicate::{Duplicate, copy_of};
pub use growing_list::{Bytes, GrowingList, Serials, WordList};
pub use happening::{BEGIN_CLASS, Class, EMPTY_END_CLASS, END_CLASS, Key};
pub use interval::{ChildEnd, EndList, Facts, Interval, Play};
pub use limits::{
    ATTRIBUTE_BYTES, COUNT_THOUSANDTHS, DEPTH, DIARY_ENTRIES, DIGITS, EVENT_BYTES, ID_BYTES, ITEMS,
    ITERATIONS, LINE_BYTES, LOG_ENTRIES, NAME_BYTES, NODES, PRESENTATIONS, REFERENCES, SERIALS,
    TEXT_BYTES,
};
pub use order::{Order, Refusal, Who};
pub use place_set::PlaceSet;
pub use places::{HasSerial, first_places, position_in};
pub use references::{references_in, references_in_items, references_in_list};
pub use serial_table::SerialTable;
pub use texts::{TextName, Texts};
pub use times::{CARRIED, HORIZON, Time, capped, greatest, later, least, moved};
pub use tournament::{Contender, Tournament};
pub use view::{How, Layer, Shown, State, View, ViewFacts};
