//! Attributes and node lines, read and written.
#![tactic(auto)]

mod again;
mod attribute;
mod kinds;
mod lines;
mod names;
mod nodes;
mod seen;
mod shape;
mod spellings;
mod values;

pub use again::{attr_again, attrs_kept, node_again};
pub use attribute::read_attr;
pub use lines::{read_header, write_header, write_node, write_node_2};
pub use names::attr_name;
pub use nodes::{fits, read_attrs, read_kind, read_node, shape_attrs, shape_kind};
pub use shape::{Attributes, Shape, WrittenAttr};
pub use smil_grammar::{AttrFault, NodeFault};
pub use smil_model::{Attr, AttrName, with_attr, without_attr};
