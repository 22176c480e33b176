//! Node lines, as they are printed.

ghost use Rattle.std.specs.Prelude.{◌≡◌, ◌++◌, ◌*◌, ℕ, replicate, flat_map, codes, decimal, false, IfSome, OnOk, OnErr};
ghost use Rattle.smil_grammar.specs.Attributes.{names as all_names};
ghost use Rattle.smil_grammar.specs.Texts.{space};
ghost use Rattle.smil_grammar.specs.Outlines.{header_of};
ghost use Rattle.smil_grammar.specs.Spellings.{attr_at, value_text, attribute_text, node_text, saved_node_text, header_text};
ghost use Rattle.smil_model.specs.document.Words.{Begins};
ghost use Rattle.smil_grammar.specs.Allowed.{IsAttrs};

use super::kinds;
use super::names::NAMES;
use super::spellings::put_attr;
use itoa::Buffer;
use smil_grammar::HEADER;
use smil_lexis::texts::past;
use smil_lexis::writers::undone;
use smil_model::{Attrs, Bytes, Kind, Node};
use smil_time_list::offsets::count;
use std::alloc::AllocError;

// Appends two spaces for each level.
#[tactic(auto, using(smil_model::proofs::GrowingTexts::begins_on))]
fn put_indent(depth: u32, out: &mut Bytes) -> Result<(), AllocError>
    ensures ok { OnOk result (out.new ≡ out.old ++ replicate (2 * depth) space) }
    ensures err { OnErr result (Begins out.old out.new) }
{
    for _level in 0..depth {
        out.append(b"  ")?;
    }
    Ok(())
}

// Appends the attributes that are there, in their order.
#[tactic(auto, using(smil_model::proofs::GrowingTexts::begins_on))]
fn put_attrs(kind: Kind, attrs: &Attrs, out: &mut Bytes) -> Result<(), AllocError>
    requires { IsAttrs false kind attrs.now }
    ensures ok { OnOk result (out.new ≡ out.old
        ++ flat_map (λ n. attribute_text n (value_text attrs.now n)) all_names) }
    ensures err { OnErr result (Begins out.old out.new) }
{
    for name in &NAMES {
        put_attr(*name, attrs, out)?;
    }
    Ok(())
}

// Appends the line of a node.
#[tactic(auto, using(smil_model::proofs::GrowingTexts::begins_on))]
fn put_node(depth: u32, kind: Kind, attrs: &Attrs, out: &mut Bytes) -> Result<(), AllocError>
    requires { IsAttrs false kind attrs.now }
    ensures ok { OnOk result (out.new ≡ out.old ++ node_text depth kind attrs.now) }
    ensures err { OnErr result (Begins out.old out.new) }
{
    put_indent(depth, out)?;
    out.append(kinds::text(kind))?;
    put_attrs(kind, attrs, out)
}

/// Appends the canonical line of a node: two spaces per depth, the kind, and the attributes that
/// are there, each of which has to be one of the kind's with a value that its grammar has. There is
/// one space before each attribute, in the fixed order of attributes, and each value has its
/// printed spelling. No line end is appended. After a refusal `out` is as before.
pub fn write_node(depth: u32, kind: Kind, attrs: &Attrs, out: &mut Bytes) -> Result<(), AllocError>
    requires { IsAttrs false kind attrs.now }
    ensures ok { OnOk result (out.new ≡ out.old ++ node_text depth kind attrs.now) }
    ensures err { OnErr result (out.new ≡ out.old) }
{
    let before = out.len();
    let written = put_node(depth, kind, attrs, out);
    undone(written, out, before)
}

// Appends a text and a number behind it.
#[tactic(auto, using(smil_model::proofs::GrowingTexts::begins_on))]
fn put_number(text: &[u8], number: u32, out: &mut Bytes) -> Result<(), AllocError>
    ensures ok { OnOk result (out.new ≡ out.old ++ text.now ++ decimal number) }
    ensures err { OnErr result (Begins out.old out.new) }
{
    let mut buffer = Buffer::new();
    out.append(text)?;
    out.append(buffer.format(number).as_bytes())
}

// Appends the line of a node with its serial.
#[tactic(auto, using(smil_model::proofs::GrowingTexts::begins_on))]
fn put_node_2(depth: u32, node: &Node, out: &mut Bytes) -> Result<(), AllocError>
    requires { IsAttrs false node.now.kind node.now.attrs }
    ensures ok { OnOk result (out.new ≡ out.old
        ++ saved_node_text depth node.now.kind node.now.serial node.now.attrs) }
    ensures err { OnErr result (Begins out.old out.new) }
{
    put_indent(depth, out)?;
    out.append(kinds::text(node.kind))?;
    put_number(b" #", node.serial, out)?;
    put_attrs(node.kind, &node.attrs, out)
}

/// Appends the canonical line of a node with its serial: that of `write_node` with a space, `#` and
/// the serial behind the kind. The attributes have to be the kind's, with values that their
/// grammars have. Only a line whose serial is from 1 to 999,999,999 is read again. After a refusal
/// `out` is as before.
pub fn write_node_2(depth: u32, node: &Node, out: &mut Bytes) -> Result<(), AllocError>
    requires can_write { IsAttrs false node.now.kind node.now.attrs }
    ensures ok { OnOk result (out.new ≡ out.old
        ++ saved_node_text depth node.now.kind node.now.serial node.now.attrs) }
    ensures err { OnErr result (out.new ≡ out.old) }
{
    let before = out.len();
    let written = put_node_2(depth, node, out);
    undone(written, out, before)
}

/// Appends the header of an outline with serials: `outline 2 next` and the next serial. Only one
/// from 1 to 999,999,999 is read again. No line end is appended. After a refusal `out` is as
/// before.
pub fn write_header(next: u32, out: &mut Bytes) -> Result<(), AllocError>
    ensures ok { OnOk result (out.new ≡ out.old ++ header_text next) }
    ensures err { OnErr result (out.new ≡ out.old) }
{
    let before = out.len();
    let written = put_number(HEADER, next, out);
    undone(written, out, before)
}

/// The next serial of the header of an outline with serials; none where the line is no such header.
/// Its spaces are single ones, and the number has 1 to 9 digits and no leading zero.
pub fn read_header(line: &[u8]) -> Option<u32>
    ensures { result ≡ header_of line.now }
{
    if !line.starts_with(HEADER) {
        return None;
    }
    count(past(line, HEADER.len()))
}
