//! The tests of a line, and the line that is kept.

ghost use Rattle.std.specs.Prelude.{◌≡◌, ◌<◌, ◌≤◌, ◌-◌, ◌+◌, ◌^◌, ◌&&◌, ◌∷◌, ◌++◌, List, take, drop, replicate, not, bytes_eq, codes, Some, IsSome, IsTrue, IfOk, OnOk};
ghost use Rattle.std.specs.List.{list_any};
ghost use Rattle.smil_grammar.specs.Nodes.{WrittenAttr as WrittenText};
ghost use Rattle.smil_attrs.specs.Remainder.{attributes_in, written_in};
ghost use Rattle.smil_switch.specs.Preferences.{is_test as is_test_name};
ghost use Rattle.smil_grammar.specs.Texts.{space};
ghost use Rattle.smil_grammar.specs.Nodes.{at_column, shape_of};
ghost use Rattle.smil_grammar.specs.Outlines.{in_line};
ghost use Rattle.smil_switch.specs.Choices.{IsPlain, attribute_holds, attributes_hold, is_y, is_switch as is_switch_shape, repeats_test as repeats_test_shape, without_tests as without_tests_of};
ghost use Rattle.smil_attrs.specs.Within.{StandsWithin, AllWithin};

use super::preferences::Preferences;
use super::test_attributes::{front, is_other_test, is_test, test};
use smil_attrs::{Attributes, Shape, WrittenAttr};
use smil_lexis::texts::{is, past, trim};
use smil_model::{Bytes, Refusal};
use std::alloc::{AllocError, Global};

/// Whether a line of this shape is a switch.
pub fn is_switch(shape: &Shape<'_>) -> bool
    ensures { result ≡ is_switch_shape (Some shape.now) }
{
    is(shape.kind, b"switch")
}

// Whether this is the name of a test, and one that is left has it too.
fn stands_again(name: &[u8], left: &Attributes<'_>) -> bool
    requires { IsSome (attributes_in left.now) }
    ensures { result ≡ (is_test_name name.now
        && list_any (λ (other : WrittenText). bytes_eq other.name name.now)
        (written_in left.now)) }
{
    is_test(name) && left.has(name)
}

/// Whether a test stands twice, or in a switch any attribute.
pub fn repeats_test(shape: &Shape<'_>) -> bool
    ensures { result ≡ repeats_test_shape (Some shape.now) }
{
    if is_switch(shape) {
        return shape.repeats();
    }
    let mut left = shape.attributes.again();
    while let Some(written) = left.next() {
        if stands_again(written.name, &left) {
            return true;
        }
    }
    false
}

// The column of a place, from 1.
fn column(place: usize) -> u32
    requires { place < 2 ^ 32 - 2 }
    ensures { result ≡ place + 1 }
{
    place as u32 + 1
}

// Whether an attribute is no test that fails, in a line behind so many spaces.
fn attribute(
    wanted: &Preferences,
    spaces: usize,
    switch: bool,
    written: &WrittenAttr<'_>,
) -> Result<bool, Refusal>
    requires spaces { spaces ≤ 2 ^ 31 }
    requires within { StandsWithin (2 ^ 31 - spaces) written.now }
    ensures { result
        ≡ in_line spaces (at_column written.now (attribute_holds wanted.now switch written.now)) }
{
    if is_test(written.name) {
        return match test(wanted, written.name, trim(written.value)) {
            Some(holds) => Ok(holds),
            None => Err(Refusal::BadValue {
                column: column(spaces + written.value_place),
            }),
        };
    }
    let column = column(spaces + written.name_place);
    if is_other_test(written.name) {
        return Err(Refusal::Unsupported { column });
    }
    if switch && !is(written.name, b"id") {
        return Err(Refusal::UnknownAttribute { column });
    }
    Ok(true)
}

// Whether a `y` stands in a text.
fn has_y(text: &[u8]) -> bool
    ensures { result ≡ list_any is_y text.now }
{
    text.contains(&b'y')
}

/// Whether a line without leading spaces begins otherwise than with `switch` and has no `y`. It is
/// no switch then and has no test, since a `y` stands in the name of each.
#[tactic(auto, using(crate::proofs::PlainLines::line_plain))]
pub fn is_plain(text: &[u8]) -> bool
    ensures exact { result ≡ (not (bytes_eq (take 6 text.now) (codes "switch"))
        && not (list_any is_y text.now)) }
    ensures plain { IsTrue result → IsPlain (shape_of text.now) }
{
    !is(front(text, 6), b"switch") && !has_y(text)
}

// Whether both are so.
fn both(first: bool, second: bool) -> bool
    ensures { result ≡ (first && second) }
{
    first && second
}

/// Whether all tests of a line of this shape behind so many spaces hold, or its first fault.
pub fn holds(wanted: &Preferences, spaces: usize, shape: &Shape<'_>) -> Result<bool, Refusal>
    requires spaces { spaces ≤ 2 ^ 31 }
    requires within { AllWithin (2 ^ 31 - spaces) shape.now.attributes }
    ensures { result ≡ in_line spaces
        (attributes_hold wanted.now (is_switch_shape (Some shape.now)) shape.now.attributes) }
{
    let switch = is_switch(shape);
    let mut hold = true;
    let mut left = shape.attributes.again();
    while let Some(written) = left.next() {
        match attribute(wanted, spaces, switch, &written) {
            Ok(holds) => hold = both(hold, holds),
            Err(refusal) => return Err(refusal),
        }
    }
    Ok(hold)
}

// Appends so many spaces.
fn put_spaces(count: usize, out: &mut Bytes) -> Result<(), AllocError>
    ensures { OnOk result (out.new ≡ out.old ++ replicate count space) }
{
    for _space in 0..count {
        out.push(b' ')?;
    }
    Ok(())
}

// Appends a line from one place up to another, and spaces from there up to a third.
fn put_blank(
    line: &[u8],
    from: usize,
    to: usize,
    end: usize,
    out: &mut Bytes,
) -> Result<(), AllocError>
    ensures { OnOk result (out.new ≡ out.old
        ++ (take (to - from) (drop from line.now) ++ replicate (end - to) space)) }
{
    out.append(front(past(line, from), to.saturating_sub(from)))?;
    put_spaces(end.saturating_sub(to), out)
}

// Appends a line from this place up to the end of an attribute, where it is a test, with spaces in
// its place; and gives the place up to which the line was appended.
fn put_attribute(
    line: &[u8],
    spaces: usize,
    from: usize,
    written: &WrittenAttr<'_>,
    out: &mut Bytes,
) -> Result<usize, AllocError>
    requires spaces { spaces ≤ 2 ^ 31 }
    requires within { StandsWithin (2 ^ 31 - spaces) written.now }
    ensures { IfOk result (λ next. (others : List WrittenText)
        → out.new ++ without_tests_of spaces next others line.now
        ≡ out.old ++ without_tests_of spaces from (written.now ∷ others) line.now) }
{
    if !is_test(written.name) {
        return Ok(from);
    }
    let end = spaces + written.value_place + written.value.len() + 1;
    put_blank(line, from, spaces + written.name_place, end, out)?;
    Ok(end)
}

/// A line in which the tests of its shape behind so many spaces became spaces.
pub fn without_tests(
    alloc: Global,
    line: &[u8],
    spaces: usize,
    shape: &Shape<'_>,
) -> Result<Bytes, AllocError>
    requires spaces { spaces ≤ 2 ^ 31 }
    requires within { AllWithin (2 ^ 31 - spaces) shape.now.attributes }
    ensures { IfOk result (λ kept. kept ≡ without_tests_of spaces 0 shape.now.attributes line.now) }
{
    let mut out = Bytes::new(alloc);
    let mut from = 0;
    let mut left = shape.attributes.again();
    while let Some(written) = left.next() {
        from = put_attribute(line, spaces, from, &written, &mut out)?;
    }
    out.append(past(line, from))?;
    Ok(out)
}
