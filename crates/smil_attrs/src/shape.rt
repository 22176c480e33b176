//! The shape of node lines.

ghost use Rattle.std.specs.Prelude.{◌≡◌, ◌<◌, ◌≤◌, ◌+◌, ◌-◌, ◌^◌, ℕ, Bool, ◌||◌, ◌∷◌, Option, List, take, length, option_map, Some, None, IsSome, bytes_eq, if◌then◌else◌};
ghost use Rattle.std.specs.List.{prefix_len, list_all, list_any};
ghost use Rattle.smil_grammar.specs.Nodes.{WrittenAttr as WrittenText, is_no_space, is_of_kind, shaped, shape_of, saved_shape_of, attributes_at, quote_pieces, is_named, attribute_at, repeats as repeats_name};
ghost use Rattle.smil_attrs.specs.Remainder.{Passes, attributes_in, written_in};
ghost use Rattle.smil_attrs.specs.Repeats.{twice_from};

use super::seen::SeenNames;
use smil_lexis::runs;
use smil_lexis::texts::{behind, cut, is};
use smil_lexis::utf8::is_utf8;
use smil_time_list::offsets::count;
use std::marker::Model;

/// An attribute as it is written, with the places of its name and its value in the line.
#[derive(Drop)]
pub struct WrittenAttr<'a> {
    pub name: &'a [u8],
    pub name_place: usize,
    pub value: &'a [u8],
    pub value_place: usize,
}

impl<'a> Model for WrittenAttr<'a> {
    ghost use Rattle.smil_grammar.specs.Nodes.{WrittenAttr as WrittenText};

    ghost Value = { WrittenText };

    ghost view = { λ a.
        record {
          name = a.name.now;
          name_place = a.name_place;
          value = a.value.now;
          value_place = a.value_place;
        } };
}

/// What is left of a line, from which attributes are taken one by one.
#[derive(Drop)]
pub struct Attributes<'a> {
    text: &'a [u8],
    place: usize,
}

impl<'a> Model for Attributes<'a> {
    ghost use Rattle.std.specs.Prelude.{◌<◌, ◌+◌, ◌^◌, length};
    ghost use Rattle.smil_grammar.specs.Positions.{Piece};

    ghost Value = { Piece };

    ghost view = { λ a. record { text = a.text.now; place = a.place } };

    ghost invariant = { λ a. a.place + length a.text.now < 2 ^ 64 };
}

// Whether a text has no space.
fn no_space(text: &[u8]) -> bool
    ensures { result ≡ list_all is_no_space text.now }
{
    text.iter().all(|byte| *byte != b' ')
}

// The name before a `=`.
fn name(run: &[u8]) -> Option<&[u8]>
    ensures { option_map (λ name. name.now) result
        ≡ (if is_named run.now then Some (take (length run.now - 1) run.now) else None) }
{
    match run {
        [name @ .., b'='] if !name.is_empty() && no_space(run) && is_utf8(run) => Some(name),
        _ => None,
    }
}

// The attribute of what stands before an opening quote, and what stands behind it.
fn attribute<'a>(lead: &'a [u8], value: &'a [u8], place: usize) -> Option<WrittenAttr<'a>>
    requires { place + length lead.now + 1 < 2 ^ 64 }
    ensures { result ≡ attribute_at place lead.now value.now }
{
    let (front, run) = lead.split_at(runs::spaces(lead));
    match name(run) {
        Some(name) if !front.is_empty() => Some(WrittenAttr {
            name,
            name_place: place + front.len(),
            value,
            value_place: place + lead.len() + 1,
        }),
        _ => None,
    }
}

impl<'a> Attributes<'a> {
    /// Takes the first attribute; where none stands there, nothing is taken.
    pub fn next(&mut self) -> Option<WrittenAttr<'a>>
        ensures { Passes self.old result self.new }
    {
        let (lead, behind) = cut(self.text, b'"')?;
        let (value, rest) = cut(behind, b'"')?;
        let written = attribute(lead, value, self.place)?;
        self.place += lead.len() + value.len() + 2;
        self.text = rest;
        Some(written)
    }

    /// The same attributes once more.
    pub fn again(&self) -> Attributes<'a>
        ensures { result ≡ self.now }
    {
        Attributes {
            text: self.text,
            place: self.place,
        }
    }

    /// Whether an attribute of this name is left, where all that is left is of the shape of
    /// attributes.
    pub fn has(&self, name: &[u8]) -> bool
        ensures { IsSome (attributes_in self.now) → result
            ≡ list_any (λ (other : WrittenText). bytes_eq other.name name.now)
            (written_in self.now) }
    {
        let mut left = self.again();
        while let Some(attribute) = left.next() {
            if is(attribute.name, name) {
                return true;
            }
        }
        false
    }

    // Whether two attributes that are left have the same name; none where not all that is left is
    // of the shape of attributes.
    fn repeats(&self) -> Option<bool>
        ensures { result ≡ option_map repeats_name (attributes_in self.now) }
    {
        let mut left = self.again();
        let mut seen = SeenNames::new();
        let mut repeats = false;
        while let Some(attribute) = left.next() {
            let again = stands_again(&mut seen, attribute.name, &left);
            repeats = repeats || again;
        }
        if runs::is_spaces(left.text) {
            Some(repeats)
        } else {
            None
        }
    }
}

// Whether a name stood before or, where it can't be noted as well, stands again in what is left.
fn stands_again<'a>(seen: &mut SeenNames<'a>, name: &'a [u8], left: &Attributes<'_>) -> bool
    ensures { IsSome (attributes_in left.now) → (before : Bool) (written : WrittenText)
        → written.name ≡ name.now
        → twice_from (before || result) seen.new (written_in left.now)
        ≡ twice_from before seen.old (written ∷ written_in left.now) }
{
    if seen.has(name) {
        return true;
    }
    if seen.put(name) {
        return false;
    }
    left.has(name)
}

/// The shape of a node line.
#[derive(Drop)]
pub struct Shape<'a> {
    pub kind: &'a [u8],
    pub attributes: Attributes<'a>,
    repeats: bool,
}

impl<'a> Model for Shape<'a> {
    ghost use Rattle.smil_grammar.specs.Nodes.{Shape as ShapeText};
    ghost use Rattle.smil_attrs.specs.Remainder.{written_in};
    ghost use Rattle.smil_attrs.specs.Repeats.{IsShaped};

    ghost Value = { ShapeText };

    ghost view = { λ a. record { kind = a.kind.now; attributes = written_in a.attributes } };

    ghost invariant = { λ a. IsShaped a.attributes a.repeats };
}

// How many bytes stand before the first space or quote.
fn kind_len(line: &[u8]) -> usize
    ensures len { result ≡ prefix_len is_of_kind line.now }
    ensures within { result ≤ length line.now }
{
    line.iter()
        .take_while(|byte| **byte != b' ' && **byte != b'"')
        .count()
}

impl<'a> Shape<'a> {
    // A kind, and what stands behind it from this place of the line on.
    fn with(kind: &'a [u8], text: &'a [u8], place: usize) -> Option<Shape<'a>>
        requires { place + length text.now < 2 ^ 64 }
        ensures { result ≡ shaped kind.now (attributes_at place (quote_pieces text.now)) }
    {
        let attributes = Attributes { text, place };
        if kind.is_empty() || !is_utf8(kind) {
            return None;
        }
        let repeats = attributes.repeats()?;
        Some(Shape {
            kind,
            attributes,
            repeats,
        })
    }

    /// Whether two attributes have the same name.
    pub fn repeats(&self) -> bool
        ensures { result ≡ repeats_name self.now.attributes }
    {
        self.repeats
    }

    /// The shape of a node line without leading spaces, where it has it.
    pub fn of(line: &'a [u8]) -> Option<Shape<'a>>
        ensures { result ≡ shape_of line.now }
    {
        let (kind, text) = line.split_at(kind_len(line));
        Shape::with(kind, text, kind.len())
    }

    /// The shape of a node line whose serial stands behind its kind, as ` #7`, and that serial.
    pub fn numbered(line: &'a [u8]) -> Option<(u32, Shape<'a>)>
        ensures { result ≡ saved_shape_of line.now }
    {
        let (kind, rest) = line.split_at(kind_len(line));
        let text = behind(behind(rest, b' ')?, b'#')?;
        let len = runs::digits(text);
        let (digits, rest) = text.split_at(len);
        let serial = count(digits)?;
        let shape = Shape::with(kind, rest, kind.len() + 2 + len)?;
        Some((serial, shape))
    }
}
