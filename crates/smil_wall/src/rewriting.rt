//! Lines with wall clock items, rewritten.

ghost use Rattle.std.specs.Prelude.{◌≡◌, ◌<◌, ◌+◌, ◌∷◌, [], ◌^◌, length, Option, option_map, MatchOption, IfSome, IfErr, OnOk, ◌++◌, Err};
ghost use Rattle.std.specs.List.{list_any};
ghost use Rattle.smil_model.specs.Times.{IsNear};
ghost use Rattle.smil_model.specs.declared.document.Item.TheVariants.{Sync};
ghost use Rattle.smil_model.specs.declared.document.Edge.TheVariants.{Begin};
ghost use Rattle.smil_grammar.specs.Spellings.{item_text};
ghost use Rattle.smil_grammar.specs.Texts.{trim as trimmed};
ghost use Rattle.smil_grammar.specs.Lists.{item_pieces};
ghost use Rattle.smil_grammar.specs.Nodes.{quote_pieces};
ghost use Rattle.smil_wall.specs.Rewriting.{is_wall as is_wall_text, after as after_text, opens_list as opens_list_text, has_wall as has_wall_text, have_wall as have_wall_texts, is_shaped as is_shaped_line, is_rewritten as is_rewritten_line, rewritten, at_place as at_place_of, in_place, piece_rewritten, pieces_rewritten, part_rewritten, parts_rewritten, with_front, FaultWithin, GivesMore, GivesLine};

use super::fault::WallFault;
use super::items::{is_wall, put_since, since};
use smil_attrs::Shape;
use smil_grammar::ItemFault;
use smil_lexis::runs::{spaces, white};
use smil_lexis::texts::{cut, past, trim, trim_front};
use smil_model::{Bytes, LINE_BYTES};
use std::alloc::{AllocError, Global};

// What stands before and behind the first `;`.
fn cut_items(text: &[u8]) -> Option<(&[u8], &[u8])>
    ensures pieces { MatchOption result (item_pieces text.now ≡ text.now ∷ [])
        (λ cut. item_pieces text.now ≡ cut.0.now ∷ item_pieces cut.1.now) }
    ensures length { IfSome result
        (λ cut. length cut.0.now + 1 + length cut.1.now ≡ length text.now) }
{
    cut(text, b';')
}

// What stands before and behind the first quote.
pub(crate) fn cut_parts(text: &[u8]) -> Option<(&[u8], &[u8])>
    ensures pieces { MatchOption result (quote_pieces text.now ≡ text.now ∷ [])
        (λ cut. quote_pieces text.now ≡ cut.0.now ∷ quote_pieces cut.1.now) }
    ensures length { IfSome result
        (λ cut. length cut.0.now + 1 + length cut.1.now ≡ length text.now) }
{
    cut(text, b'"')
}

/// What stands before an opening quote, behind the quote; nothing behind a closing one.
pub fn after<'a>(before: &[u8], part: &'a [u8]) -> &'a [u8]
    ensures { result.now ≡ after_text before.now part.now }
{
    if before.is_empty() { part } else { &[] }
}

// Whether a list stands behind these bytes.
fn opens_list(before: &[u8]) -> bool
    ensures { result ≡ opens_list_text before.now }
{
    before.ends_with(b" begin=") || before.ends_with(b" end=")
}

// Whether an item of a list is a wall clock item.
fn has_item(text: &[u8]) -> bool
    ensures { result ≡ list_any (λ piece. is_wall_text (trimmed piece)) (item_pieces text.now) }
{
    text.split(|byte| *byte == b';')
        .any(|item| is_wall(trim(item)))
}

// Whether a part of a line has a wall clock item.
fn has_wall(before: &[u8], part: &[u8]) -> bool
    ensures { result ≡ has_wall_text before.now part.now }
{
    opens_list(before) && has_item(part)
}

// Whether a line has one.
fn have_wall(line: &[u8]) -> bool
    ensures { result ≡ have_wall_texts [] (quote_pieces line.now) }
{
    let mut before: &[u8] = &[];
    let mut left = line;
    'parts: while let Some((part, rest)) = cut_parts(left) {
        if has_wall(before, part) {
            return true;
        }
        before = after(before, part);
        left = rest;
    }
    has_wall(before, left)
}

/// Whether a line is of the shape of a node line.
pub fn is_shaped(line: &[u8]) -> bool
    ensures { result ≡ is_shaped_line line.now }
{
    Shape::of(past(line, spaces(line))).is_some()
}

// Whether a line has to be rewritten.
fn is_rewritten(line: &[u8]) -> bool
    ensures { result ≡ is_rewritten_line line.now }
{
    line.len() <= LINE_BYTES && is_shaped(line) && have_wall(line)
}

// What rewriting goes by: the root's id, and the instant of moment 0.
#[derive(Clone, Copy)]
struct Rewriter<'a> {
    alloc: Global,
    root: &'a [u8],
    start: i64,
}

// The fault of an item at this place.
fn at_place(place: usize, fault: ItemFault) -> WallFault
    ensures { at_place_of place (Err fault) ≡ Err result }
{
    match fault {
        ItemFault::Bad => WallFault::BadValue { place },
        ItemFault::Unsupported => WallFault::Unsupported { place },
        ItemFault::Memory => WallFault::Memory,
    }
}

impl Rewriter<'_> {
    // Appends what stands in the place of a wall clock item and the white space round it.
    fn put_in_place(&self, text: &[u8], offset: i64, out: &mut Bytes) -> Result<(), AllocError>
        requires { IsNear offset }
        ensures { OnOk result (out.new ≡ out.old
            ++ in_place text.now (item_text (Sync self.now.root.now Begin offset))) }
    {
        let (front, _) = text.split_at(white(text));
        out.append(front)?;
        put_since(self.alloc, self.root, offset, out)?;
        out.append(past(trim_front(text), trim(text).len()))
    }

    // Appends a piece of a list, which stands at this place.
    fn put_piece(&self, text: &[u8], place: usize, out: &mut Bytes) -> Result<(), WallFault>
        requires { place + length text.now < 2 ^ 64 }
        ensures { GivesMore out.new result
            (with_front out.old (piece_rewritten self.now.root.now self.now.start place text.now)) }
    {
        let item = trim(text);
        if !is_wall(item) {
            out.append(text)?;
            return Ok(());
        }
        match since(self.start, item) {
            Ok(offset) => {
                self.put_in_place(text, offset, out)?;
                Ok(())
            }
            Err(fault) => Err(at_place(place + white(text), fault)),
        }
    }

    // Appends a list, which stands at this place.
    fn put_pieces(&self, text: &[u8], place: usize, out: &mut Bytes) -> Result<(), WallFault>
        requires { place + length text.now < 2 ^ 64 }
        ensures { GivesMore out.new result (with_front out.old
            (pieces_rewritten self.now.root.now self.now.start place (item_pieces text.now))) }
    {
        let mut from = place;
        let mut left = text;
        'pieces: while let Some((piece, rest)) = cut_items(left) {
            self.put_piece(piece, from, out)?;
            out.push(b';')?;
            from += piece.len() + 1;
            left = rest;
        }
        self.put_piece(left, from, out)
    }

    // Appends a part of a line, which stands at this place behind these bytes.
    fn put_part(
        &self,
        before: &[u8],
        part: &[u8],
        place: usize,
        out: &mut Bytes,
    ) -> Result<(), WallFault>
        requires { place + length part.now < 2 ^ 64 }
        ensures { GivesMore out.new result (with_front out.old
            (part_rewritten self.now.root.now self.now.start place before.now part.now)) }
    {
        if opens_list(before) {
            return self.put_pieces(part, place, out);
        }
        out.append(part)?;
        Ok(())
    }

    // Appends a line.
    fn put_line(&self, line: &[u8], out: &mut Bytes) -> Result<(), WallFault>
        requires { length line.now < 2 ^ 64 }
        ensures { GivesMore out.new result (with_front out.old
            (parts_rewritten self.now.root.now self.now.start 0 [] (quote_pieces line.now))) }
    {
        let mut before: &[u8] = &[];
        let mut place = 0;
        let mut left = line;
        'parts: while let Some((part, rest)) = cut_parts(left) {
            self.put_part(before, part, place, out)?;
            out.push(b'"')?;
            before = after(before, part);
            place += part.len() + 1;
            left = rest;
        }
        self.put_part(before, left, place, out)
    }

    // The line with its wall clock items rewritten.
    fn line(&self, line: &[u8]) -> Result<Bytes, WallFault>
        ensures { GivesLine result
            (parts_rewritten self.now.root.now self.now.start 0 [] (quote_pieces line.now)) }
    {
        let mut out = Bytes::new(self.alloc);
        self.put_line(line, &mut out)?;
        Ok(out)
    }
}

/// A line as it is read where moment 0 is the instant `start`: each item of a `begin` or an `end`
/// that begins with `wallclock(` becomes the root's begin with an offset, in its printed spelling.
/// `anchor` is the root's id, where the root has one and no `begin`. A line that isn't of the shape
/// of a node line, and one that is too long, stays as it is.
///
/// `NoAnchor` exactly where the line has such an item and there is no anchor; else the first fault
/// from left to right, with the number of bytes before the item: `Unsupported` for a time without a
/// date, `BadValue` for an item that has no reading or lies more than 10^12 milliseconds from the
/// start. `Memory` may come at any line. SMIL 3.0, "The begin and end attributes".
pub fn rewrite(
    alloc: Global,
    line: &[u8],
    anchor: Option<&[u8]>,
    start: i64,
) -> Result<Bytes, WallFault>
    ensures line { GivesLine result
        (rewritten (option_map (λ root. root.now) anchor.entry) start line.now) }
    ensures within { IfErr result (FaultWithin (length line.now)) }
{
    if !is_rewritten(line) {
        return Ok(Bytes::of(alloc, line)?);
    }
    match anchor {
        Some(root) => Rewriter { alloc, root, start }.line(line),
        None => Err(WallFault::NoAnchor),
    }
}
