//! The root's line, by whose id rewriting goes.

ghost use Rattle.std.specs.Prelude.{◌≡◌, []};
ghost use Rattle.smil_grammar.specs.Nodes.{quote_pieces};
ghost use Rattle.smil_wall.specs.Rewriting.{value_place as value_place_in, anchor_of};

use super::rewriting::{after, cut_parts, is_shaped};

// The place and the length of the first value in a line that stands behind these bytes.
fn value_place(name: &[u8], line: &[u8]) -> Option<(usize, usize)>
    ensures { result ≡ value_place_in name.now 0 [] (quote_pieces line.now) }
{
    let mut before: &[u8] = &[];
    let mut place = 0;
    let mut left = line;
    'parts: while let Some((part, rest)) = cut_parts(left) {
        if before.ends_with(name) {
            return Some((place, part.len()));
        }
        before = after(before, part);
        place += part.len() + 1;
        left = rest;
    }
    if before.ends_with(name) {
        Some((place, left.len()))
    } else {
        None
    }
}

/// The place and the length of the id in the root's line; none exactly where the line isn't of the
/// shape of a node line, has no `id`, or has `begin`. It takes no memory.
pub fn anchor(line: &[u8]) -> Option<(usize, usize)>
    ensures { result ≡ anchor_of line.now }
{
    if !is_shaped(line) || value_place(b" begin=", line).is_some() {
        return None;
    }
    value_place(b" id=", line)
}
