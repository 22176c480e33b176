//! Begin and end lists.

ghost use Rattle.std.specs.Prelude.{◌≡◌, ℕ, ◌==◌, count_by, ◌≤◌, ◌<◌, ◌+◌, ◌^◌, ◌||◌, ◌&&◌, Bool, true, false, MatchOption, IfSome, IfOk, All, List, [], ◌∷◌, length, Result, Ok};
ghost use Rattle.smil_model.specs.declared.limits.TheConstants.{ITEMS};
ghost use Rattle.smil_grammar.specs.Texts.{semicolon};
ghost use Rattle.smil_grammar.specs.Lists.{list_of, few_items, items_from, piece_at, is_plain as is_plain_list, item_pieces, GivesList, is_begin};
ghost use Rattle.smil_grammar.specs.Spellings.{CanWrite};
ghost use Rattle.smil_time_list.specs.Pieces.{with_front, GivesMore};

use super::items::item;
use smil_grammar::{ItemFault, ListFault};
use smil_lexis::runs::white;
use smil_lexis::texts::{cut, trim};
use smil_model::{Edge, ITEMS, Item, Items};
use std::alloc::Global;

// What stands before and behind the first `;`.
fn split(text: &[u8]) -> Option<(&[u8], &[u8])>
    ensures pieces { MatchOption result (item_pieces text.now ≡ text.now ∷ [])
        (λ cut. item_pieces text.now ≡ cut.0.now ∷ item_pieces cut.1.now) }
    ensures length { IfSome result
        (λ cut. length cut.0.now + 1 + length cut.1.now ≡ length text.now) }
{
    cut(text, b';')
}

// How many `;` a text has.
fn semicolons(text: &[u8]) -> usize
    ensures { result ≡ count_by (λ b. b == semicolon) text.now }
{
    text.iter().filter(|byte| **byte == b';').count()
}

// How a list is read: with memory for its items, and the place at which a malformed item is
// answered where it isn't the item's own.
#[derive(Clone, Copy)]
struct Reader {
    alloc: Global,
    first: Option<usize>,
}

impl Reader {
    // The item of a piece, which stands at this place.
    fn piece(&self, text: &[u8], place: usize) -> Result<Item, ListFault>
        requires { place + length text.now < 2 ^ 64 }
        ensures { GivesList result (piece_at self.now.first place text.now) }
    {
        let here = place + white(text);
        match item(self.alloc, trim(text)) {
            Ok(item) => Ok(item),
            Err(ItemFault::Bad) => Err(ListFault::Bad {
                place: self.first.unwrap_or(here),
            }),
            Err(ItemFault::Unsupported) => Err(ListFault::Unsupported { place: here }),
            Err(ItemFault::Memory) => Err(ListFault::Memory),
        }
    }

    // Reads the pieces of a text, which stands at this place, and appends their items.
    fn more(&self, items: &mut Items, text: &[u8], place: usize) -> Result<(), ListFault>
        requires place { place + length text.now < 2 ^ 64 }
        requires room { length items.old + length (item_pieces text.now) ≤ ITEMS }
        ensures { GivesMore items.new result
            (with_front items.old (items_from self.now.first place (item_pieces text.now))) }
    {
        match split(text) {
            Some((front, rest)) => {
                items.push(self.piece(front, place)?)?;
                self.more(items, rest, place + front.len() + 1)
            }
            None => {
                items.push(self.piece(text, place)?)?;
                Ok(())
            }
        }
    }

    // The items of a text of no more pieces than a list may have.
    fn all(&self, text: &[u8]) -> Result<Items, ListFault>
        requires { length (item_pieces text.now) ≤ ITEMS }
        ensures { GivesList result (items_from self.now.first 0 (item_pieces text.now)) }
    {
        match split(text) {
            Some((front, rest)) => {
                let mut items = Items::new(self.alloc, self.piece(front, 0)?)?;
                self.more(&mut items, rest, front.len() + 1)?;
                Ok(items)
            }
            None => {
                let items = Items::new(self.alloc, self.piece(text, 0)?)?;
                Ok(items)
            }
        }
    }

    // The items of a text.
    #[tactic(auto, using(crate::proofs::PieceCount::pieces_count))]
    fn few(&self, text: &[u8]) -> Result<Items, ListFault>
        ensures { GivesList result (few_items self.now.first text.now) }
    {
        if semicolons(text) >= ITEMS {
            return Err(ListFault::TooManyItems);
        }
        self.all(text)
    }
}

// Whether a list is one offset that isn't negative.
fn is_plain(items: &Items) -> bool
    ensures { result ≡ is_plain_list items.now }
{
    if items.len() != 1 {
        return false;
    }
    match items.get(0) {
        Some(Item::Offset { offset }) => *offset >= 0,
        _ => false,
    }
}

// The begin of a child of a seq.
fn plain(alloc: Global, text: &[u8]) -> Result<Items, ListFault>
    ensures { GivesList result (list_of true text.now) }
{
    let place = white(text);
    let reader = Reader {
        alloc,
        first: Some(place),
    };
    let items = reader.few(text)?;
    if is_plain(&items) {
        Ok(items)
    } else {
        Err(ListFault::Bad { place })
    }
}

/// The items of a begin or end list, in the order in which they are written. `TooManyItems` where
/// there are more than 32; else the first fault from left to right, with the number of bytes before
/// the item: `Unsupported` for an item of a form that is left out, `Bad` for one outside the
/// grammar. The begin of a child of a seq is one offset that isn't negative: any other list, also
/// one with an item outside the grammar, is `Bad` at its first item. `Memory` may come at any item.
pub fn read_list(
    alloc: Global,
    bytes: &[u8],
    side: Edge,
    seq_child: bool,
) -> Result<Items, ListFault>
    ensures items { GivesList result (list_of (seq_child && is_begin side) bytes.now) }
    ensures can_write { IfOk result (All CanWrite) }
{
    if seq_child && matches!(side, Edge::Begin) {
        plain(alloc, bytes)
    } else {
        Reader { alloc, first: None }.few(bytes)
    }
}
