//! What is read can be written, and what was written is read again.

ghost use Rattle.std.specs.Prelude.{◌≡◌, ℕ, Bool, List, All, Ok};
ghost use Rattle.smil_model.specs.declared.document.Item.{Item};
ghost use Rattle.smil_grammar.specs.Items.{item_of, IsItem};
ghost use Rattle.smil_grammar.specs.Lists.{list_of, IsList};
ghost use Rattle.smil_grammar.specs.Spellings.{item_text, list_text, CanWrite};

/// An item that is read from some text can be written, and its printed spelling is read as the same
/// item.
pub fn item_again()
    ensures can_write { (item : Item) → IsItem item → CanWrite item }
    ensures again { (item : Item) → IsItem item → item_of (item_text item) ≡ Ok item }
{}

/// A list that is read from some text has 1 to 32 such items; one that begins a child of a seq is
/// one offset that isn't negative. The printed spelling of each such list is read as the same
/// items.
pub fn list_again()
    ensures is_list { (seq_child : Bool) (text : List ℕ) (items : List Item)
        → list_of seq_child text ≡ Ok items → IsList seq_child items }
    ensures can_write { (seq_child : Bool) (items : List Item) → IsList seq_child items
        → All CanWrite items }
    ensures again { (seq_child : Bool) (items : List Item) → IsList seq_child items
        → list_of seq_child (list_text items) ≡ Ok items }
{}
