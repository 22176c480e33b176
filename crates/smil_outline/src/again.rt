//! What can be written, and what is written is read again.

ghost use Rattle.std.specs.Prelude.{◌≡◌, ◌≤◌, ◌==◌, ℕ, List, [], ◌∷◌, ◌++◌, All, length, true, Option, Ok};
ghost use Rattle.smil_model.specs.declared.limits.TheConstants.{LINE_BYTES};
ghost use Rattle.std.specs.List.{slice_split};
ghost use Rattle.smil_model.specs.declared.document.Kind.{Kind};
ghost use Rattle.smil_model.specs.declared.document.Attrs.{Attrs};
ghost use Rattle.smil_model.specs.document.Values.{fit_kind, is_seq_parent};
ghost use Rattle.smil_model.specs.document.Words.{line_feed, space};
ghost use Rattle.smil_model.specs.document.Document.{Document};
ghost use Rattle.smil_model.specs.document.Valid.{IsValid};
ghost use Rattle.smil_grammar.specs.Allowed.{IsAttrs};
ghost use Rattle.smil_grammar.specs.Outlines.{lines_from, outline_text, outline_of};
ghost use Rattle.smil_outline.specs.Numbered.{renumbered};
ghost use Rattle.smil_outline.specs.Written.{saved_lines};
ghost use Rattle.smil_outline.specs.Migration.{LinesMigrate, OutlinesMigrate};

/// Attributes fit the kinds of a node and its parent exactly where each that is there is one of the
/// kind's and some text is read as it.
pub fn attrs_fit()
    ensures can_write { (kind : Kind) (parent : Option Kind) (attrs : Attrs)
        → fit_kind kind parent attrs ≡ true → IsAttrs (is_seq_parent parent) kind attrs }
    ensures is_read { (kind : Kind) (parent : Option Kind) (attrs : Attrs)
        → IsAttrs (is_seq_parent parent) kind attrs → fit_kind kind parent attrs ≡ true }
{}

/// The canonical outline of a valid document, cut at its line feeds, is its node lines and an empty
/// rest. No line has a byte below the space, so no carriage return either.
pub fn outline_lines()
    ensures cut { (document : Document) → IsValid document
        → slice_split (λ b. b == line_feed) (outline_text document.nodes)
        ≡ lines_from [] document.nodes
        ++ [] ∷ [] }
    ensures shown { (document : Document) → IsValid document
        → All (All (λ (b : ℕ). space ≤ b)) (lines_from [] document.nodes) }
{}

/// The canonical outline of a valid document none of whose lines has more than 16,384 bytes is read
/// as the same document with the positions in document order, from 1, as serials.
pub fn outline_again()
    ensures { (document : Document) → IsValid document
        → All (λ (line : List ℕ). length line ≤ LINE_BYTES) (lines_from [] document.nodes)
        → outline_of (lines_from [] document.nodes) ≡ Ok (renumbered document.nodes) }
{}

/// What is saved of a valid document is read as that document, with its serials and its next
/// serial, where no line of it has more than 16,384 bytes.
pub fn saved_again()
    ensures { (document : Document) → IsValid document
        → All (λ (line : List ℕ). length line ≤ LINE_BYTES) (saved_lines document)
        → outline_of (saved_lines document) ≡ Ok document }
{}

/// What an outline is read as is a valid document.
pub fn outline_valid()
    ensures { (lines : List (List ℕ)) (document : Document) → outline_of lines ≡ Ok document
        → IsValid document }
{}

/// Within larger limits a line, and an outline, is read as within smaller ones, where it is refused
/// for none of them.
pub fn outlines_migrate()
    ensures lines { LinesMigrate }
    ensures outlines { OutlinesMigrate }
{}
