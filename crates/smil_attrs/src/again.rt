//! What is read can be written, and what was written is read again.

ghost use Rattle.std.specs.Prelude.{◌≡◌, ℕ, Bool, IsTrue, false, List, Option, Ok};
ghost use Rattle.smil_model.specs.declared.document.Kind.{Kind};
ghost use Rattle.smil_model.specs.declared.document.Attr.{Attr};
ghost use Rattle.smil_model.specs.declared.document.AttrName.{AttrName};
ghost use Rattle.smil_model.specs.declared.document.Attrs.{Attrs};
ghost use Rattle.smil_model.specs.document.Edits.{with_attr, without_attr};
ghost use Rattle.smil_model.specs.document.Values.{is_seq_parent};
ghost use Rattle.smil_model.specs.document.Valid.{may_stand};
ghost use Rattle.smil_grammar.specs.Attributes.{has, name_text};
ghost use Rattle.smil_grammar.specs.Nodes.{attribute_of, node_of};
ghost use Rattle.smil_grammar.specs.Spellings.{attr_text, node_text};
ghost use Rattle.smil_grammar.specs.Allowed.{name_of, IsAttr, IsAttrs};

/// An attribute that is read is one of the kind's. Its name and the printed spelling of its value
/// are read as the same attribute.
pub fn attr_again()
    ensures is_attr { (in_seq : Bool) (kind : Kind) (name value : List ℕ) (attr : Attr)
        → attribute_of in_seq kind name value ≡ Ok attr → IsTrue (has kind (name_of attr))
        × IsAttr in_seq attr }
    ensures again { (in_seq : Bool) (kind : Kind) (attr : Attr) → IsTrue (has kind (name_of attr))
        → IsAttr in_seq attr → attribute_of in_seq kind (name_text (name_of attr)) (attr_text attr)
        ≡ Ok attr }
{}

/// What is read from a node line is a child that the parent can have, with attributes of its kind.
/// The canonical line of each such child is read as the same kind and attributes.
pub fn node_again()
    ensures is_child { (parent : Option Kind) (line : List ℕ) (kind : Kind) (attrs : Attrs)
        → node_of parent line ≡ Ok (kind, attrs) → IsTrue (may_stand parent kind)
        × IsAttrs (is_seq_parent parent) kind attrs }
    ensures again { (parent : Option Kind) (kind : Kind) (attrs : Attrs)
        → IsTrue (may_stand parent kind) → IsAttrs (is_seq_parent parent) kind attrs
        → node_of parent (node_text 0 kind attrs) ≡ Ok (kind, attrs) }
{}

/// Attributes that a kind can have stay so where one is set or taken away, and outside a seq too.
pub fn attrs_kept()
    ensures set { (in_seq : Bool) (kind : Kind) (attrs : Attrs) (attr : Attr)
        → IsAttrs in_seq kind attrs → IsTrue (has kind (name_of attr)) → IsAttr in_seq attr
        → IsAttrs in_seq kind (with_attr attrs attr) }
    ensures unset { (in_seq : Bool) (kind : Kind) (attrs : Attrs) (name : AttrName)
        → IsAttrs in_seq kind attrs → IsAttrs in_seq kind (without_attr attrs name) }
    ensures anywhere { (in_seq : Bool) (kind : Kind) (attrs : Attrs) → IsAttrs in_seq kind attrs
        → IsAttrs false kind attrs }
{}
