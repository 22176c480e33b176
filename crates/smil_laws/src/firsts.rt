//! Laws of what comes first. A function here has no code: its
//! contract is the law.

ghost use Rattle.smil_laws.specs.Firsts.{FirstHasLeastKey, FirstIsOfElement};

/// What comes first has the least key.
pub fn first_has_least_key()
    ensures { FirstHasLeastKey }
{}

/// What comes first is of an element of the document, and is what its key stands for.
pub fn first_is_of_element()
    ensures { FirstIsOfElement }
{}
