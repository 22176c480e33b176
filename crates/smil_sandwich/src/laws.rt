//! Laws of the sandwich. A function here has no code: its contract is the law.

ghost use Rattle.smil_sandwich.specs.Stacks.{AppliedIsStack, AppliedAreKept, ChangeIsKept};

/// Whatever layers are applied, one after another, of different sets that stand at different
/// places, the stacks are those of these layers, made from scratch.
pub fn applied_is_stack()
    ensures { AppliedIsStack }
{}

/// Whatever layers are applied, one after another, of different sets that stand at different
/// places, what is kept is these layers from the top down.
pub fn applied_are_kept()
    ensures { AppliedAreKept }
{}

/// Where the layers of the sets are kept from the top down, and the layer of one of them comes,
/// changes or goes, then with this change applied those that are now are kept from the top down.
pub fn change_is_kept()
    ensures { ChangeIsKept }
{}
