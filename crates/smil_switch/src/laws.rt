//! Laws of the choice. A function here has no code: its contract is the law.

ghost use Rattle.smil_switch.specs.Laws.{ChoiceIsOfTheTree};

/// Where no line is refused, the lines that are kept one by one are those that are chosen from the
/// tree of the lines.
pub fn choice_is_of_the_tree()
    ensures { ChoiceIsOfTheTree }
{}
