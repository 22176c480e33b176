//! Why and where an order is refused.

ghost use Rattle.std.specs.Prelude.{◌≡◌};
ghost use Rattle.smil_top.specs.Answers.{at_line};

use smil_model::Refusal;

/// The refusal of an order, and the number of the line where its fault stands.
#[derive(Clone, Copy, Drop)]
pub struct Fault {
    pub line: u32,
    pub refusal: Refusal,
}

impl Fault {
    /// A refusal that stands at this line.
    pub(crate) fn at(line: u32, answered: Result<(), Refusal>) -> Result<(), Fault>
        ensures { result ≡ at_line line answered }
    {
        match answered {
            Ok(()) => Ok(()),
            Err(refusal) => Err(Fault { line, refusal }),
        }
    }
}
