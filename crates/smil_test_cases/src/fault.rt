//! Why a line of a program for tests has no answer.

use smil_model::Refusal;
use std::alloc::AllocError;

/// Why a line of a program for tests, as a case, has no answer.
#[derive(Clone, Copy)]
pub enum Fault {
    /// The line or a word has no reading where it stands, or the call may not be made with its
    /// value.
    Refused,
    /// Memory ran out.
    Memory,
}

impl Fault {
    /// The word that answers the line.
    pub fn word(self) -> &'static str {
        match self {
            Fault::Refused => "refused",
            Fault::Memory => "memory",
        }
    }
}

impl From<AllocError> for Fault {
    fn from(_: AllocError) -> Fault {
        Fault::Memory
    }
}

impl From<Refusal> for Fault {
    fn from(refusal: Refusal) -> Fault {
        match refusal {
            Refusal::Memory => Fault::Memory,
            _ => Fault::Refused,
        }
    }
}
