//! Why a diary takes no further entry.

ghost use Rattle.std.specs.Prelude.{◌≡◌};
ghost use Rattle.smil_diary.specs.declared.fault.BookFault.TheVariants as book_fault;

use smil_model::Refusal;
use std::alloc::AllocError;
use thiserror::Error;

/// Why a diary takes no further entry.
#[derive(Clone, Copy, Debug, PartialEq, Eq, Error)]
pub enum BookFault {
    /// It has as many entries as a diary may have.
    #[error("the diary is full")]
    DiaryFull,
    /// Memory ran out.
    #[error("memory ran out")]
    Memory,
}

impl From<AllocError> for BookFault {
    ghost from_gives = { λ _ fault. fault ≡ book_fault.Memory };

    fn from(_: AllocError) -> BookFault {
        BookFault::Memory
    }
}

impl From<BookFault> for Refusal {
    ghost use Rattle.smil_diary.specs.Refusals.{of_book};

    ghost from_gives = { λ fault refusal. refusal ≡ of_book fault };

    fn from(fault: BookFault) -> Self {
        match fault {
            BookFault::DiaryFull => Refusal::DiaryFull,
            BookFault::Memory => Refusal::Memory,
        }
    }
}
