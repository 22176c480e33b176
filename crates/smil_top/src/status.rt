//! How a call ends.

ghost use Rattle.std.specs.Prelude.{◌≡◌};
ghost use Rattle.smil_top.specs.Words.{exit_number_of, is_told as is_told_by};

/// How a call of `serve` ended.
#[derive(Clone, Copy)]
pub enum Status {
    /// The input, where one is read, was read to its end, and every order was accepted; or its
    /// diary is right.
    Clean,
    /// The input, where one is read, was read to its end, and an order was refused; or its diary is
    /// wrong, or a line of an audit faulty.
    Refused,
    /// The words are none that the program knows.
    Words,
    /// A read failed.
    ReadFault,
    /// A write failed.
    WriteFault,
    /// There was no memory to begin with, or an order was refused since memory ran out; or memory
    /// ran out with `gen` or `audit`.
    Memory,
    /// The input is longer than the limit.
    InputTooLong,
}

impl Status {
    /// Whether the whole input was answered, and no order was refused since memory ran out.
    pub(crate) fn is_told(self) -> bool
        ensures { result ≡ is_told_by self }
    {
        matches!(self, Status::Clean | Status::Refused)
    }

    /// The number with which the program ends.
    pub fn exit_number(self) -> u8
        ensures { result ≡ exit_number_of self }
    {
        match self {
            Status::Clean => 0,
            Status::Refused => 1,
            Status::Words => 2,
            Status::ReadFault => 3,
            Status::WriteFault => 4,
            Status::Memory => 5,
            Status::InputTooLong => 6,
        }
    }
}
