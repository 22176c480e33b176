//! The answers of a line reader, and the limit of its input.

ghost use Rattle.std.specs.Prelude.{◌≡◌};

/// The most bytes that an input may have.
pub const INPUT_BYTES: usize = 67_108_864;

/// What a line reader answers.
#[derive(Clone, Copy, Debug, PartialEq, Eq)]
pub enum Line {
    /// A line, which `LineReader::bytes` gives.
    Bytes,
    /// A line of more than `LINE_BYTES` bytes, which was read to its end.
    LongLine,
    /// The input has ended, and every line was answered.
    End,
    /// `INPUT_BYTES` bytes were read, every whole line in them was answered, and a further byte
    /// came.
    InputTooLong,
    /// A read failed, and every whole line that was read was answered.
    ReadFault,
}

/// How the input ended.
#[derive(Clone, Copy)]
pub(crate) enum Ending {
    End,
    InputTooLong,
    ReadFault,
}

impl Ending {
    ghost use Rattle.smil_outside.specs.ReaderState.{answer_of};

    /// The answer once the input has ended so.
    pub(crate) fn answer(self) -> Line
        ensures { result ≡ answer_of self }
    {
        match self {
            Ending::End => Line::End,
            Ending::InputTooLong => Line::InputTooLong,
            Ending::ReadFault => Line::ReadFault,
        }
    }
}
