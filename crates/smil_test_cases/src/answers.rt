//! Programs that answer the lines of their input.

use super::fault::Fault;
use super::lines::end_line;
use super::printed::put;
use super::words::Words;
use smil_model::Bytes;
use std::alloc::{AllocError, Global};
use std::io::{self, BufRead, BufReader, BufWriter, Read, Write};

/// What the cases of a program ask for.
pub trait Cases {
    /// Appends the answer to a case.
    fn answer(alloc: Global, words: &mut Words<'_>, out: &mut Bytes) -> Result<(), Fault>;
}

/// Writes what answers each case of an input, a line each. A line that begins with `# ` is a heading
/// of the cases behind it, and is written as it stands.
pub fn answer_cases<C, R, W>(alloc: Global, input: R, output: W) -> io::Result<()>
where
    C: Cases,
    R: Read + Drop,
    W: Write + Drop,
{
    let mut out = BufWriter::new(alloc, output)?;
    answer_lines(alloc, input, &mut out, |line, text| {
        let outcome = if line.starts_with("# ") {
            put(text, line).map_err(Fault::from)
        } else {
            C::answer(alloc, &mut Words::of_line(line), text)
        };
        end_line(text, outcome)
    })?;
    out.flush()
}

/// Writes what answers each line of an input.
pub fn answer_lines<R, W, F>(alloc: Global, input: R, out: &mut W, mut answer: F) -> io::Result<()>
where
    R: Read + Drop,
    W: Write,
    F: FnMut(&str, &mut Bytes) -> Result<(), AllocError>,
    requires { F.IsAlwaysCallable answer }
{
    for line in BufReader::new(alloc, input)?.lines(alloc) {
        let line = line?;
        let mut text = Bytes::new(alloc);
        answer(line.as_str(), &mut text)?;
        out.write_all(text.slice())?;
    }
    Ok(())
}
