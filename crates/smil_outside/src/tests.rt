//! What no contract says: that the calls succeed with ample memory, and lines of the outside world.

use crate::{
    Failed, INPUT_BYTES, Line, LineReader, MemSink, MemSource, Sink, Source, StdSink, StdSource,
    write_all, write_out,
};
use std::io;
use std::io::{Error, Read, Write};
use std::process::Abort;
use std::test::Fail;

// Reads to the end, and gives each answer on a line of its own, a line as its number and its bytes.
fn answers<R: AllocGlobal + Abort, S: Source>(rt: &R, source: &mut S) -> Result<Vec<u8>, Fail> {
    let mut reader = LineReader::new(rt.alloc())?;
    let mut out = Vec::new(rt.alloc());
    for _ in 0..32 {
        let answer = reader.next(source);
        match answer {
            Line::Bytes => {
                let number = format!(in rt.alloc(); "{}:", reader.number())?;
                out.extend_from_slice(number.as_bytes())?;
                out.extend_from_slice(reader.bytes())?;
                out.push(b'\n')?;
            }
            Line::LongLine => out.extend_from_slice(b"long\n")?,
            ended => {
                let word = format!(in rt.alloc(); "{ended:?}")?;
                out.extend_from_slice(word.as_bytes())?;
                assert_eq!(rt; reader.next(source), ended);
                assert!(rt; reader.bytes().is_empty());
                return Ok(out);
            }
        }
    }
    Ok(out)
}

// Reads to the end, and expects these answers.
fn expect_lines<R: AllocGlobal + Abort>(
    rt: &R,
    mut source: MemSource,
    wanted: &str,
) -> Result<(), Fail> {
    let found = answers(rt, &mut source)?;
    assert_eq!(rt; found.as_slice(), wanted.as_bytes());
    Ok(())
}

#[test]
fn cuts_lines_whatever_the_chunks(rt: HostRuntime) -> Result<(), Fail> {
    for chunk in [1, 2, 3, 100] {
        assert!(rt; chunk > 0);
        let text = b"one\r\n\ntwo\rx\n\r\n\r\r\nlast\r";
        let wanted = "1:one\n2:\n3:two\rx\n4:\n5:\r\n6:last\r\nEnd";
        expect_lines(&rt, MemSource::new(rt.alloc(), text, chunk, &[])?, wanted)?;
        expect_lines(
            &rt,
            MemSource::new(rt.alloc(), b"a\n", chunk, &[])?,
            "1:a\nEnd",
        )?;
        expect_lines(&rt, MemSource::new(rt.alloc(), b"", chunk, &[])?, "End")?;
    }
    Ok(())
}

#[test]
fn tells_whether_a_line_has_come(rt: HostRuntime) -> Result<(), Fail> {
    let mut source = MemSource::new(rt.alloc(), b"a\nb\nrest", 6, &[])?;
    let mut reader = LineReader::new(rt.alloc())?;
    assert!(rt; !reader.has_line());
    assert_eq!(rt; reader.next(&mut source), Line::Bytes);
    assert!(rt; reader.has_line());
    assert_eq!(rt; reader.next(&mut source), Line::Bytes);
    assert!(rt; !reader.has_line());
    Ok(())
}

#[test]
fn whole_lines_come_before_a_fault(rt: HostRuntime) -> Result<(), Fail> {
    let early = MemSource::new(rt.alloc(), b"a\nb\n", 9, &[1])?;
    expect_lines(&rt, early, "ReadFault")?;
    let later = MemSource::new(rt.alloc(), b"a\nb\nrest\n", 6, &[2])?;
    expect_lines(&rt, later, "1:a\n2:b\nReadFault")
}

// Reads the first line of so many bytes and this end.
fn expect_first<R: AllocGlobal + Abort>(
    rt: &R,
    len: usize,
    end: &str,
    wanted: Line,
) -> Result<(), Fail> {
    let mut bytes = vec![in rt.alloc(); b'x'; len]?;
    bytes.extend_from_slice(end.as_bytes())?;
    let mut source = MemSource::new(rt.alloc(), &bytes, 70_000, &[])?;
    let mut reader = LineReader::new(rt.alloc())?;
    assert_eq!(rt; reader.next(&mut source), wanted, "{len} and {end:?}");
    assert_eq!(rt; reader.number(), 1);
    Ok(())
}

#[test]
fn long_lines(rt: HostRuntime) -> Result<(), Fail> {
    expect_first(&rt, 16_384, "\r\n", Line::Bytes)?;
    expect_first(&rt, 16_385, "\n", Line::LongLine)?;
    expect_first(&rt, 16_385, "", Line::LongLine)?;
    expect_first(&rt, 200_000, "\r\nnext", Line::LongLine)
}

// Gives lines of 64 bytes, until so many bytes are given, or until there is room for less than 16.
#[derive(Drop)]
struct Lines {
    left: usize,
}

impl Source for Lines {
    ghost use Rattle.std.specs.Prelude.{None};

    ghost rest = { λ _. None };

    ghost faults = { λ _. 0 };

    fn read(&mut self, buf: &mut [u8]) -> Result<usize, Failed> {
        if buf.len() < 16 {
            return Ok(0);
        }
        let n = buf.len().min(self.left);
        for (place, byte) in buf.iter_mut().enumerate() {
            *byte = if place % 64 == 63 { b'\n' } else { b'x' };
        }
        self.left -= n;
        Ok(n)
    }
}

// Reads so many bytes to the first answer that is no line, and expects this one.
fn expect_limit<R: AllocGlobal + Abort>(rt: &R, left: usize, wanted: Line) -> Result<(), Fail> {
    let mut source = Lines { left };
    let mut reader = LineReader::new(rt.alloc())?;
    let mut answer = Line::Bytes;
    for _ in 0..INPUT_BYTES {
        answer = reader.next(&mut source);
        if answer != Line::Bytes {
            break;
        }
    }
    assert_eq!(rt; answer, wanted);
    assert_eq!(rt; reader.number(), 1_048_576);
    Ok(())
}

#[test]
fn input_limit(rt: HostRuntime) -> Result<(), Fail> {
    expect_limit(&rt, INPUT_BYTES, Line::End)?;
    expect_limit(&rt, INPUT_BYTES + 1, Line::InputTooLong)
}

#[test]
fn writes_all_or_a_part(rt: HostRuntime) -> Result<(), Fail> {
    let mut sink = MemSink::new(rt.alloc(), 5, &[3])?;
    assert_eq!(rt; write_all(&mut sink, b"abc"), Ok(()));
    assert_eq!(rt; write_all(&mut sink, b"def"), Err(Failed));
    assert_eq!(rt; write_all(&mut sink, b"de"), Err(Failed));
    assert_eq!(rt; write_out(&mut sink, b"de"), Ok(()));
    assert_eq!(rt; sink.hand_on(), Ok(()));
    assert_eq!(rt; sink.bytes(), b"abcde".as_slice());
    Ok(())
}

// A reader and a writer of one byte at a time, which fail once nothing is left: a write of the last
// byte at its flush.
#[derive(Drop)]
struct Pipe {
    left: usize,
}

impl Read for Pipe {
    fn read(&mut self, buf: &mut [u8]) -> io::Result<usize> {
        if self.left == 0 {
            return Err(Error::other("nothing is left"));
        }
        if buf.is_empty() {
            return Ok(0);
        }
        buf[0] = b'\n';
        self.left -= 1;
        Ok(1)
    }
}

impl Write for Pipe {
    fn write(&mut self, piece: &[u8]) -> io::Result<usize> {
        let n = self.left.min(piece.len()).min(1);
        self.left -= n;
        Ok(n)
    }

    fn flush(&mut self) -> io::Result<()> {
        if self.left == 0 {
            return Err(Error::other("nothing is left"));
        }
        Ok(())
    }
}

#[test]
fn over_std(rt: HostRuntime) -> Result<(), Fail> {
    let mut source = StdSource::new(Pipe { left: 2 });
    let found = answers(&rt, &mut source)?;
    assert_eq!(rt; found.as_slice(), b"1:\n2:\nReadFault".as_slice());
    let mut sink = StdSink::new(Pipe { left: 3 });
    assert_eq!(rt; write_out(&mut sink, b"ab"), Ok(()));
    assert_eq!(rt; write_all(&mut sink, b"c"), Ok(()));
    assert_eq!(rt; sink.hand_on(), Err(Failed));
    assert_eq!(rt; write_out(&mut sink, b""), Ok(()));
    assert_eq!(rt; write_all(&mut sink, b"d"), Err(Failed));
    Ok(())
}
