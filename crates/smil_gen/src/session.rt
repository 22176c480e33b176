//! The session of a number.

ghost use Rattle.std.specs.Prelude.{◌≡◌, ◌++◌, decimal, OnOk, IfOk};
ghost use Rattle.smil_gen.specs.Session.{image_line, lines_to, order_lines, part_lines, session_text, text_line};

use itoa::Buffer;
use smil_model::Bytes;
use std::alloc::{AllocError, Global};

/// A part of a session.
#[derive(Clone, Copy)]
pub enum Part {
    /// The images of the seq.
    Images,
    /// The texts beside them.
    Texts,
    /// The orders: a second passes, and an image is clicked.
    Orders,
}

/// The bytes of the session of a number: a seq of so many images, each with a text that begins half
/// a second after it, and for each a second of time and a click; then all that is shown. Unless
/// memory runs out.
pub fn session_bytes(alloc: Global, number: u32) -> Result<Bytes, AllocError>
    ensures { IfOk result (λ bytes. bytes ≡ session_text number) }
{
    let mut out = Bytes::new(alloc);
    out.append(b"load g\npar id=\"r\"\n  seq id=\"s\"\n")?;
    put_lines(&mut out, Part::Images, number)?;
    out.append(b"  par id=\"t\"\n")?;
    put_lines(&mut out, Part::Texts, number)?;
    out.append(b"%%\n")?;
    put_lines(&mut out, Part::Orders, number)?;
    out.append(b"g show\n")?;
    Ok(out)
}

// Appends the lines of a part, from the first to the last number.
fn put_lines(out: &mut Bytes, part: Part, number: u32) -> Result<(), AllocError>
    ensures { OnOk result (out.new ≡ out.old ++ lines_to part number) }
{
    for before in 0..number {
        put_part(out, part, before + 1)?;
    }
    Ok(())
}

// Appends the lines of one number.
fn put_part(out: &mut Bytes, part: Part, k: u32) -> Result<(), AllocError>
    ensures { OnOk result (out.new ≡ out.old ++ part_lines part k) }
{
    match part {
        Part::Images => put_image(out, k),
        Part::Texts => put_text(out, k),
        Part::Orders => put_orders(out, k),
    }
}

// Appends the line of an image.
fn put_image(out: &mut Bytes, k: u32) -> Result<(), AllocError>
    ensures { OnOk result (out.new ≡ out.old ++ image_line k) }
{
    put(out, b"    img id=\"p", k)?;
    put(out, b"\" dur=\"", 1 + k % 4)?;
    out.append(b"s\" end=\"click\"\n")
}

// Appends the line of a text.
fn put_text(out: &mut Bytes, k: u32) -> Result<(), AllocError>
    ensures { OnOk result (out.new ≡ out.old ++ text_line k) }
{
    put(out, b"    text id=\"c", k)?;
    put(out, b"\" begin=\"p", k)?;
    out.append(b".begin+500ms\" dur=\"1s\"\n")
}

// Appends the two orders of an image.
fn put_orders(out: &mut Bytes, k: u32) -> Result<(), AllocError>
    ensures { OnOk result (out.new ≡ out.old ++ order_lines k) }
{
    put(out, b"g advance 1s\ng event p", k)?;
    out.append(b" click\n")
}

// Appends a text and a number behind it.
fn put(out: &mut Bytes, text: &[u8], number: u32) -> Result<(), AllocError>
    ensures { OnOk result (out.new ≡ out.old ++ (text.now ++ decimal number)) }
{
    let mut buffer = Buffer::new();
    out.append(text)?;
    out.append(buffer.format(number).as_bytes())
}

#[cfg(test)]
mod tests {
    use super::*;
    use std::test::Fail;

    #[test]
    fn session_of_1(rt: HostRuntime) -> Result<(), Fail> {
        let bytes = session_bytes(rt.alloc(), 1)?;
        assert_eq!(rt;
            bytes.slice(),
            b"load g\npar id=\"r\"\n  seq id=\"s\"\n    img id=\"p1\" dur=\"2s\" end=\"click\"\n  par id=\"t\"\n    text id=\"c1\" begin=\"p1.begin+500ms\" dur=\"1s\"\n%%\ng advance 1s\ng event p1 click\ng show\n".as_slice()
        );
        Ok(())
    }
}
