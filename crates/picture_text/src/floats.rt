// The floats of a pixel and the sample of a float (document 02, C-22). A float is shown by its bit pattern, eight
// hexadecimal digits.
ghost use Rattle.std.specs.Prelude.{cond, ◌≡◌, OnOk};
ghost use Rattle.std.specs.Float.{binary32};
ghost use Rattle.std.specs.Float.Ieee.{is_nan, to_bits};
ghost use Rattle.std.specs.Io.KnownBytes.{Appends};
ghost use Rattle.picture_text.specs.Lines.{pixel_line, recovered_line};

use crate::words::{put_refused, word};
use recogniser::{Pixel, PixelRefusal, SampleRefusal};
use std::io;
use std::io::Write;

// The bit pattern of a float; of a NaN, which no sample gives, the quiet one's.
pub fn bits_of(x: f32) -> u32
    ensures { result ≡ cond (is_nan x) 2143289344 (to_bits binary32 x) }
{
    if x.is_nan() {
        return 2143289344;
    }
    f32::to_bits(x)
}

// The line of a pixel: its number, the answer's number and place, and its part or parts.
pub fn put_pixel<W: Write>(
    output: &mut W,
    number: u64,
    answer: Result<Pixel, PixelRefusal>,
) -> io::Result<()>
    ensures { OnOk result (Appends (W.contents output.old) (W.contents output.new) (pixel_line number answer)) }
{
    match answer {
        Ok(Pixel::Grey(luma)) => writeln!(output, "{number} 0 0 {}", word(bits_of(luma))),
        Ok(Pixel::Colour(parts)) => {
            let luma = word(bits_of(parts.luma));
            let cb = word(bits_of(parts.cb));
            let cr = word(bits_of(parts.cr));
            writeln!(output, "{number} 0 0 {luma} {cb} {cr}")
        }
        Err(PixelRefusal::Planes(refusal)) => put_refused(output, number, refusal),
        Err(PixelRefusal::Outside) => writeln!(output, "{number} 14 0"),
    }
}

// The line of a float: its number, the answer's number and place, and its sample.
pub fn put_recovered<W: Write>(
    output: &mut W,
    number: u64,
    answer: Result<u16, SampleRefusal>,
) -> io::Result<()>
    ensures { OnOk result (Appends (W.contents output.old) (W.contents output.new) (recovered_line number answer)) }
{
    match answer {
        Ok(sample) => writeln!(output, "{number} 0 0 {sample}"),
        Err(SampleRefusal::Depth) => writeln!(output, "{number} 3 0"),
        Err(SampleRefusal::NoSample) => writeln!(output, "{number} 15 0"),
    }
}
