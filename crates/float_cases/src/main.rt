// The way back of stored floats (document 02, C-22): records of three words from standard input, a line for each to
// standard output. oracle/README.md has the layout of both.
#![tactic(auto)]

ghost use Rattle.std.specs.Prelude.{◌≡◌};
ghost use Rattle.std.specs.Float.{binary32};
ghost use Rattle.std.specs.Float.Ieee.{of_bits};

use picture_record::{Stop, each_record, read_head, word};
use picture_text::put_recovered;
use recogniser::sample_of;
use std::io::{Read, Write};

// The float of a bit pattern. Rattle has one NaN, which has no pattern, so that `from_bits` takes none: 0/0 makes it.
fn float_of(bits: u32) -> f32
    ensures { result ≡ of_bits binary32 bits }
{
    if 2139095040 < bits % 2147483648 {
        return 0.0 / 0.0;
    }
    f32::from_bits(bits)
}

// The next record: the depth, luma or chroma, and the float's pattern.
fn one_float<R: Read, W: Write>(input: &mut R, output: &mut W, number: u64) -> Result<(), Stop> {
    let words = read_head::<12, R>(input)?;
    let value = float_of(word(&words, 2));
    put_recovered(
        output,
        number,
        sample_of(word(&words, 0), word(&words, 1) != 0, value),
    )?;
    Ok(())
}

fn main(rt: HostRuntime) {
    each_record(&mut rt.stdin(), &mut rt.stdout(), |input, output, number| {
        one_float(input, output, number)
    });
}
