// Every sample of every depth there and back (document 02, C-22): a line for each depth, of luma and of chroma. It says
// how many samples come back as themselves, and all floats on the way as one number.
#![tactic(auto)]

ghost use Rattle.std.specs.Prelude.{◌^◌, ◌<◌, ◌≡◌};
ghost use Rattle.float_samples.specs.Sample.{DepthOk, Gives};
ghost use Rattle.sample_trips.specs.Trip.{patterns};

use fingerprint::{BASIS, with_word};
use float_samples::part;
use ints::largest_at;
use picture_text::bits_of;
use recogniser::sample_of;
use std::io;
use std::io::Write;

// What is shown of the samples of a depth.
#[derive(Clone, Copy)]
struct Trip {
    count: u32,
    patterns: u64,
}

// 1 where the float is taken back to the sample.
fn comes_back(depth: u32, chroma: bool, sample: u16, float: f32) -> u32
    requires { DepthOk depth × Gives depth chroma sample float }
    ensures { result ≡ 1 }
{
    match sample_of(depth, chroma, float) {
        Ok(back) if back == sample => 1,
        _ => 0,
    }
}

// All samples of a depth.
fn all_samples(depth: u32, chroma: bool) -> Trip
    requires { DepthOk depth }
    ensures { (result.count ≡ 2 ^ depth) × (result.patterns ≡ patterns depth chroma (2 ^ depth)) }
{
    let mut count = 0;
    let mut patterns = BASIS;
    for sample in 0..=largest_at(depth) {
        let float = part(depth, chroma, sample);
        patterns = with_word(patterns, bits_of(float));
        count += comes_back(depth, chroma, sample, float);
    }
    Trip { count, patterns }
}

// The lines of a depth, of luma and of chroma.
fn put_depth<W: Write>(output: &mut W, depth: u32) -> io::Result<()>
    requires { DepthOk depth }
{
    let Trip { count, patterns } = all_samples(depth, false);
    writeln!(output, "{depth} luma {count} {patterns:016x}")?;
    let Trip { count, patterns } = all_samples(depth, true);
    writeln!(output, "{depth} chroma {count} {patterns:016x}")
}

fn put_depths<W: Write>(output: &mut W) -> io::Result<()> {
    for depth in 8..=16 {
        put_depth(output, depth)?;
    }
    Ok(())
}

// Where the output takes no more, the rest is left out.
fn main(rt: HostRuntime) {
    let _ = put_depths(&mut rt.stdout());
}
