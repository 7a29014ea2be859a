// The float that a sample gives: a whole number over 2^depth, exactly.
ghost use Rattle.std.specs.Prelude.{◌≡◌, ◌-◌, ◌^◌, ◌<◌, ◌≤◌, true, false, pos};
ghost use Rattle.float_samples.specs.Fraction.{Exactly};
ghost use Rattle.float_samples.specs.Sample.{DepthOk, Gives};

use crate::Colour;

// 2^depth.
pub(crate) fn power(depth: u32) -> u32
    requires { depth ≤ 16 }
    ensures { result ≡ 2 ^ depth }
{
    65536 >> (16 - depth)
}

// The sample in the middle of the range.
pub(crate) fn middle(depth: u32) -> u16
    requires { DepthOk depth }
    ensures { result ≡ 2 ^ (depth - 1) }
{
    power(depth - 1) as u16
}

// n / 2^depth. Neither the casts nor the division loses anything.
fn over(depth: u32, n: u16) -> f32
    requires { DepthOk depth }
    ensures { Exactly result (pos n) depth }
{
    (n as f32) / (power(depth) as f32)
}

fn luma_part(depth: u32, sample: u16) -> f32
    requires depth_ok { DepthOk depth }
    requires sample_bound { sample < 2 ^ depth }
    ensures { Gives depth false sample result }
{
    over(depth, sample)
}

fn chroma_part(depth: u32, sample: u16) -> f32
    requires depth_ok { DepthOk depth }
    requires sample_bound { sample < 2 ^ depth }
    ensures { Gives depth true sample result }
{
    let half = middle(depth);
    if sample < half {
        -over(depth, half - sample)
    } else {
        over(depth, sample - half)
    }
}

// Of a luma or of a chroma sample. `chroma` is a bool, as C passes it (tinladle_sample) and as `Gives` and the theorems
// on the way back tell it.
pub fn part(depth: u32, chroma: bool, sample: u16) -> f32
    requires depth_ok { DepthOk depth }
    requires sample_bound { sample < 2 ^ depth }
    ensures { Gives depth chroma sample result }
{
    if chroma {
        chroma_part(depth, sample)
    } else {
        luma_part(depth, sample)
    }
}

// Of the three samples of a pixel, which are no planes.
pub fn colour_of(luma_depth: u32, chroma_depth: u32, y: u16, cb: u16, cr: u16) -> Colour
    requires depth_ok { DepthOk luma_depth × DepthOk chroma_depth }
    requires y_bound { (y < 2 ^ luma_depth) × (cb < 2 ^ chroma_depth) × (cr < 2 ^ chroma_depth) }
    ensures { Gives luma_depth false y result.luma
        × Gives chroma_depth true cb result.cb
        × Gives chroma_depth true cr result.cr }
{
    Colour {
        luma: luma_part(luma_depth, y),
        cb: chroma_part(chroma_depth, cb),
        cr: chroma_part(chroma_depth, cr),
    }
}
