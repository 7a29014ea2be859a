// The way back, behind the check of the depth.
ghost use Rattle.recogniser.specs.WayBack.{WayBack, answer_of};

use crate::SampleRefusal;
use checks::bad_depth;
use float_samples::find_sample;

// The sample that gives the float at this depth, in luma or in chroma.
pub fn sample_of(depth: u32, chroma: bool, value: f32) -> Result<u16, SampleRefusal>
    ensures { WayBack depth chroma value (answer_of result) }
{
    if bad_depth(depth) {
        return Err(SampleRefusal::Depth);
    }
    find_sample(depth, chroma, value).ok_or(SampleRefusal::NoSample)
}
