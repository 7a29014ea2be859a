// The sample behind a float that C passes.
ghost use Rattle.tinladle.specs.Floats.{SampleStored};

use recogniser::{SampleRefusal, sample_of};

// The number is returned, 0 where a sample gives the float, and the place is always stored; it is always 0.
#[unsafe(no_mangle)]
pub extern "C" fn tinladle_sample(
    depth: u32,
    chroma: bool,
    value: f32,
    sample: &mut u16,
    place: &mut u64,
) -> u32
    ensures { SampleStored depth chroma value sample.old result place.new
        sample.new }
{
    *place = 0;
    match sample_of(depth, chroma, value) {
        Err(SampleRefusal::Depth) => 3,
        Err(SampleRefusal::NoSample) => 15,
        Ok(found) => {
            *sample = found;
            0
        }
    }
}
