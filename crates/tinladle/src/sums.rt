// The picture checksums of planes that C lends.
ghost use Rattle.std.specs.Prelude.{[], ◌∷◌};
ghost use Rattle.picture.specs.Given.{of_planes, planes_of};
ghost use Rattle.tinladle.specs.Passed.{passed_planes};
ghost use Rattle.tinladle.specs.Sums.{Summed};

use crate::passed::planes_settings;
use checksum::{Checksums, picture_checksums};
use picture::Planes;

// The number is returned, 0 where the planes are accepted, and the place is always stored. Sums are stored where there
// are some: of a monochrome picture that of luma alone.
#[unsafe(no_mangle)]
pub extern "C" fn tinladle_checksum(
    width: u32,
    height: u32,
    chroma_format: u32,
    luma_depth: u32,
    chroma_depth: u32,
    y: &[u16],
    cb: &[u16],
    cr: &[u16],
    sum_y: &mut u32,
    sum_cb: &mut u32,
    sum_cr: &mut u32,
    place: &mut u64,
) -> u32
    ensures { Summed
        (of_planes (passed_planes width height chroma_format luma_depth chroma_depth) (planes_of y.now cb.now cr.now))
        (sum_y.old ∷ sum_cb.old ∷ sum_cr.old ∷ []) result place.new
        (sum_y.new ∷ sum_cb.new ∷ sum_cr.new ∷ []) }
{
    let settings = planes_settings(width, height, chroma_format, luma_depth, chroma_depth);
    let answer = picture_checksums(settings, &Planes { y, cb, cr });
    *place = 0;
    match answer {
        Err(refusal) => {
            *place = refusal.place();
            refusal.number()
        }
        Ok(Checksums::One(luma)) => {
            *sum_y = luma;
            0
        }
        Ok(
            Checksums::Three {
                y: luma,
                cb: blue,
                cr: red,
            },
        ) => {
            *sum_y = luma;
            *sum_cb = blue;
            *sum_cr = red;
            0
        }
    }
}
