// A pixel of planes that C lends, as floats.
ghost use Rattle.std.specs.Prelude.{[], ◌∷◌};
ghost use Rattle.picture.specs.Given.{of_planes, planes_of};
ghost use Rattle.tinladle.specs.Floats.{PixelStored};
ghost use Rattle.tinladle.specs.Passed.{passed_planes};

use crate::passed::planes_settings;
use picture::Planes;
use recogniser::{Pixel, PixelRefusal, pixel_at};

// The number is returned, 0 where the pixel is given, and the place is always stored. Of a monochrome picture luma
// alone is stored.
#[unsafe(no_mangle)]
pub extern "C" fn tinladle_pixel(
    width: u32,
    height: u32,
    chroma_format: u32,
    luma_depth: u32,
    chroma_depth: u32,
    y: &[u16],
    cb: &[u16],
    cr: &[u16],
    column: u32,
    row: u32,
    luma: &mut f32,
    cb_part: &mut f32,
    cr_part: &mut f32,
    place: &mut u64,
) -> u32
    ensures { PixelStored
        (of_planes (passed_planes width height chroma_format luma_depth chroma_depth) (planes_of y.now cb.now cr.now))
        column row (luma.old ∷ cb_part.old ∷ cr_part.old ∷ []) result place.new
        (luma.new ∷ cb_part.new ∷ cr_part.new ∷ []) }
{
    let settings = planes_settings(width, height, chroma_format, luma_depth, chroma_depth);
    let answer = pixel_at(settings, &Planes { y, cb, cr }, column, row);
    *place = 0;
    match answer {
        Err(PixelRefusal::Planes(refusal)) => {
            *place = refusal.place();
            refusal.number()
        }
        Err(PixelRefusal::Outside) => 14,
        Ok(Pixel::Grey(grey)) => {
            *luma = grey;
            0
        }
        Ok(Pixel::Colour(parts)) => {
            *luma = parts.luma;
            *cb_part = parts.cb;
            *cr_part = parts.cr;
            0
        }
    }
}
