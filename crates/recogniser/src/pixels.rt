// A pixel of a picture's planes, behind their checks.
ghost use Rattle.std.specs.Prelude.{Ok, ◌+◌, ◌*◌, ◌≤◌, ◌<◌, ◌≡◌};
ghost use Rattle.picture.specs.Accepted.{GivenPlanesOk};
ghost use Rattle.picture.specs.Given.{bare, of_planes, settings_of};
ghost use Rattle.picture.specs.Ledger.{any_of};
ghost use Rattle.picture.specs.Lent.{planes_lent};
ghost use Rattle.picture.specs.Picture.{across, down, plane_width};
ghost use Rattle.picture.specs.Scale.{Cb, chroma_across, from_luma};
ghost use Rattle.recogniser.specs.Pixel.{Answered, accepted, outside, pixel_answer};

use crate::{Pixel, PixelRefusal};
use float_samples::{colour_of, part};
use ledger::check_planes;
use picture::{LumaColumn, Planes, Settings, chroma_rows};

// 14. The pixel lies outside the picture.
fn is_outside(settings: Settings, column: u32, row: u32) -> bool
    ensures { result ≡ any_of (outside (bare settings) column row) }
{
    (settings.width <= column) | (settings.height <= row)
}

// Where the sample at column x of row y stands in a plane of this width.
fn index_of(width: usize, x: usize, y: usize) -> usize
    requires { (width ≤ 8192) × (x ≤ 8192) × (y ≤ 8192) }
    ensures { result ≡ y * width + x }
{
    y * width + x
}

// The chroma column under a pixel's column.
fn column_under(format: u32, column: u32) -> usize
    requires { column ≤ 8192 }
    ensures { result ≡ from_luma (chroma_across format) column }
{
    LumaColumn(column as usize).chroma(format).0
}

// Where the chroma samples under a pixel stand in their planes.
fn chroma_index(settings: Settings, column: u32, row: u32) -> usize
    requires { (settings.width ≤ 8192) × (column ≤ 8192) × (row ≤ 8192) }
    ensures { result ≡ down (settings_of settings) Cb row * plane_width (bare settings) Cb
        + across (settings_of settings) Cb column }
{
    let width = LumaColumn(settings.width as usize).chroma(settings.chroma_format);
    let x = column_under(settings.chroma_format, column);
    let y = chroma_rows(settings.chroma_format, row as usize);
    index_of(width.0, x, y)
}

// A pixel inside planes that passed their checks.
fn pixel_inside(settings: Settings, planes: &Planes<'_>, column: u32, row: u32) -> Pixel
    requires given_planes_ok { GivenPlanesOk (of_planes settings (planes_lent planes.now)) }
    requires inside { (column < settings.width) × (row < settings.height) }
    ensures { Answered (Ok result) (accepted (of_planes settings (planes_lent planes.now)) column row) }
{
    let luma = planes.y[index_of(settings.width as usize, column as usize, row as usize)];
    if settings.chroma_format == 0 {
        return Pixel::Grey(part(settings.luma_depth, false, luma));
    }
    let index = chroma_index(settings, column, row);
    Pixel::Colour(colour_of(
        settings.luma_depth,
        settings.chroma_depth,
        luma,
        planes.cb[index],
        planes.cr[index],
    ))
}

// A pixel of the planes: grey of a monochrome picture, else colour. The settings beside sizes, format and depths play
// no part.
pub fn pixel_at(
    settings: Settings,
    planes: &Planes<'_>,
    column: u32,
    row: u32,
) -> Result<Pixel, PixelRefusal>
    ensures { Answered result (pixel_answer (of_planes settings (planes_lent planes.now)) column row) }
{
    check_planes(settings, planes)?;
    if is_outside(settings, column, row) {
        return Err(PixelRefusal::Outside);
    }
    Ok(pixel_inside(settings, planes, column, row))
}
