// A tile's part of all the planes, and of the cell records: copied out, and counted. The lists that are written stay
// parameters: what a struct leaves in a `&mut` field has no name in a clause but its place in nested pairs.
ghost use Rattle.picture.specs.Given.{planes_of};
ghost use Rattle.picture.specs.Lent.{planes_lent};
ghost use Rattle.std.specs.Prelude.{◌≡◌};
ghost use Rattle.tile_parts.specs.Cuts.{CutReady, Rooms, Sized, differing_planes, part_cells, part_planes};
ghost use Rattle.tile_parts.specs.Parts.{part_of};

use crate::Part;
use crate::counts::differing_plane;
use crate::crops::crop;
use crate::parts::{cell_part, chroma_part, row_bytes};
use picture::{LumaColumn, Picture, Planes, Settings};

// The original planes and the cells of the cut whose luma part this is.
pub fn make_cut(
    picture: &Picture<'_>,
    luma: Part,
    cuty: &mut [u16],
    cutcb: &mut [u16],
    cutcr: &mut [u16],
    cutcells: &mut [u8],
)
    requires { CutReady picture.now.settings (part_of luma)
        (planes_lent picture.now.planes) picture.now.cells.now
        (planes_of cuty.old cutcb.old cutcr.old) cutcells.old }
    ensures planes { planes_of cuty.new cutcb.new cutcr.new ≡
        part_planes picture.now.settings (part_of luma) (planes_lent picture.now.planes) }
    ensures cells { cutcells.new ≡ part_cells picture.now.settings (part_of luma) picture.now.cells.now }
{
    let format = picture.settings.chroma_format;
    let wide = LumaColumn(picture.settings.width as usize);
    let stride = wide.chroma(format);
    let chroma = chroma_part(format, luma);
    crop(picture.planes.y, wide.0, luma, cuty);
    crop(picture.planes.cb, stride.0, chroma, cutcb);
    crop(picture.planes.cr, stride.0, chroma, cutcr);
    crop(picture.cells, row_bytes(wide), cell_part(luma), cutcells);
}

// The samples, over all planes, in which the cut's outputs differ from the part of the picture's.
pub fn differing_samples(
    settings: Settings,
    luma: Part,
    own: &Planes<'_>,
    out: &Planes<'_>,
) -> usize
    requires rooms { Rooms settings (part_of luma) (planes_lent out.now) }
    requires sized { Sized settings (part_of luma) (planes_lent own.now) }
    ensures { result ≡ differing_planes settings (part_of luma) (planes_lent own.now) (planes_lent out.now) }
{
    let format = settings.chroma_format;
    let wide = LumaColumn(settings.width as usize);
    let stride = wide.chroma(format);
    let chroma = chroma_part(format, luma);
    let y = differing_plane(own.y, out.y, wide.0, luma);
    let cb = differing_plane(own.cb, out.cb, stride.0, chroma);
    let cr = differing_plane(own.cr, out.cr, stride.0, chroma);
    y + cb + cr
}
