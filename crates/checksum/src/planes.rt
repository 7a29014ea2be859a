// The picture checksums of a picture's planes, behind their checks.
ghost use Rattle.std.specs.Prelude.{◌≡◌, ◌*◌, ◌≤◌, length};
ghost use Rattle.picture.specs.Given.{bare, of_planes};
ghost use Rattle.picture.specs.Lent.{planes_lent};
ghost use Rattle.picture.specs.Picture.{plane_height, plane_width};
ghost use Rattle.picture.specs.Scale.{Cb};
ghost use Rattle.checksum.specs.Answer.{answer_of, checksum_answer};
ghost use Rattle.checksum.specs.Rows.{chroma_sum};

use crate::Checksums;
use crate::plane::plane_checksum;
use ledger::{Refusal, check_planes};
use picture::{LumaColumn, Planes, Settings, chroma_rows};

// Of a chroma plane, by the settings of its picture.
fn chroma_checksum(settings: Settings, plane: &[u16]) -> u32
    requires width_bound { (settings.width ≤ 8192) × (settings.height ≤ 8192) }
    requires plane_len { length plane.now ≡ plane_width (bare settings) Cb * plane_height (bare settings) Cb }
    ensures { result ≡ chroma_sum (bare settings) plane.now }
{
    let across = LumaColumn(settings.width as usize).chroma(settings.chroma_format);
    let down = chroma_rows(settings.chroma_format, settings.height as usize);
    plane_checksum(plane, across.0 as u32, down as u32, settings.chroma_depth)
}

// Of the three planes, or of luma alone in a monochrome picture. The settings beside sizes, format and depths play no
// part.
pub fn picture_checksums(settings: Settings, planes: &Planes<'_>) -> Result<Checksums, Refusal>
    ensures { answer_of result ≡ checksum_answer (of_planes settings (planes_lent planes.now)) }
{
    check_planes(settings, planes)?;
    let luma = plane_checksum(
        planes.y,
        settings.width,
        settings.height,
        settings.luma_depth,
    );
    if settings.chroma_format == 0 {
        return Ok(Checksums::One(luma));
    }
    Ok(Checksums::Three {
        y: luma,
        cb: chroma_checksum(settings, planes.cb),
        cr: chroma_checksum(settings, planes.cr),
    })
}
