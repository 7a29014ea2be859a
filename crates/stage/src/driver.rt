// The driver: every check, then each component's plane. The output planes stay parameters: what a struct leaves in a
// `&mut` field has no name in a clause but its place in nested pairs.
ghost use Rattle.picture.specs.Given.{planes_of};
ghost use Rattle.std.specs.Prelude.{◌≡◌};
ghost use Rattle.filter.specs.Finished.{finished, outputs};
ghost use Rattle.ledger.specs.Numbered.{numbered};
ghost use Rattle.picture.specs.Accepted.{Accepted};
ghost use Rattle.picture.specs.Causes.{verdict};
ghost use Rattle.picture.specs.Lent.{picture_lent};

use crate::components::{
    biased_offset, chroma_component, chroma_frame, luma_component, luma_frame,
};
use crate::plane::finish_plane;
use checks::OutputLengths;
use ledger::{Verdict, check};
use picture::Picture;
use restore::restoration_of;
use thresholds::luma_tc_table;

// The planes of an accepted picture.
fn deblock(picture: &Picture<'_>, outy: &mut [u16], outcb: &mut [u16], outcr: &mut [u16])
    requires { Accepted (picture_lent picture.now) (planes_of outy.old outcb.old outcr.old) }
    ensures { planes_of outy.new outcb.new outcr.new ≡ finished (picture_lent picture.now) }
{
    let settings = picture.settings;
    let planes = picture.planes;
    // Laid out once, and lent to every look that the luma plane takes.
    let tcs = luma_tc_table();
    let r = restoration_of(picture.cells, settings.pcm_loop_filter_disabled);
    let k = luma_component(settings);
    let f = luma_frame(settings);
    finish_plane(outy, planes.y, picture, &tcs, k, f, r);
    if settings.chroma_format == 0 {
        return;
    }
    let kb = chroma_component(settings, biased_offset(settings.cb_qp_offset));
    let kr = chroma_component(settings, biased_offset(settings.cr_qp_offset));
    let fc = chroma_frame(settings);
    finish_plane(outcb, planes.cb, picture, &tcs, kb, fc, r);
    finish_plane(outcr, planes.cr, picture, &tcs, kr, fc, r);
}

// The stage. Any input at all: the answer is the ledger's, and the output planes hold the finished picture, or what
// they held before.
pub fn apply_deblocking(
    picture: &Picture<'_>,
    outy: &mut [u16],
    outcb: &mut [u16],
    outcr: &mut [u16],
) -> Verdict
    ensures verdict { numbered result ≡ verdict (picture_lent picture.now) (planes_of outy.old outcb.old outcr.old) }
    ensures planes { planes_of outy.new outcb.new outcr.new ≡
        outputs (picture_lent picture.now) (planes_of outy.old outcb.old outcr.old) }
{
    let lent = OutputLengths::Planes {
        y: outy.len(),
        cb: outcb.len(),
        cr: outcr.len(),
    };
    check(picture, Some(lent))?;
    deblock(picture, outy, outcb, outcr);
    Ok(())
}
