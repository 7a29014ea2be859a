// The check of one tile. The lists that are written stay parameters: what a struct leaves in a `&mut` field has no name
// in a clause but its place in nested pairs.
ghost use Rattle.std.specs.Prelude.{◌≡◌, ◌≤◌};
ghost use Rattle.filter.specs.Finished.{outputs};
ghost use Rattle.picture.specs.Accepted.{Accepted};
ghost use Rattle.picture.specs.Given.{bare, planes_of};
ghost use Rattle.picture.specs.Ledger.{any_of};
ghost use Rattle.picture.specs.Lent.{picture_lent, planes_lent};
ghost use Rattle.tile_check.specs.Answer.{Checkable, bad_scratch, compared, differing, outcome, scratch, told};
ghost use Rattle.tile_check.specs.Answer.{after, written};
ghost use Rattle.tile_check.specs.Lent.{scratch_of};

use crate::TileRefusal;
use crate::cuts::{alone, compare_cut};
use checks::{bad_cell_bytes, bad_planes};
use picture::{Picture, Planes, Settings};
use stage::apply_deblocking;
use tile_parts::{TileAt, find_luma_part};

// A list lent for the cut has not its exact length: its original planes, its cells, its output planes. `own` are the
// cut's settings.
fn bad_scratch(own: Settings, cut: &Planes<'_>, cells: &[u8], out: &Planes<'_>) -> bool
    requires { (own.width ≤ 8192) × (own.height ≤ 8192) }
    ensures { result ≡
        any_of (bad_scratch (bare own) (scratch (planes_lent cut.now) cells.now (planes_lent out.now))) }
{
    bad_planes(own, cut.y.len(), cut.cb.len(), cut.cr.len())
        | bad_planes(own, out.y.len(), out.cb.len(), out.cr.len())
        | bad_cell_bytes(own, cells.len())
}

// The tile of an accepted picture whose outputs are out: it is there, the lists lent for its cut have their lengths,
// and the count.
fn compare_tile(
    picture: &Picture<'_>,
    at: TileAt,
    out: &Planes<'_>,
    cuty: &mut [u16],
    cutcb: &mut [u16],
    cutcr: &mut [u16],
    cutcells: &mut [u8],
    owny: &mut [u16],
    owncb: &mut [u16],
    owncr: &mut [u16],
) -> Result<usize, TileRefusal>
    requires { Accepted (picture_lent picture.now) (planes_lent out.now) }
    ensures answer { told result ≡ compared (picture_lent picture.now) at
        (scratch_of cuty.old cutcb.old cutcr.old cutcells.old owny.old owncb.old owncr.old) (planes_lent out.now) }
    ensures scratch { scratch_of cuty.new cutcb.new cutcr.new cutcells.new owny.new owncb.new owncr.new ≡
        written (picture_lent picture.now) at
        (scratch_of cuty.old cutcb.old cutcr.old cutcells.old owny.old owncb.old owncr.old) }
{
    let Some(luma) = find_luma_part(picture.settings, picture.columns, picture.rows, at) else {
        return Err(TileRefusal::NoTile);
    };
    let cut = Planes {
        y: &cuty[..],
        cb: &cutcb[..],
        cr: &cutcr[..],
    };
    let own = Planes {
        y: &owny[..],
        cb: &owncb[..],
        cr: &owncr[..],
    };
    if bad_scratch(alone(picture.settings, luma), &cut, &cutcells[..], &own) {
        return Err(TileRefusal::Lengths);
    }
    Ok(compare_cut(
        picture, luma, out, cuty, cutcb, cutcr, cutcells, owny, owncb, owncr,
    ))
}

// A tile of a picture: the picture is filtered into out, the tile cut out into cut, and the cut filtered into own; the
// answer is the count of samples, over all planes, in which the two differ. In order: the picture's verdict, then
// whether the tile is there, then whether the lists lent for the cut have their exact lengths. By term 3 the count
// is 0. Where there is no count, cut and own are as lent.
pub fn check_tile(
    picture: &Picture<'_>,
    at: TileAt,
    outy: &mut [u16],
    outcb: &mut [u16],
    outcr: &mut [u16],
    cuty: &mut [u16],
    cutcb: &mut [u16],
    cutcr: &mut [u16],
    cutcells: &mut [u8],
    owny: &mut [u16],
    owncb: &mut [u16],
    owncr: &mut [u16],
) -> Result<usize, TileRefusal>
    ensures answer { told result ≡
        outcome (picture_lent picture.now) (planes_of outy.old outcb.old outcr.old) at
        (scratch_of cuty.old cutcb.old cutcr.old cutcells.old owny.old owncb.old owncr.old) }
    ensures agrees { Checkable (picture_lent picture.now) (planes_of outy.old outcb.old outcr.old) at
        (scratch_of cuty.old cutcb.old cutcr.old cutcells.old owny.old owncb.old owncr.old) → told result
        ≡ differing 0 }
    ensures planes { planes_of outy.new outcb.new outcr.new ≡
        outputs (picture_lent picture.now) (planes_of outy.old outcb.old outcr.old) }
    ensures scratch { scratch_of cuty.new cutcb.new cutcr.new cutcells.new owny.new owncb.new owncr.new ≡
        after (picture_lent picture.now) (planes_of outy.old outcb.old outcr.old) at
        (scratch_of cuty.old cutcb.old cutcr.old cutcells.old owny.old owncb.old owncr.old) }
{
    apply_deblocking(picture, &mut outy[..], &mut outcb[..], &mut outcr[..])?;
    let out = Planes {
        y: &outy[..],
        cb: &outcb[..],
        cr: &outcr[..],
    };
    compare_tile(
        picture, at, &out, cuty, cutcb, cutcr, cutcells, owny, owncb, owncr,
    )
}
