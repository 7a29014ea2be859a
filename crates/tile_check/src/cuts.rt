// The cut: made, filtered as a picture alone, and compared. The lists that are written stay parameters: what a struct
// leaves in a `&mut` field has no name in a clause but its place in nested pairs.
ghost use Rattle.picture.specs.Given.{planes_of};
ghost use Rattle.picture.specs.Lent.{planes_lent};
ghost use Rattle.std.specs.Prelude.{◌≡◌, ◌≤◌};
ghost use Rattle.filter.specs.Finished.{outputs};
ghost use Rattle.tile_parts.specs.Parts.{part_of};
ghost use Rattle.tile_check.specs.Alone.{CompareReady, alone, differing_alone, filtered_alone, one_tile};
ghost use Rattle.tile_check.specs.Lent.{scratch_of};

use picture::{Picture, Planes, Settings};
use stage::apply_deblocking;
use tile_parts::{Part, differing_samples, make_cut};

// The settings of the cut: those of its picture, at its own sizes.
pub(crate) fn alone(settings: Settings, luma: Part) -> Settings
    requires { (luma.width ≤ 8192) × (luma.height ≤ 8192) }
    ensures { result ≡ alone settings (part_of luma) }
{
    Settings {
        width: luma.width as u32,
        height: luma.height as u32,
        ..settings
    }
}

// The stage on the cut, which is one tile: the starts are 0 and 0. Its answer is dropped: the cut of an accepted
// picture is accepted (term 3), and `outputs` says what is left in either case. The lists of the cut become a `Picture`
// here: before, no struct holds them.
fn filter_cut(
    settings: Settings,
    planes: &Planes<'_>,
    cells: &[u8],
    slices: &[u8],
    outy: &mut [u16],
    outcb: &mut [u16],
    outcr: &mut [u16],
)
    ensures { planes_of outy.new outcb.new outcr.new ≡
        outputs (one_tile settings (planes_lent planes.now) cells.now slices.now)
        (planes_of outy.old outcb.old outcr.old) }
{
    let start = [0u16; 1];
    let cut = Picture {
        settings,
        planes: *planes,
        cells,
        slices,
        columns: &start,
        rows: &start,
    };
    let _ = apply_deblocking(&cut, outy, outcb, outcr);
}

// The cut made, filtered and compared; out are the picture's outputs.
pub(crate) fn compare_cut(
    picture: &Picture<'_>,
    luma: Part,
    out: &Planes<'_>,
    cuty: &mut [u16],
    cutcb: &mut [u16],
    cutcr: &mut [u16],
    cutcells: &mut [u8],
    owny: &mut [u16],
    owncb: &mut [u16],
    owncr: &mut [u16],
) -> usize
    requires { CompareReady picture.now.settings (part_of luma) (planes_lent picture.now.planes) picture.now.cells.now
        (planes_lent out.now)
        (scratch_of cuty.old cutcb.old cutcr.old cutcells.old owny.old owncb.old owncr.old) }
    ensures count { result ≡ differing_alone picture.now.settings (part_of luma) (planes_lent picture.now.planes)
        picture.now.cells.now picture.now.slices.now (planes_of owny.old owncb.old owncr.old) (planes_lent out.now) }
    ensures scratch { scratch_of cuty.new cutcb.new cutcr.new cutcells.new owny.new owncb.new owncr.new
        ≡ filtered_alone picture.now.settings (part_of luma) (planes_lent picture.now.planes) picture.now.cells.now
        picture.now.slices.now (planes_of owny.old owncb.old owncr.old) }
{
    make_cut(
        picture,
        luma,
        &mut cuty[..],
        &mut cutcb[..],
        &mut cutcr[..],
        &mut cutcells[..],
    );
    let settings = picture.settings;
    let cut = Planes {
        y: &cuty[..],
        cb: &cutcb[..],
        cr: &cutcr[..],
    };
    filter_cut(
        alone(settings, luma),
        &cut,
        &cutcells[..],
        picture.slices,
        &mut owny[..],
        &mut owncb[..],
        &mut owncr[..],
    );
    let own = Planes {
        y: &owny[..],
        cb: &owncb[..],
        cr: &owncr[..],
    };
    differing_samples(settings, luma, &own, out)
}
