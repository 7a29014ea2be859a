// The stage on planes and lists that C lends.
ghost use Rattle.picture.specs.Given.{planes_of};
ghost use Rattle.picture.specs.Lent.{picture_given};
ghost use Rattle.tinladle.specs.Passed.{Deblocked, passed};

use ledger::{number_of, place_of};
use picture::{Picture, Planes, Settings};
use stage::apply_deblocking;

// The number is returned, 0 where the picture is accepted; the place is always stored, so that a caller never reads
// an old one.
#[unsafe(no_mangle)]
pub extern "C" fn tinladle_deblock(
    width: u32,
    height: u32,
    chroma_format: u32,
    luma_depth: u32,
    chroma_depth: u32,
    log2_ctb: u32,
    cb_qp_offset: i32,
    cr_qp_offset: i32,
    pcm_loop_filter_disabled: bool,
    y: &[u16],
    cb: &[u16],
    cr: &[u16],
    cells: &[u8],
    slices: &[u8],
    tile_columns: &[u16],
    tile_rows: &[u16],
    out_y: &mut [u16],
    out_cb: &mut [u16],
    out_cr: &mut [u16],
    place: &mut u64,
) -> u32
    ensures { Deblocked
        (picture_given (passed width height chroma_format luma_depth chroma_depth log2_ctb
        cb_qp_offset cr_qp_offset pcm_loop_filter_disabled) y.now cb.now cr.now cells.now slices.now tile_columns.now
        tile_rows.now)
        (planes_of out_y.old out_cb.old out_cr.old) result place.new (planes_of out_y.new out_cb.new out_cr.new) }
{
    let picture = Picture {
        settings: Settings {
            width,
            height,
            chroma_format,
            luma_depth,
            chroma_depth,
            log2_ctb,
            cb_qp_offset,
            cr_qp_offset,
            pcm_loop_filter_disabled,
        },
        planes: Planes { y, cb, cr },
        cells,
        slices,
        columns: tile_columns,
        rows: tile_rows,
    };
    let answer = apply_deblocking(&picture, out_y, out_cb, out_cr);
    *place = place_of(answer);
    number_of(answer)
}
