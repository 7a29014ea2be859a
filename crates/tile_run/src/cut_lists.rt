// How long the lists are that are lent for a tile's cut.
ghost use Rattle.std.specs.Prelude.{◌≡◌, ◌*◌, ◌≤◌, min};
ghost use Rattle.tile_run.specs.CutLists.{plane_samples, cell_bytes, chroma_size, one_off, length_of};
ghost use Rattle.tile_run.specs.CutLists.{lent_planes, lent_cells};

use crate::LentSamples;
use picture::{CellColumn, LumaColumn, cell_bytes, chroma_rows, row_of_cells};
use picture_record::{CELL_BYTES, SAMPLES};
use tile_parts::CutSize;

// The samples of a plane of this size.
fn plane_samples(size: CutSize) -> usize
    ensures { result ≡ plane_samples size }
{
    size.width.saturating_mul(size.height).min(SAMPLES)
}

// The bytes of its cells.
fn cut_cell_bytes(size: CutSize) -> usize
    ensures { result ≡ cell_bytes size }
{
    let columns = LumaColumn(size.width).cell();
    let rows = row_of_cells(size.height);
    let cells = columns.0.saturating_mul(rows).min(CELL_BYTES);
    cell_bytes(CellColumn(cells), 1).min(CELL_BYTES)
}

// The size in a chroma plane.
pub(crate) fn chroma_size(format: u32, size: CutSize) -> CutSize
    ensures { result ≡ chroma_size format size }
{
    CutSize {
        width: LumaColumn(size.width).chroma(format).0,
        height: chroma_rows(format, size.height),
    }
}

// One less, or one more where there is none to lose.
fn one_off(exact: usize) -> usize
    ensures { result ≡ one_off exact }
{
    match exact {
        0 => 1,
        n => n - 1,
    }
}

// The length of a list of 1 to 7, which is the exact one, but for the list `wrong`: one too short at its own number,
// one too long at seven more.
fn length_of(list: usize, exact: usize, wrong: usize, most: usize) -> usize
    requires { (list ≤ 7) × (exact ≤ 40000) }
    ensures { result ≡ length_of list exact wrong most }
{
    if wrong == list {
        return one_off(exact);
    }
    if wrong == list + 7 {
        return (exact + 1).min(most);
    }
    exact
}

// The three planes' lists of a cut of this size; `first` is the first one's number.
pub(crate) fn lent_planes(first: usize, format: u32, size: CutSize, wrong: usize) -> LentSamples
    requires { first ≤ 5 }
    ensures { result ≡ lent_planes first format size wrong }
{
    let luma = plane_samples(size);
    let chroma = plane_samples(chroma_size(format, size));
    LentSamples {
        y: length_of(first, luma, wrong, SAMPLES),
        cb: length_of(first + 1, chroma, wrong, SAMPLES),
        cr: length_of(first + 2, chroma, wrong, SAMPLES),
    }
}

// Its cells' list.
pub(crate) fn lent_cells(size: CutSize, wrong: usize) -> usize
    ensures { result ≡ lent_cells size wrong }
{
    length_of(4, cut_cell_bytes(size), wrong, CELL_BYTES)
}
