// A plane, row by row.
ghost use Rattle.std.specs.Prelude.{◌≡◌};
ghost use Rattle.picture.specs.Plane.{at};
ghost use Rattle.picture.specs.Scale.{from_luma};
ghost use Rattle.planes.specs.Rows.{Holds};
ghost use Rattle.restore.specs.Restored.{AnySuppressed, Restorable, restored_for};
ghost use Rattle.segments.specs.Sides.{across_for};

use crate::Restoration;
use crate::rows::restore_line;
use filter::Component;
use picture::{LumaColumn, row_of_cells};
use segments::{Frame, luma_row_at};

// The samples that a cell has in one row of the component's plane.
fn cell_columns(k: Component) -> usize
    ensures { result ≡ from_luma (across_for k) 4 }
{
    if k.luma {
        return 4;
    }
    let c = LumaColumn(4).chroma(k.format);
    c.0
}

fn restore_rows(
    plane: &mut [u16],
    original: &[u16],
    cells: &[u8],
    pcm: bool,
    k: Component,
    f: Frame,
)
    requires { Restorable k f plane.old original.now cells.now }
    ensures { Holds f.columns f.rows plane.new
        (restored_for pcm cells.now k f (at original.now f.columns) (at plane.old f.columns)) }
{
    let across = cell_columns(k);
    for y in 0..f.rows {
        let a = y * f.columns;
        let b = (y + 1) * f.columns;
        let row = row_of_cells(luma_row_at(k, y));
        restore_line(
            &mut plane[a..b],
            &original[a..b],
            cells,
            pcm,
            f.cell_columns,
            row,
            across,
        );
    }
}

// The samples of suppressed cells from the original, in place. It takes no `PassInput`: the ghost field `ready` asks
// more of a caller than `Restorable` does.
pub fn restore(
    plane: &mut [u16],
    original: &[u16],
    cells: &[u8],
    r: Restoration,
    k: Component,
    f: Frame,
)
    requires restorable { Restorable k f plane.old original.now cells.now }
    requires any_suppressed { AnySuppressed r.pcm cells.now r.any }
    ensures { Holds f.columns f.rows plane.new
        (restored_for r.pcm cells.now k f (at original.now f.columns) (at plane.old f.columns)) }
{
    if r.any {
        restore_rows(plane, original, cells, r.pcm, k, f);
    }
}
