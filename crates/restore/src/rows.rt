// Cell rows: the samples of one cell in one row of a plane.
ghost use Rattle.std.specs.Prelude.{◌≡◌, cond, ◌+◌, ◌≤◌, length, take, drop};
ghost use Rattle.restore.specs.CellRows.{RowRestored, LineRestored, LineLent};

use crate::marks::sample_suppressed;
use picture::{CellColumn, cell_number};

// The cell row from `at` of the plane that the mark selects.
pub fn cell_row<'a>(
    original: &'a [u16],
    filtered: &'a [u16],
    at: usize,
    count: usize,
    suppressed: bool,
) -> &'a [u16]
    requires { (at + count ≤ length original.now) × (at + count ≤ length filtered.now) }
    ensures { result.now ≡ take count (drop at (cond suppressed original.now filtered.now)) }
{
    let end = at + count;
    if suppressed {
        &original[at..end]
    } else {
        &filtered[at..end]
    }
}

// One cell row in place. The filtered row is there already.
fn restore_row(line: &mut [u16], original: &[u16], at: usize, count: usize, suppressed: bool)
    requires count_in_bounds { (at + count ≤ length original.now) × (at + count ≤ length line.old) }
    requires count_bound { (2 ≤ count) × (count ≤ 4) }
    ensures { RowRestored at count suppressed original.now line.old line.new }
{
    let row = cell_row(original, &line[..], at, count, suppressed);
    if suppressed {
        // Not `copy_from_slice`, since the row may be lent from `line`: document 01 asks for `cell_row`
        // (docs/DECISIONS.md, 12). Of two samples the last two are the first two once more.
        let a = row[0];
        let b = row[1];
        let c = row[count - 2];
        let d = row[count - 1];
        let end = at + count;
        line[at] = a;
        line[at + 1] = b;
        line[end - 2] = c;
        line[end - 1] = d;
    }
}

// One row of a plane, of the cells in one row of cells: `width` cells with `across` samples each.
pub(crate) fn restore_line(
    line: &mut [u16],
    original: &[u16],
    cells: &[u8],
    pcm: bool,
    width: CellColumn,
    row: usize,
    across: usize,
)
    requires { LineLent width.0 row across line.old original.now cells.now }
    ensures { LineRestored pcm cells.now width.0 row across original.now line.old line.new }
{
    for gx in 0..width.0 {
        let n = cell_number(width, CellColumn(gx), row);
        let suppressed = sample_suppressed(cells, pcm, n);
        restore_row(line, original, gx * across, across, suppressed);
    }
}
