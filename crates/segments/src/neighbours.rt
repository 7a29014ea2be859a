// The two sides of a segment, by the luma position of its Q sample.
ghost use Rattle.std.specs.Prelude.{◌≡◌, ◌≤◌};
ghost use Rattle.segments.specs.Input.{sides_in};
ghost use Rattle.segments.specs.Listed.{Listed};
ghost use Rattle.segments.specs.Sides.{cell_in, crossing, place_of};

use crate::{EdgeDirection, LumaPosition, PassInput, Sides};
use picture::{Cell, CellColumn, cell_at, cell_number, row_of_cells};

// The cell of a luma sample. Its position holds no fact on it being listed: that hangs on the list and its width too.
pub(crate) fn cell_of(cells: &[u8], width: CellColumn, at: LumaPosition) -> Cell
    requires { Listed cells.now width.0 at.x.0 at.y }
    ensures { result ≡ cell_in cells.now width.0 (place_of at) }
{
    cell_at(cells, cell_number(width, at.x.cell(), row_of_cells(at.y)))
}

pub(crate) fn sides_of<D: EdgeDirection>(input: &PassInput<'_>, q: LumaPosition) -> Sides
    requires apart { 1 ≤ crossing D.direction (place_of q) }
    requires listed { Listed input.now.cells.now input.now.frame.cell_columns.0 q.x.0 q.y }
    ensures { result ≡ sides_in D.direction input.now (place_of q) }
{
    let width = input.frame.cell_columns;
    let p = D::position_p(q);
    Sides {
        p: cell_of(input.cells, width, p),
        q: cell_of(input.cells, width, q),
        same: D::in_one_tile(input, p, q),
    }
}
