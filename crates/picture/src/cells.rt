// Cell records, 8 bytes each.
ghost use Rattle.std.specs.Prelude.{◌≡◌, ◌+◌, ◌*◌, ◌^◌, ◌≤◌, ◌<◌, length};
ghost use Rattle.picture.specs.Cell.{cell_at, cell_number};

use crate::Cell;
use crate::columns::CellColumn;

// The number of the cell at a column and a row of cells, of `width` cells to a row.
pub fn cell_number(width: CellColumn, column: CellColumn, row: usize) -> usize
    requires { row * width.0 + column.0 < 2 ^ 32 }
    ensures { result ≡ cell_number width.0 column.0 row }
{
    row * width.0 + column.0
}

// The bytes of the records of so many columns and rows of cells.
pub fn cell_bytes(columns: CellColumn, rows: usize) -> usize
    requires { columns.0 * rows < 2 ^ 32 }
    ensures { result ≡ 8 * (columns.0 * rows) }
{
    8 * (columns.0 * rows)
}

// Cell record n.
#[tactic(auto, using(crate::proofs::Records::cell_made))]
pub fn cell_at(cells: &[u8], n: usize) -> Cell
    requires { 8 * n + 8 ≤ length cells.now }
    ensures { result ≡ cell_at cells.now n }
{
    let at = 8 * n;
    Cell {
        qp: cells[at],
        flags: cells[at + 1],
        bsv: cells[at + 2],
        bsh: cells[at + 3],
        slice: u16::from_le_bytes([cells[at + 4], cells[at + 5]]),
    }
}
