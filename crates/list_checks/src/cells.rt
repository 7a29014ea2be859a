// Cause 9 of the ledger: the cell records.
ghost use Rattle.std.specs.Prelude.{◌+◌, ◌*◌, ◌/◌, ◌≤◌, cond, ◌++◌, ◌≡◌, length};
ghost use Rattle.picture.specs.Causes.{broken, cell_rules, cells_cause};
ghost use Rattle.picture.specs.Cell.{cell_byte};
ghost use Rattle.picture.specs.Ledger.{any_of, first_place};
ghost use Rattle.list_checks.specs.Cells.{bad_qp_byte, bad_record, bad_strength, bad_tail};

use crate::slices::slice_count;
use picture::cell_at;

// A QP byte is not from `least` to 115, which is QP 51. One test tells both: how far it lies above `least`, counted on
// around the end of a byte where it lies below.
fn bad_qp(qp: u8, least: u8) -> bool
    requires { least ≤ 115 }
    ensures { result ≡ any_of (bad_qp_byte least qp) }
{
    115 - (least as u32) < (256 + (qp as u32) - (least as u32)) % 256
}

// The largest strength of a side: 2 with its edge, and 0 without (document 02, C-14).
fn largest_bs(edge: bool) -> u8
    ensures { result ≡ cond edge 2 0 }
{
    if edge { 2 } else { 0 }
}

// A strength is out of range, or above 0 without its edge.
fn bad_strength(bs: u8, edge: bool) -> bool
    ensures { result ≡ any_of (bad_strength edge bs) }
{
    largest_bs(edge) < bs
}

// A slice number is not below the number of slice records, or one of the two bytes after it is not 0. These bytes stand
// above its 16 bits, so that one test tells all three.
fn bad_tail(slice: u16, sixth: u8, seventh: u8, count: usize) -> bool
    ensures { result ≡ any_of (bad_tail count slice sixth seventh) }
{
    count.min(65536) <= (slice as usize) + 65536 * (sixth as usize) + 16777216 * (seventh as usize)
}

// Cell record n is out of range or against C-14's rule. One test for each field, since this runs for every cell.
fn bad_cell_at(cells: &[u8], n: usize, least: u8, count: usize) -> bool
    requires { (8 * n + 8 ≤ length cells.now) × (least ≤ 115) }
    ensures { result ≡ any_of
        (bad_record least count cells.now n ++ broken cell_rules (cell_byte cells.now n)) }
{
    let at = 8 * n;
    let cell = cell_at(cells, n);
    bad_qp(cell.qp, least)
        | (31 < cell.flags)
        | bad_strength(cell.bsv, cell.flags % 2 == 1)
        | bad_strength(cell.bsh, cell.flags / 2 % 2 == 1)
        | bad_tail(cell.slice, cells[at + 6], cells[at + 7], count)
}

// 9. The first cell out of range, with a slice number not in the list or with a strength that has no edge.
pub fn first_bad_cell(cells: &[u8], slices: &[u8], depth: u32) -> Option<usize>
    requires { (8 ≤ depth) × (depth ≤ 16) }
    ensures { result ≡ first_place
        (cells_cause cell_rules depth slices.now cells.now (length cells.now / 8)) }
{
    let least = (64 - 6 * (depth - 8)) as u8;
    let count = slice_count(slices);
    (0..cells.len() / 8).find(|n| bad_cell_at(cells, *n, least, count))
}
