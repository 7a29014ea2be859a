// The tile that a CTB lies in, one direction at a time: col_of and row_of of the Rust.
ghost use Rattle.std.specs.Prelude.{◌≡◌, eqb};
ghost use Rattle.picture.specs.Tile.{tile_of};

use crate::columns::CtbColumn;

// How many starts are not past a CTB.
#[tactic(auto, using(crate::proofs::Records::starts_counted))]
fn starts_reached(starts: &[u16], ctb: usize) -> usize
    ensures { result ≡ tile_of starts.now ctb }
{
    starts
        .iter()
        .filter(|start| **start as usize <= ctb)
        .count()
}

// Whether two CTBs of one direction lie in one tile. Most pairs are one CTB, which takes no lookup.
fn same_tile(starts: &[u16], p: usize, q: usize) -> bool
    ensures { result ≡ eqb (tile_of starts.now p) (tile_of starts.now q) }
{
    p == q || starts_reached(starts, p) == starts_reached(starts, q)
}

// Whether two columns of CTBs lie in one tile column. README names this function and the one of rows, which stay two: a
// column has a type of its own, and a row is a plain number.
pub fn same_tile_column(starts: &[u16], p: CtbColumn, q: CtbColumn) -> bool
    ensures { result ≡ eqb (tile_of starts.now p.0) (tile_of starts.now q.0) }
{
    same_tile(starts, p.0, q.0)
}

// Whether two rows of CTBs lie in one tile row.
pub fn same_tile_row(starts: &[u16], p: usize, q: usize) -> bool
    ensures { result ≡ eqb (tile_of starts.now p) (tile_of starts.now q) }
{
    same_tile(starts, p, q)
}
