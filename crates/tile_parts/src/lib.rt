// The parts of a tile, in a picture's planes and in its cell records, and what is done with a part of a list of rows:
// it is copied out, or compared with a list of its own size.
#![tactic(auto)]

mod counts;
mod crops;
mod cuts;
mod parts;

pub use counts::differing_plane;
pub use cuts::{differing_samples, make_cut};
pub use parts::{cut_size, find_luma_part, luma_part};

// A part of a list of rows: its first column and row, its columns and rows.
#[derive(Clone, Copy)]
pub struct Part {
    pub x: usize,
    pub y: usize,
    pub width: usize,
    pub height: usize,
}

// A tile by its column and row among the tiles, both from 0.
#[derive(Clone, Copy)]
pub struct TileAt {
    pub column: usize,
    pub row: usize,
}

// The luma columns and rows of a cut.
#[derive(Clone, Copy, Default)]
pub struct CutSize {
    pub width: usize,
    pub height: usize,
}
