// A picture's records: columns and rows, cells, slices and tiles. The definitions that its specs hold are those of
// document 01, 'What a sheet consists of', 'Refusal ledger' and 'The cut'.
#![tactic(auto)]

mod cells;
mod columns;
mod rows;
mod slices;
mod tiles;

pub use cells::{cell_at, cell_bytes, cell_number};
pub use columns::{CellColumn, ChromaColumn, CtbColumn, LumaColumn};
pub use rows::{chroma_rows, luma_row, row_of_cells, row_of_ctbs};
pub use slices::slice_at;
pub use tiles::{same_tile_column, same_tile_row};

// A picture's sizes and settings, as a caller gives them; nothing is in range until it was checked. The chroma format
// is no enum: `chroma_rows`, `luma_row` and the columns' scalings answer of any number, and an enum would ask more of
// callers.
#[derive(Clone, Copy)]
pub struct Settings {
    pub width: u32,
    pub height: u32,
    pub chroma_format: u32,
    pub luma_depth: u32,
    pub chroma_depth: u32,
    pub log2_ctb: u32,
    pub cb_qp_offset: i32,
    pub cr_qp_offset: i32,
    pub pcm_loop_filter_disabled: bool,
}

// One 4 by 4 luma block. The QP is held 64 more; bsv and bsh are the bS of the edge on its left and on its top side.
#[derive(Clone, Copy)]
pub struct Cell {
    pub qp: u8,
    pub flags: u8,
    pub bsv: u8,
    pub bsh: u8,
    pub slice: u16,
}

// One slice's deblocking parameters. The offsets are held 6 more.
#[derive(Clone, Copy)]
pub struct Slice {
    pub disabled: bool,
    pub beta: u8,
    pub tc: u8,
    pub across: bool,
}

// Three planes of samples, lent to be read. A monochrome picture's Cb and Cr are empty.
#[derive(Clone, Copy)]
pub struct Planes<'a> {
    pub y: &'a [u16],
    pub cb: &'a [u16],
    pub cr: &'a [u16],
}

// A picture, lent to be read: its sizes and settings, its original planes, its cell and slice records, and the CTBs at
// which its tile columns and rows start. Nothing is in range until it was checked.
#[derive(Clone, Copy)]
pub struct Picture<'a> {
    pub settings: Settings,
    pub planes: Planes<'a>,
    pub cells: &'a [u8],
    pub slices: &'a [u8],
    pub columns: &'a [u16],
    pub rows: &'a [u16],
}
