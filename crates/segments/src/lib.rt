// What is filtered at one segment: the cells on its two sides, and from them its filter.
#![tactic(auto)]

ghost use Rattle.segments.specs.Ready.{Ready};

mod at;
mod between;
mod direction;
mod neighbours;
mod scales;

pub use at::{edge_at, filter_at};
pub use direction::{EdgeDirection, Horizontal, Vertical};
use filter::Component;
use picture::{Cell, CellColumn, LumaColumn};
pub use scales::luma_row_at;

// The plane that is filtered, in its own samples, with the height of a band of its passes; and the picture around it,
// in cells, with its CTB size.
#[derive(Clone, Copy)]
pub struct Frame {
    pub columns: usize,
    pub rows: usize,
    pub cell_columns: CellColumn,
    pub cell_rows: usize,
    pub log2_ctb: u32,
    pub band: usize,
}

// What a pass over one component's plane goes by: the picture's cell and slice records and the starts of its tile
// columns and rows, the table of the luma tc, the component and its plane's frame. The picture was accepted.
#[derive(Clone, Copy)]
pub struct PassInput<'a> {
    pub cells: &'a [u8],
    pub slices: &'a [u8],
    pub columns: &'a [u16],
    pub rows: &'a [u16],
    pub tcs: &'a [u8; 1352],
    pub component: Component,
    pub frame: Frame,
    pub ghost ready: { Ready component frame cells.now slices.now tcs.now },
}

// The place of a luma sample.
#[derive(Clone, Copy)]
pub struct LumaPosition {
    pub x: LumaColumn,
    pub y: usize,
}

// The cells P and Q of a segment, and whether they lie in one tile.
#[derive(Clone, Copy)]
pub struct Sides {
    pub p: Cell,
    pub q: Cell,
    pub same: bool,
}

// How an open segment is filtered: its thresholds. The largest sample is the component's and does not travel with each.
#[derive(Clone, Copy, Debug, PartialEq, Eq)]
pub enum SegmentFilter {
    Luma { beta: u16, tc: u16 },
    Chroma { tc: u16 },
}
