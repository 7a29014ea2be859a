// Where a tile lies: its part of each plane and of the cell records.
ghost use Rattle.std.specs.Prelude.{◌≡◌, ◌-◌, ◌<◌, ◌≤◌, ◌*◌, ◌^◌, length, option_map};
ghost use Rattle.picture.specs.Cut.{tile_part};
ghost use Rattle.picture.specs.Scale.{Y, cell_of};
ghost use Rattle.picture.specs.Tile.{tile_first, tile_end};
ghost use Rattle.tile_parts.specs.Parts.{part_of, chroma_part, bytes_part};
ghost use Rattle.tile_parts.specs.Tiles.{OnPicture, tiled, part_at, cut_size};

use crate::{CutSize, Part, TileAt};
use picture::{LumaColumn, Settings, cell_bytes, chroma_rows, row_of_cells};

// The tiles of one direction: the CTBs at which they start, the CTB size, and the picture's luma columns or rows.
#[derive(Clone, Copy)]
struct TileStarts<'a> {
    ctbs: &'a [u16],
    log2_ctb: u32,
    total: usize,
    ghost ctb_high: { log2_ctb ≤ 6 },
}

impl TileStarts<'_> {
    // The first luma column of tile column i, or luma row of tile row i.
    fn first(&self, i: usize) -> usize
        requires { i < length self.now.ctbs.now }
        ensures { result ≡ tile_first self.now.ctbs.now (2 ^ self.now.log2_ctb) i }
    {
        usize::from(self.ctbs[i]) << self.log2_ctb
    }

    // The luma column or row that it ends before.
    fn end(&self, i: usize) -> usize
        requires { i < length self.now.ctbs.now }
        ensures { result ≡ tile_end self.now.ctbs.now (2 ^ self.now.log2_ctb) self.now.total i }
    {
        if i + 1 < self.ctbs.len() {
            return self.first(i + 1);
        }
        self.total
    }

    // Its luma columns or rows. Starts that do not rise give none.
    fn span(&self, i: usize) -> usize
        requires { i < length self.now.ctbs.now }
        ensures { result ≡ tile_end self.now.ctbs.now (2 ^ self.now.log2_ctb) self.now.total i
            - tile_first self.now.ctbs.now (2 ^ self.now.log2_ctb) i }
    {
        self.end(i).saturating_sub(self.first(i))
    }
}

// A tile's part of the luma plane.
pub fn luma_part(settings: Settings, columns: &[u16], rows: &[u16], at: TileAt) -> Part
    requires { OnPicture (tiled settings columns.now rows.now) at }
    ensures { part_of result ≡ tile_part (tiled settings columns.now rows.now) at.column at.row Y }
{
    let across = TileStarts {
        ctbs: columns,
        log2_ctb: settings.log2_ctb,
        total: settings.width as usize,
    };
    let down = TileStarts {
        ctbs: rows,
        log2_ctb: settings.log2_ctb,
        total: settings.height as usize,
    };
    Part {
        x: across.first(at.column),
        y: down.first(at.row),
        width: across.span(at.column),
        height: down.span(at.row),
    }
}

// The same for any tile: `None` where there is no such tile, or the CTB size is above 64.
pub fn find_luma_part(settings: Settings, columns: &[u16], rows: &[u16], at: TileAt) -> Option<Part>
    ensures { option_map part_of result ≡ part_at (tiled settings columns.now rows.now) at }
{
    if (6 < settings.log2_ctb) | (columns.len() <= at.column) | (rows.len() <= at.row) {
        return None;
    }
    Some(luma_part(settings, columns, rows, at))
}

// The luma columns and rows of a tile's cut, by which the lists that are lent for it are sized: none where there is no
// such tile, since README names it as a function that can not fail.
pub fn cut_size(settings: Settings, columns: &[u16], rows: &[u16], at: TileAt) -> CutSize
    ensures { result ≡ cut_size (tiled settings columns.now rows.now) at }
{
    let Some(luma) = find_luma_part(settings, columns, rows, at) else {
        return CutSize::default();
    };
    CutSize {
        width: luma.width,
        height: luma.height,
    }
}

// The same part of a chroma plane.
pub(crate) fn chroma_part(format: u32, luma: Part) -> Part
    ensures { part_of result ≡ chroma_part format (part_of luma) }
{
    Part {
        x: LumaColumn(luma.x).chroma(format).0,
        y: chroma_rows(format, luma.y),
        width: LumaColumn(luma.width).chroma(format).0,
        height: chroma_rows(format, luma.height),
    }
}

// The bytes of the records of one row of cells, over so many luma columns.
pub(crate) fn row_bytes(columns: LumaColumn) -> usize
    requires { columns.0 ≤ 65536 }
    ensures { result ≡ 8 * cell_of columns.0 }
{
    cell_bytes(columns.cell(), 1)
}

// The same part of the cell records, whose columns are bytes.
pub(crate) fn cell_part(luma: Part) -> Part
    requires { (luma.x ≤ 65536) × (luma.width ≤ 65536) }
    ensures { part_of result ≡ bytes_part (part_of luma) }
{
    Part {
        x: row_bytes(LumaColumn(luma.x)),
        y: row_of_cells(luma.y),
        width: row_bytes(LumaColumn(luma.width)),
        height: row_of_cells(luma.height),
    }
}
