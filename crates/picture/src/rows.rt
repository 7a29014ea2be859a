// Rows are plain numbers beside a typed column, and these are the scalings between a plane's rows, cell rows and CTB
// rows. With the columns' own scalings they are all that the chroma format and the sizes of cells and CTBs decide.
ghost use Rattle.std.specs.Prelude.{◌≡◌, ◌<◌, ◌^◌};
ghost use Rattle.picture.specs.Scale.{chroma_down, from_luma, to_luma, cell_of, ctb_of};

// The row of cells that a luma row lies in; of the picture's height, how many rows of cells it has.
pub fn row_of_cells(row: usize) -> usize
    ensures { result ≡ cell_of row }
{
    row / 4
}

// The row of CTBs that a luma row lies in.
pub fn row_of_ctbs(row: usize, log2: u32) -> usize
    requires { log2 < 64 }
    ensures { result ≡ ctb_of log2 row }
{
    row >> log2
}

// The chroma rows of luma rows.
pub fn chroma_rows(format: u32, rows: usize) -> usize
    ensures { result ≡ from_luma (chroma_down format) rows }
{
    match format {
        0 => 0,
        1 => rows / 2,
        _ => rows,
    }
}

// The luma row that a chroma row stands on.
pub fn luma_row(format: u32, row: usize) -> usize
    requires { row < 2 ^ 32 }
    ensures { result ≡ to_luma (chroma_down format) row }
{
    if format == 1 { 2 * row } else { row }
}
