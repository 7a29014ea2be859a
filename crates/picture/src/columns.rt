// Four counts of columns, each with a type of its own, as px, cx, gx and the CTB shift of the Rust, and the scalings
// between them. One type with its unit as a parameter would be no plainer: document 01 wants a type for each, and each
// has scalings of its own. Rows are plain numbers (rows.rt): a loop's counter or an argument beside a typed column,
// whose unit a contract fixes.
ghost use Rattle.std.specs.Prelude.{◌≡◌, ◌*◌, ◌-◌, ◌≤◌, ◌<◌, ◌^◌};
ghost use Rattle.picture.specs.Scale.{chroma_across, from_luma, to_luma, cell_of, ctb_of};

// A count of luma columns: px in the Rust.
#[derive(Clone, Copy)]
pub struct LumaColumn(pub usize);

// A count of chroma columns: cx in the Rust.
#[derive(Clone, Copy)]
pub struct ChromaColumn(pub usize);

// A count of columns of 4 by 4 cells: gx in the Rust.
#[derive(Clone, Copy)]
pub struct CellColumn(pub usize);

// A count of columns of CTBs: px >> log2_ctb in the Rust.
#[derive(Clone, Copy)]
pub struct CtbColumn(pub usize);

impl LumaColumn {
    // The cell that the luma column lies in.
    pub fn cell(self) -> CellColumn
        ensures { result.0 ≡ cell_of self.0 }
    {
        CellColumn(self.0 / 4)
    }

    // The CTB that the luma column lies in.
    pub fn ctb(self, log2: u32) -> CtbColumn
        requires { log2 < 64 }
        ensures { result.0 ≡ ctb_of log2 self.0 }
    {
        CtbColumn(self.0 >> log2)
    }

    // The chroma column over the luma column.
    pub fn chroma(self, format: u32) -> ChromaColumn
        ensures { result.0 ≡ from_luma (chroma_across format) self.0 }
    {
        match format {
            0 => ChromaColumn(0),
            3 => ChromaColumn(self.0),
            _ => ChromaColumn(self.0 / 2),
        }
    }
}

impl ChromaColumn {
    // The luma column that the chroma column stands on.
    pub fn luma(self, format: u32) -> LumaColumn
        requires { self.0 < 2 ^ 32 }
        ensures { result.0 ≡ to_luma (chroma_across format) self.0 }
    {
        match format {
            0 | 3 => LumaColumn(self.0),
            _ => LumaColumn(2 * self.0),
        }
    }
}
