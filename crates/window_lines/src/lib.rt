// The lines of a segment's window, read from a lent list of samples and written there.
#![tactic(auto)]

mod line;
mod rows;

pub use line::{put_line, take_line, take_lines};
use lines::Line;
pub use rows::{put_row, put_rows};

// The four lines of a segment. Fields and no array, which would be no plainer: the definitions name each line
// (`lines_of`, `line_in`), and so does the code that lays them side by side.
#[derive(Clone, Copy)]
pub struct Lines {
    pub l0: Line,
    pub l1: Line,
    pub l2: Line,
    pub l3: Line,
}
