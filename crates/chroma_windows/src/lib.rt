// The chroma filter on a segment's window, in place, in a lent list of samples, as the luma filter's (luma_windows).
// The two directions share the filter of a line and no loop, which would be no plainer: at a horizontal edge four lines
// side by side are written row by row, at a vertical one each line is done by itself.
#![tactic(auto)]

mod chroma;

pub use chroma::{horizontal_chroma, vertical_chroma};
