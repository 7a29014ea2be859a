// Document 02's C-14: stored cell lists in which a strength without an edge becomes 0.
#![tactic(auto)]

mod strengths;

pub use strengths::convert_cells;
