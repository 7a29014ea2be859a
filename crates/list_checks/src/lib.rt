// Causes 7 to 10 of the refusal ledger, document 01, each with a function that finds the first bad entry: what the
// lists hold, slice records, tile starts, cell records and samples. Each takes what it looks at and not the whole
// picture, which would ask more of callers.
#![tactic(auto)]

mod cells;
mod samples;
mod slices;
mod tiles;

pub use cells::first_bad_cell;
pub use samples::first_bad_original;
pub use slices::first_bad_slice;
pub use tiles::first_bad_tile;
