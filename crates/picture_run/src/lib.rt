// Stored pictures: records from a reader, lines to a writer. oracle/README.md has the layout of both.
#![tactic(auto)]

mod records;
mod runs;
mod stages;

pub use runs::{
    run_checksums, run_finished_checksums, run_moves, run_pixels, run_stage, run_tiles,
};
