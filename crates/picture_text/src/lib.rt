// The lines that the programs on stored pictures print. oracle/README.md has their layout.
#![tactic(auto)]

mod farthest;
mod floats;
mod pictures;
mod sums;
mod words;

pub use farthest::{Moves, put_moves};
pub use floats::{bits_of, put_pixel, put_recovered};
pub use pictures::put_line;
pub use sums::{put_checksums, put_sum};
pub use words::Fingerprints;
