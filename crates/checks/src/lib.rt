// Causes 1 to 6 of the refusal ledger, document 01, each with a function that says whether it applies: what the
// numbers and the lengths decide. Tests are joined by `|`, which tries them all: a good picture takes every one of
// them anyway, and so no test is a branch.
#![tactic(auto)]

mod lengths;
mod settings;

pub use lengths::{OutputLengths, bad_cell_bytes, bad_lengths, bad_lent, bad_planes};
pub use settings::{bad_ctb, bad_depth, bad_depths, bad_format, bad_offsets, bad_sizes};
