// Restoration: after each pass a suppressed cell, one that is lossless, palette or PCM with the switch on, has its
// original samples again.
#![tactic(auto)]

mod marks;
mod plane;
mod rows;

pub use marks::restoration_of;
pub use plane::restore;
pub use rows::cell_row;

// The switch for PCM cells, and whether any cell is suppressed with it. Where none is, nothing is restored. It is no
// Option: the clauses of `restore` name the switch (`restored_for`) also where no cell is suppressed.
#[derive(Clone, Copy)]
pub struct Restoration {
    pub pcm: bool,
    pub any: bool,
}
