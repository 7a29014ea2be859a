// The refusal ledger of document 01: the ten checks in its order, of which the first that applies is the answer.
#![tactic(auto)]

mod lists;
mod numbers;
mod order;
mod planes;
mod settings;

pub use numbers::{number_of, place_of};
pub use order::check;
pub use planes::check_planes;

// A cause of the ledger that applies. A place is that of the first bad record, start, cell or sample.
#[derive(Clone, Copy, PartialEq, Eq, Debug)]
pub enum Refusal {
    Size,
    Format,
    Depth,
    CtbSize,
    Offset,
    Lengths,
    Slice(usize),
    TileStart(usize),
    Cell(usize),
    Sample(usize),
}

// What the ledger answers: nothing where it accepts.
pub type Verdict = Result<(), Refusal>;
