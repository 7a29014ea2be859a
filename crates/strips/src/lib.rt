// The segments of a strip, in place: what is filtered at each, and the filter on its window. One set of functions
// serves luma and chroma.
#![tactic(auto)]

mod direction;
mod horizontal;
mod segment;
mod vertical;

pub use horizontal::horizontal_strip;
use lines::LumaAnswer;
pub use vertical::vertical_strip;

// What was done at an open segment: the luma filter by this decision, with its counts, or the chroma filter.
#[derive(Clone, Copy)]
pub enum Treatment {
    Luma(LumaAnswer),
    Chroma,
}
