// What the records say of one segment, one cell and one band. The crate's specs define the whole filter; the passes
// are above.
#![tactic(auto)]

mod bands;
mod gate;
mod parameters;

pub use bands::{ctb_band_end, horiz_band_end};
pub use gate::{is_suppressed, slice_gate};
pub use parameters::{chroma_filter, luma_filter};

// What is to be known of the component that is filtered. `offset` is the Cb or Cr offset plus 12, which luma does not
// read; `largest` is the largest sample of the depth. An enum of luma and chroma would be no plainer: both have a depth
// and a largest sample, and `Sound`, `segment_for` and `Ready` speak of the fields. `format` is the picture's number.
#[derive(Clone, Copy)]
pub struct Component {
    pub luma: bool,
    pub format: u32,
    pub depth: u32,
    pub offset: u8,
    pub largest: u16,
}

// How an open luma segment is filtered: its scaled thresholds and the largest sample.
#[derive(Clone, Copy)]
pub struct LumaFilter {
    pub beta: u16,
    pub tc: u16,
    pub largest: u16,
}

// How an open chroma segment is filtered.
#[derive(Clone, Copy)]
pub struct ChromaFilter {
    pub tc: u16,
    pub largest: u16,
}
