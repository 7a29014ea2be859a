// Samples as 32-bit floats, exactly, and the way back from a float to its sample (document 02, C-22).
#![tactic(auto)]

mod parts;
mod way_back;

pub use parts::{colour_of, part};
pub use way_back::find_sample;

// The three parts of a pixel.
#[derive(Clone, Copy)]
pub struct Colour {
    pub luma: f32,
    pub cb: f32,
    pub cr: f32,
}
