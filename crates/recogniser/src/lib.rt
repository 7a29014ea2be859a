// What a digit recogniser asks of finished planes (document 02, C-22): a pixel as 32-bit floats, and the way back from
// a float to its sample. It knows the stage by its contracts alone.
#![tactic(auto)]

ghost use Rattle.std.specs.Prelude.{◌≡◌};
ghost use Rattle.recogniser.specs.declared.PixelRefusal.TheVariants.{Planes};

mod pixels;
mod way_back;

use float_samples::Colour;
use ledger::Refusal;
pub use pixels::pixel_at;
pub use way_back::sample_of;

// The part of a pixel of a monochrome picture, or its three parts.
#[derive(Clone, Copy)]
pub enum Pixel {
    Grey(f32),
    Colour(Colour),
}

// Why there is no pixel: the first check of the planes that applies, or that it lies outside them.
#[derive(Clone, Copy, PartialEq, Eq, Debug)]
pub enum PixelRefusal {
    Planes(Refusal),
    Outside,
}

impl From<Refusal> for PixelRefusal {
    ghost from_gives = { λ refusal e. e ≡ Planes refusal };

    fn from(refusal: Refusal) -> PixelRefusal {
        PixelRefusal::Planes(refusal)
    }
}

// Why there is no sample: the depth is outside 8 to 16, or no sample gives the float.
#[derive(Clone, Copy, PartialEq, Eq, Debug)]
pub enum SampleRefusal {
    Depth,
    NoSample,
}
