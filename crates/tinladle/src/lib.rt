// The filter for programs in other languages, under C's calling convention: a module for each function.
// include/tinladle.h declares them; C's interface is lists and numbers, so that they stay parameters here.
#![tactic(auto)]

mod cells;
mod deblock;
mod passed;
mod pixels;
mod recovered;
mod sums;

pub use cells::tinladle_convert_cells;
pub use deblock::tinladle_deblock;
pub use pixels::tinladle_pixel;
pub use recovered::tinladle_sample;
pub use sums::tinladle_checksum;
