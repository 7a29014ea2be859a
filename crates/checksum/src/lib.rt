// The picture checksum of H.265, Annex D (decoded picture hash), of finished planes (document 02, C-11).
#![tactic(auto)]

mod plane;
mod planes;

pub use planes::picture_checksums;

// The sum of a monochrome picture, or a sum for each plane.
#[derive(Clone, Copy, PartialEq, Eq, Debug)]
pub enum Checksums {
    One(u32),
    Three { y: u32, cb: u32, cr: u32 },
}
