// Every tile of a picture tried: term 3 as a run.
#![tactic(auto)]

mod cut_lists;
mod line;
mod one_tile;
mod tiles;

pub use tiles::tile_lines;

// How many samples are lent for each of three planes. No tuple or array: the definition `lent_planes` of
// specs/CutLists speaks of it by its name.
#[derive(Clone, Copy)]
pub struct LentSamples {
    pub y: usize,
    pub cb: usize,
    pub cr: usize,
}

// What a list of samples holds before the stage or the check of a tile.
pub const JUNK: u16 = 43981;
