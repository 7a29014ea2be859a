// Term 3 as a run: a tile is cut out, filtered alone, and compared with the same tile filtered in its picture.
#![tactic(auto)]

ghost use Rattle.std.specs.Prelude.{◌≡◌};
ghost use Rattle.tile_check.specs.declared.TileRefusal.TheVariants as Case;

mod cuts;
mod driver;

pub use driver::check_tile;
use ledger::Refusal;

// Why the check of a tile has no count to answer: the picture is refused; it has no such tile; a list lent for the cut
// has not its exact length.
#[derive(Clone, Copy, PartialEq, Eq, Debug)]
pub enum TileRefusal {
    Picture(Refusal),
    NoTile,
    Lengths,
}

impl From<Refusal> for TileRefusal {
    ghost from_gives = { λ r e. e ≡ Case.Picture r };

    fn from(refusal: Refusal) -> TileRefusal {
        TileRefusal::Picture(refusal)
    }
}
