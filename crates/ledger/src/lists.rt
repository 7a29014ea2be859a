// The ledger's last part: what the lists hold.
ghost use Rattle.std.specs.Prelude.{◌≡◌};
ghost use Rattle.picture.specs.Causes.{cell_rules};
ghost use Rattle.picture.specs.Ledger.{first_of};
ghost use Rattle.picture.specs.Lent.{picture_lent};
ghost use Rattle.ledger.specs.Numbered.{numbered};
ghost use Rattle.ledger.specs.Parts.{Settled, lists_part};

use crate::{Refusal, Verdict};
use list_checks::{first_bad_cell, first_bad_original, first_bad_slice, first_bad_tile};
use picture::Picture;

// Causes 7 to 10, of a picture to which causes 1 to 6 do not apply.
pub fn check_lists(picture: &Picture<'_>) -> Verdict
    requires { Settled picture.now.settings picture.now.cells.now }
    ensures { numbered result ≡ first_of (lists_part cell_rules (picture_lent picture.now)) }
{
    let settings = picture.settings;
    if let Some(record) = first_bad_slice(picture.slices) {
        return Err(Refusal::Slice(record));
    }
    if let Some(start) = first_bad_tile(settings, picture.columns, picture.rows) {
        return Err(Refusal::TileStart(start));
    }
    if let Some(cell) = first_bad_cell(picture.cells, picture.slices, settings.luma_depth) {
        return Err(Refusal::Cell(cell));
    }
    if let Some(sample) = first_bad_original(settings, &picture.planes) {
        return Err(Refusal::Sample(sample));
    }
    Ok(())
}
