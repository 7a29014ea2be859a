// The ledger of planes alone (document 02, C-11): its checks are the picture's own, fewer and in the same order.
ghost use Rattle.std.specs.Prelude.{◌≡◌};
ghost use Rattle.picture.specs.Causes.{planes_ledger};
ghost use Rattle.picture.specs.Given.{of_planes};
ghost use Rattle.picture.specs.Ledger.{first_of};
ghost use Rattle.picture.specs.Lent.{planes_lent};
ghost use Rattle.ledger.specs.Numbered.{numbered};

use crate::settings::check_format;
use crate::{Refusal, Verdict};
use checks::{bad_depths, bad_planes};
use list_checks::first_bad_original;
use picture::{Planes, Settings};

// Causes 1, 2, 3, 6 of the given planes, and 10. The settings beside sizes, format and depths are not looked at.
pub fn check_planes(settings: Settings, planes: &Planes<'_>) -> Verdict
    ensures { numbered result ≡ first_of (planes_ledger (of_planes settings (planes_lent planes.now))) }
{
    check_format(settings)?;
    if bad_depths(settings) {
        return Err(Refusal::Depth);
    }
    if bad_planes(settings, planes.y.len(), planes.cb.len(), planes.cr.len()) {
        return Err(Refusal::Lengths);
    }
    if let Some(sample) = first_bad_original(settings, planes) {
        return Err(Refusal::Sample(sample));
    }
    Ok(())
}
