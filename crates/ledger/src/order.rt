// The ledger's parts in their order: the settings, the lengths, the lists.
ghost use Rattle.std.specs.Prelude.{◌≡◌};
ghost use Rattle.checks.specs.Lengths.{lent_tests};
ghost use Rattle.picture.specs.Causes.{cell_rules, ledger};
ghost use Rattle.picture.specs.Given.{bare};
ghost use Rattle.picture.specs.Ledger.{first_of};
ghost use Rattle.picture.specs.Lent.{picture_lent};
ghost use Rattle.ledger.specs.Numbered.{numbered};

use crate::lists::check_lists;
use crate::settings::check_settings;
use crate::{Refusal, Verdict};
use checks::{OutputLengths, bad_lengths};
use picture::Picture;

// The ledger's answer to a picture and to what is lent to be written beside it, which goes by its lengths.
pub fn check(picture: &Picture<'_>, lent: Option<OutputLengths>) -> Verdict
    ensures { numbered result ≡ first_of
        (ledger (lent_tests (bare picture.now.settings) lent) cell_rules (picture_lent picture.now)) }
{
    check_settings(picture.settings)?;
    if bad_lengths(picture, lent) {
        return Err(Refusal::Lengths);
    }
    check_lists(picture)
}
