// The ledger's first part: the sizes and the settings.
ghost use Rattle.std.specs.Prelude.{◌≡◌};
ghost use Rattle.picture.specs.Given.{bare};
ghost use Rattle.picture.specs.Ledger.{first_of};
ghost use Rattle.ledger.specs.Numbered.{numbered};
ghost use Rattle.ledger.specs.Parts.{format_part, settings_part};

use crate::{Refusal, Verdict};
use checks::{bad_ctb, bad_depths, bad_format, bad_offsets, bad_sizes};
use picture::Settings;

// Causes 1 and 2, by which a plane has its size.
pub fn check_format(settings: Settings) -> Verdict
    ensures { numbered result ≡ first_of (format_part (bare settings)) }
{
    if bad_sizes(settings) {
        return Err(Refusal::Size);
    }
    if bad_format(settings) {
        return Err(Refusal::Format);
    }
    Ok(())
}

// Causes 1 to 5.
pub fn check_settings(settings: Settings) -> Verdict
    ensures { numbered result ≡ first_of (settings_part (bare settings)) }
{
    check_format(settings)?;
    if bad_depths(settings) {
        return Err(Refusal::Depth);
    }
    if bad_ctb(settings) {
        return Err(Refusal::CtbSize);
    }
    if bad_offsets(settings) {
        return Err(Refusal::Offset);
    }
    Ok(())
}
