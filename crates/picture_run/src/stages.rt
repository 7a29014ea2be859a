// The stage on one picture.
ghost use Rattle.std.specs.Prelude.{◌≡◌};
ghost use Rattle.checksum.specs.Answer.{answer_of};
ghost use Rattle.ledger.specs.Numbered.{numbered};
ghost use Rattle.picture.specs.Given.{of_planes};
ghost use Rattle.picture.specs.Lent.{planes_lent};
ghost use Rattle.picture_run.specs.Sums.{finished_answer};

use crate::records::Record;
use checksum::{Checksums, picture_checksums};
use ledger::{Refusal, Verdict};
use picture::{Planes, Settings};
use picture_record::{SAMPLES, front};
use stage::apply_deblocking;
use std::io;
use tile_run::JUNK;

// The checksums of what the stage left, or its refusal.
pub(crate) fn finished_checksums(
    settings: Settings,
    verdict: Verdict,
    out: &Planes<'_>,
) -> Result<Checksums, Refusal>
    ensures { answer_of result ≡ finished_answer (numbered verdict) (of_planes settings (planes_lent out.now)) }
{
    verdict?;
    picture_checksums(settings, out)
}

// Runs the stage on outputs that hold junk, and shows its answer and what it left.
pub(crate) fn with_stage<F>(record: &Record<'_>, show: F) -> io::Result<()>
where
    F: FnOnce(Verdict, &Planes<'_>) -> io::Result<()>,
    requires { F.IsAlwaysCallable show }
{
    let mut y = [JUNK; SAMPLES];
    let mut cb = [JUNK; SAMPLES];
    let mut cr = [JUNK; SAMPLES];
    let y = front(&mut y, record.lent.y);
    let cb = front(&mut cb, record.lent.cb);
    let cr = front(&mut cr, record.lent.cr);
    let verdict = apply_deblocking(&record.picture, &mut y[..], &mut cb[..], &mut cr[..]);
    show(verdict, &Planes { y, cb, cr })
}
