// The line of a picture: its number, the verdict's number and place, and the fingerprints of the three output planes.
ghost use Rattle.std.specs.Prelude.{OnOk};
ghost use Rattle.std.specs.Io.KnownBytes.{Appends};
ghost use Rattle.picture_text.specs.Lines.{picture_line};

use crate::words::Fingerprints;
use ledger::{Verdict, number_of, place_of};
use std::io;
use std::io::Write;

pub fn put_line<W: Write>(
    output: &mut W,
    number: u64,
    verdict: Verdict,
    prints: Fingerprints,
) -> io::Result<()>
    ensures { OnOk result (Appends (W.contents output.old) (W.contents output.new)
        (picture_line number verdict prints)) }
{
    writeln!(
        output,
        "{number} {} {} {prints}",
        number_of(verdict),
        place_of(verdict)
    )
}
