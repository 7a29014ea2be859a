// The checksums of a picture's planes (document 02, C-11), eight hexadecimal digits each.
ghost use Rattle.std.specs.Prelude.{OnOk};
ghost use Rattle.std.specs.Io.KnownBytes.{Appends};
ghost use Rattle.picture_text.specs.Lines.{sum_line, sums_line};

use crate::words::{put_refused, word};
use checksum::Checksums;
use ledger::Refusal;
use std::io;
use std::io::Write;

// A sum alone.
pub fn put_sum<W: Write>(output: &mut W, sum: u32) -> io::Result<()>
    ensures { OnOk result (Appends (W.contents output.old) (W.contents output.new) (sum_line sum)) }
{
    writeln!(output, "{}", word(sum))
}

// The line of a picture: its number, the verdict's number and place, and where it is accepted a sum for each plane.
pub fn put_checksums<W: Write>(
    output: &mut W,
    number: u64,
    answer: Result<Checksums, Refusal>,
) -> io::Result<()>
    ensures { OnOk result (Appends (W.contents output.old) (W.contents output.new) (sums_line number answer)) }
{
    match answer {
        Ok(Checksums::One(y)) => writeln!(output, "{number} 0 0 {}", word(y)),
        Ok(Checksums::Three { y, cb, cr }) => {
            writeln!(output, "{number} 0 0 {} {} {}", word(y), word(cb), word(cr))
        }
        Err(refusal) => put_refused(output, number, refusal),
    }
}
