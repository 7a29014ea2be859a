// The line of a picture's farthest moves (document 02, C-23): its number, the verdict's number and place, and where the
// picture is accepted, of each plane how far the farthest sample moved, and its place in the plane.
ghost use Rattle.std.specs.Prelude.{OnOk, Some};
ghost use Rattle.std.specs.Io.KnownBytes.{Appends};
ghost use Rattle.picture.specs.Lent.{planes_lent};
ghost use Rattle.picture_text.specs.Lines.{MovesOf, moves_text, moves_line};

use crate::words::put_refused;
use ledger::Verdict;
use moves::{Move, farthest_move};
use picture::Planes;
use std::io::Write;
use std::{fmt, io};

// The farthest moves of the three planes. No one type with `Fingerprints`, which prints in another form.
#[derive(Clone, Copy)]
pub struct Moves {
    pub y: Move,
    pub cb: Move,
    pub cr: Move,
}

impl Moves {
    pub fn of(before: &Planes<'_>, after: &Planes<'_>) -> Moves
        ensures { MovesOf (planes_lent before.now) (planes_lent after.now) result }
    {
        Moves {
            y: farthest_move(before.y, after.y),
            cb: farthest_move(before.cb, after.cb),
            cr: farthest_move(before.cr, after.cr),
        }
    }
}

impl fmt::Display for Moves {
    ghost output = { λ moves. Some (moves_text moves) };

    fn fmt<W: fmt::Write>(&self, f: &mut fmt::Formatter<W>) -> fmt::Result {
        let y = self.y;
        let cb = self.cb;
        let cr = self.cr;
        write!(f, "{} {} ", y.distance, y.place)?;
        write!(f, "{} {} ", cb.distance, cb.place)?;
        write!(f, "{} {}", cr.distance, cr.place)
    }
}

pub fn put_moves<W: Write>(
    output: &mut W,
    number: u64,
    verdict: Verdict,
    far: Moves,
) -> io::Result<()>
    ensures { OnOk result (Appends (W.contents output.old) (W.contents output.new) (moves_line number verdict far)) }
{
    match verdict {
        Ok(()) => writeln!(output, "{number} 0 0 {far}"),
        Err(refusal) => put_refused(output, number, refusal),
    }
}
