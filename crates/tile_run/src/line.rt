// The line of a tile: the picture's number, the tile's column and row, the list that is one off its length or 0, and
// the answer in words.
ghost use Rattle.std.specs.Prelude.{◌≡◌, OnOk, Some};
ghost use Rattle.std.specs.Io.KnownBytes.{Appends};
ghost use Rattle.picture.specs.Lent.{planes_lent};
ghost use Rattle.tile_run.specs.Lines.{trial_text, differing_line, tile_line, cut_fingerprints};

use fingerprint::plane_fingerprint;
use picture::Planes;
use picture_text::Fingerprints;
use std::io::Write;
use std::{fmt, io};
use tile_check::TileRefusal;
use tile_parts::{CutSize, TileAt};

// What is tried: a tile of a picture, with the list `wrong` of its cut one off its length, or none (0). It stays a
// number: the line shows it, and `next_trial` and `length_of` of specs/ count by it.
#[derive(Clone, Copy)]
pub(crate) struct Trial {
    pub number: u64,
    pub at: TileAt,
    pub wrong: usize,
}

impl fmt::Display for Trial {
    ghost output = { λ trial. Some (trial_text trial) };

    #[tactic(auto, unfolding(crate::specs::Lines::trial_text))]
    fn fmt<W: fmt::Write>(&self, f: &mut fmt::Formatter<W>) -> fmt::Result {
        let Trial { number, at, wrong } = *self;
        write!(f, "{number} {} {} {wrong}", at.column, at.row)
    }
}

// The fingerprints of a cut's planes, whose sizes are `luma` and `chroma`.
#[tactic(auto, unfolding(crate::specs::Lines::cut_fingerprints))]
fn cut_fingerprints(luma: CutSize, chroma: CutSize, cut: &Planes<'_>) -> Fingerprints
    ensures { result ≡ cut_fingerprints luma chroma (planes_lent cut.now) }
{
    Fingerprints {
        y: plane_fingerprint(cut.y, luma.width, luma.height),
        cb: plane_fingerprint(cut.cb, chroma.width, chroma.height),
        cr: plane_fingerprint(cut.cr, chroma.width, chroma.height),
    }
}

#[tactic(auto, unfolding(crate::specs::Lines::differing_line))]
fn put_differing<W: Write>(
    output: &mut W,
    trial: Trial,
    count: usize,
    prints: Fingerprints,
) -> io::Result<()>
    ensures { OnOk result (Appends (W.contents output.old) (W.contents output.new)
        (differing_line trial count prints)) }
{
    writeln!(output, "{trial} differing {count} {prints}")
}

// The answer for a tile; where its cut was filtered, with the fingerprints of what that left. `luma` and `chroma` are
// the sizes of the cut's planes.
pub(crate) fn put_tile<W: Write>(
    output: &mut W,
    trial: Trial,
    answer: Result<usize, TileRefusal>,
    luma: CutSize,
    chroma: CutSize,
    own: &Planes<'_>,
) -> io::Result<()>
    ensures { OnOk result (Appends (W.contents output.old) (W.contents output.new)
        (tile_line trial answer (cut_fingerprints luma chroma (planes_lent own.now)))) }
{
    match answer {
        Ok(count) => put_differing(output, trial, count, cut_fingerprints(luma, chroma, own)),
        Err(TileRefusal::Picture(refusal)) => {
            writeln!(
                output,
                "{trial} refused {} {}",
                refusal.number(),
                refusal.place()
            )
        }
        Err(TileRefusal::NoTile) => writeln!(output, "{trial} no tile"),
        Err(TileRefusal::Lengths) => writeln!(output, "{trial} lengths"),
    }
}
