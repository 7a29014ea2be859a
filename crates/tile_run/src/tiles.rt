// Term 3 tried on a picture: each tile, one past the last of each row and below the last row, and each list of a cut
// one off its length.
ghost use Rattle.std.specs.Prelude.{◌≡◌, ◌<◌};
ghost use Rattle.tile_run.specs.Trials.{trial, next_trial};

use crate::LentSamples;
use crate::line::Trial;
use crate::one_tile::one_tile;
use picture::Picture;
use std::io;
use std::io::Write;
use tile_parts::TileAt;

fn trial(number: u64, column: usize, row: usize, wrong: usize) -> Trial
    ensures { result ≡ trial number column row wrong }
{
    Trial {
        number,
        at: TileAt { column, row },
        wrong,
    }
}

// The trial after this one, in a picture of so many tile columns and rows.
fn next_trial(columns: usize, rows: usize, now: Trial) -> Trial
    requires { now.wrong < 15 }
    ensures { result ≡ next_trial columns rows now }
{
    let at = now.at;
    if 0 < now.wrong {
        return trial(now.number, 0, 0, now.wrong + 1);
    }
    if rows <= at.row {
        return trial(now.number, 0, 0, 1);
    }
    if at.column < columns {
        return trial(now.number, at.column + 1, at.row, 0);
    }
    trial(now.number, 0, at.row + 1, 0)
}

// A line for each trial. `next_trial` states their order (specs/Trials), which loops over tile rows and columns would
// leave unsaid.
pub fn tile_lines<W: Write>(
    output: &mut W,
    number: u64,
    outputs: LentSamples,
    picture: &Picture<'_>,
) -> io::Result<()> {
    let mut now = trial(number, 0, 0, 0);
    while now.wrong < 15 {
        one_tile(output, now, outputs, picture)?;
        now = next_trial(picture.columns.len(), picture.rows.len(), now);
    }
    Ok(())
}
