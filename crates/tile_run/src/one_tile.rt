// One tile tried: the lists that its check needs, then the check and its line.
use crate::cut_lists::{chroma_size, lent_cells, lent_planes};
use crate::line::{Trial, put_tile};
use crate::{JUNK, LentSamples};
use picture::{Picture, Planes};
use picture_record::{CELL_BYTES, SAMPLES, front};
use std::io;
use std::io::Write;
use tile_check::check_tile;
use tile_parts::cut_size;

// With the originals and the cells of the cut. What is lent to be filled stays a list each: a clause could name what a
// struct of such references leaves only by its place in nested pairs (the clauses of `check_tile`).
fn tile_line<W: Write>(
    output: &mut W,
    trial: Trial,
    picture: &Picture<'_>,
    outy: &mut [u16],
    outcb: &mut [u16],
    outcr: &mut [u16],
    owny: &mut [u16],
    owncb: &mut [u16],
    owncr: &mut [u16],
) -> io::Result<()> {
    let settings = picture.settings;
    let size = cut_size(settings, picture.columns, picture.rows, trial.at);
    let lent = lent_planes(1, settings.chroma_format, size, trial.wrong);
    let bytes = lent_cells(size, trial.wrong);
    let mut cuty = [JUNK; SAMPLES];
    let mut cutcb = [JUNK; SAMPLES];
    let mut cutcr = [JUNK; SAMPLES];
    let mut cutcells = [0u8; CELL_BYTES];
    let answer = check_tile(
        picture,
        trial.at,
        outy,
        outcb,
        outcr,
        front(&mut cuty, lent.y),
        front(&mut cutcb, lent.cb),
        front(&mut cutcr, lent.cr),
        front(&mut cutcells, bytes),
        &mut owny[..],
        &mut owncb[..],
        &mut owncr[..],
    );
    let chroma = chroma_size(settings.chroma_format, size);
    let own = Planes {
        y: owny,
        cb: owncb,
        cr: owncr,
    };
    put_tile(output, trial, answer, size, chroma, &own)
}

// With the outputs of the picture and of the cut. All lists of the cut have the lengths that it needs, but for the
// list `wrong`, one too short (1 to 7) or one too long (8 to 14).
pub(crate) fn one_tile<W: Write>(
    output: &mut W,
    trial: Trial,
    outputs: LentSamples,
    picture: &Picture<'_>,
) -> io::Result<()> {
    let settings = picture.settings;
    let size = cut_size(settings, picture.columns, picture.rows, trial.at);
    let own = lent_planes(5, settings.chroma_format, size, trial.wrong);
    let mut outy = [JUNK; SAMPLES];
    let mut outcb = [JUNK; SAMPLES];
    let mut outcr = [JUNK; SAMPLES];
    let mut owny = [JUNK; SAMPLES];
    let mut owncb = [JUNK; SAMPLES];
    let mut owncr = [JUNK; SAMPLES];
    tile_line(
        output,
        trial,
        picture,
        front(&mut outy, outputs.y),
        front(&mut outcb, outputs.cb),
        front(&mut outcr, outputs.cr),
        front(&mut owny, own.y),
        front(&mut owncb, own.cb),
        front(&mut owncr, own.cr),
    )
}
