// One picture after another, and what is done with each.
ghost use Rattle.std.specs.Prelude.{◌≡◌};
ghost use Rattle.picture_run.specs.Outputs.{lent_outputs};

use picture::{Picture, Planes};
use picture_record::{
    CELL_BYTES, SAMPLES, SLICE_BYTES, STARTS, Stop, all_fit, each_record, front, is_marked,
    length_at, read_bytes, read_head, read_numbers, settings,
};
use std::io::{Read, Write};
use tile_run::LentSamples;

// A picture that was read: its number from 1 on, the picture, and how long the output planes are that are lent with it.
#[derive(Clone, Copy)]
pub(crate) struct Record<'a> {
    pub number: u64,
    pub picture: Picture<'a>,
    pub lent: LentSamples,
}

// How long the output planes are.
fn lent_outputs(head: &[u8; 80]) -> LentSamples
    ensures { result ≡ lent_outputs head.now }
{
    LentSamples {
        y: length_at(head, 3),
        cb: length_at(head, 4),
        cr: length_at(head, 5),
    }
}

// With the lists after the planes.
fn with_lists<R, W, F>(
    input: &mut R,
    output: &mut W,
    number: u64,
    head: &[u8; 80],
    planes: &Planes<'_>,
    answer: &F,
) -> Result<(), Stop>
where
    R: Read,
    W: Write,
    F: Fn(&mut R, &mut W, &Record<'_>) -> Result<(), Stop>,
    requires { F.IsAlwaysCallable answer.now }
{
    let mut cells = [0u8; CELL_BYTES];
    let mut slices = [0u8; SLICE_BYTES];
    let mut columns = [0u16; STARTS];
    let mut rows = [0u16; STARTS];
    let cells = front(&mut cells, length_at(head, 6));
    let slices = front(&mut slices, length_at(head, 7));
    let columns = front(&mut columns, length_at(head, 8));
    let rows = front(&mut rows, length_at(head, 9));
    read_bytes(input, cells)?;
    read_bytes(input, slices)?;
    read_numbers(input, columns)?;
    read_numbers(input, rows)?;
    let picture = Picture {
        settings: settings(head),
        planes: *planes,
        cells,
        slices,
        columns,
        rows,
    };
    let lent = lent_outputs(head);
    answer(
        input,
        output,
        &Record {
            number,
            picture,
            lent,
        },
    )
}

// With the original planes.
fn with_planes<R, W, F>(
    input: &mut R,
    output: &mut W,
    number: u64,
    head: &[u8; 80],
    answer: &F,
) -> Result<(), Stop>
where
    R: Read,
    W: Write,
    F: Fn(&mut R, &mut W, &Record<'_>) -> Result<(), Stop>,
    requires { F.IsAlwaysCallable answer.now }
{
    let mut y = [0u16; SAMPLES];
    let mut cb = [0u16; SAMPLES];
    let mut cr = [0u16; SAMPLES];
    let y = front(&mut y, length_at(head, 0));
    let cb = front(&mut cb, length_at(head, 1));
    let cr = front(&mut cr, length_at(head, 2));
    read_numbers(input, y)?;
    read_numbers(input, cb)?;
    read_numbers(input, cr)?;
    with_lists(input, output, number, head, &Planes { y, cb, cr }, answer)
}

// The next record.
fn one_picture<R, W, F>(input: &mut R, output: &mut W, number: u64, answer: &F) -> Result<(), Stop>
where
    R: Read,
    W: Write,
    F: Fn(&mut R, &mut W, &Record<'_>) -> Result<(), Stop>,
    requires { F.IsAlwaysCallable answer.now }
{
    let head = read_head::<80, R>(input)?;
    if !is_marked(&head) {
        return Err(Stop::NoPicture);
    }
    if !all_fit(&head) {
        return Err(Stop::TooLarge);
    }
    with_planes(input, output, number, &head, answer)
}

// Reads and answers each picture.
pub(crate) fn each_picture<R, W, F>(input: &mut R, output: &mut W, answer: F)
where
    R: Read,
    W: Write,
    F: Fn(&mut R, &mut W, &Record<'_>) -> Result<(), Stop>,
    requires { F.IsAlwaysCallable answer }
{
    each_record(input, output, |input, output, number| {
        one_picture(input, output, number, &answer)
    });
}
