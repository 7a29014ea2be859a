// One record after another.
ghost use Rattle.std.specs.Prelude.{◌≡◌, ◌*◌, length};
ghost use Rattle.plane_counts.specs.Pairs.{Fitting};

use crate::pairs::{Pair, is_inside, is_small, pair_in};
use picture_record::{SAMPLES, Stop, each_record, read_head, read_numbers};
use std::io::{Read, Write};
use tile_parts::differing_plane;

fn read_and_count<R: Read, W: Write>(
    input: &mut R,
    output: &mut W,
    pair: Pair,
    first: &mut [u16],
    second: &mut [u16],
) -> Result<(), Stop>
    requires fitting { Fitting pair }
    requires first_len { length first.old ≡ pair.part.width * pair.part.height }
    requires second_len { length second.old ≡ pair.stride * pair.rows }
{
    read_numbers(input, &mut first[..])?;
    read_numbers(input, &mut second[..])?;
    let count = differing_plane(first, second, pair.stride, pair.part);
    writeln!(output, "{count}")?;
    Ok(())
}

fn with_planes<R: Read, W: Write>(input: &mut R, output: &mut W, pair: Pair) -> Result<(), Stop>
    requires { Fitting pair }
{
    let a = pair.part.width * pair.part.height;
    let b = pair.stride * pair.rows;
    let mut first = [0u16; SAMPLES];
    let mut second = [0u16; SAMPLES];
    read_and_count(input, output, pair, &mut first[..a], &mut second[..b])
}

// The next record.
fn one_pair<R: Read, W: Write>(input: &mut R, output: &mut W) -> Result<(), Stop> {
    let head = read_head::<24, R>(input)?;
    let pair = pair_in(&head);
    if !is_small(pair) {
        return Err(Stop::TooLarge);
    }
    if !is_inside(pair) {
        return Err(Stop::Outside);
    }
    with_planes(input, output, pair)
}

pub(crate) fn run<R: Read, W: Write>(input: &mut R, output: &mut W) {
    each_record(input, output, |input, output, _| one_pair(input, output));
}
