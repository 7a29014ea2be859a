// The input, part by part.
ghost use Rattle.std.specs.Prelude.{◌≤◌, ◌≡◌, length, take, OnOk, IfOk};
ghost use Rattle.std.specs.Io.KnownBytes.{Appends, Consumes};
ghost use Rattle.conversion.specs.Converted.{converted};
ghost use Rattle.conversion_run.specs.Streams.{Converts};

use conversion::convert_cells;
use std::io;
use std::io::{Read, Write};

// The bytes of a part: whole records, so that only the last part can end within one (`in_parts` of converted_cells).
const PART: usize = 32768;

// The three streams stay apart: a clause names a `&mut` in a struct only by its place (docs/BORROWS.md of the kit).

// What is wrong, if it can be said at all.
fn say<E: Write>(errors: &mut E, what: &[u8]) {
    let _ = errors.write_all(what);
}

// One read, and how many bytes it gave: none at the end of the input, nor where it fails, which is said. An Option
// would be no plainer: the list ends in either case.
fn read_some<R: Read, E: Write>(input: &mut R, errors: &mut E, list: &mut [u8]) -> usize
    ensures in_bounds { result ≤ length list.old }
    ensures bytes { Consumes (R.remaining input.old) (R.remaining input.new) (take result list.new) }
{
    input
        .read(list)
        .inspect_err(|_| say(errors, b"the input could not be read\n"))
        .unwrap_or(0)
}

// Fills the list as far as the input goes, and answers how far. std's `read_exact` does so too, but does not say how
// far it came. A `while`, since a turn goes on by as much as the read gave. It is not bench_run's, which takes a failed
// read for the end and says nothing of it.
fn fill<R: Read, E: Write>(input: &mut R, errors: &mut E, list: &mut [u8]) -> usize
    ensures in_bounds { result ≤ length list.old }
    ensures bytes { Consumes (R.remaining input.old) (R.remaining input.new) (take result list.new) }
{
    let mut done = 0;
    while done < list.len() {
        let more = read_some(input, errors, &mut list[done..]);
        if more == 0 {
            break;
        }
        done += more;
    }
    done
}

// Writes the list converted, by way of another as long; a write that fails is said.
fn put_converted<W: Write, E: Write>(
    output: &mut W,
    errors: &mut E,
    list: &[u8],
    made: &mut [u8],
) -> io::Result<()>
    requires { length list.now ≡ length made.old }
    ensures { OnOk result (Appends (W.contents output.old) (W.contents output.new) (converted list.now)) }
{
    convert_cells(list, &mut made[..]);
    output
        .write_all(made)
        .inspect_err(|_| say(errors, b"the output could not be written\n"))
}

// The next n bytes of the input; whether there were so many.
fn convert_next<R: Read, W: Write, E: Write>(
    input: &mut R,
    output: &mut W,
    errors: &mut E,
    n: usize,
) -> io::Result<bool>
    requires { n ≤ 32768 }
    ensures { IfOk result (λ full. Converts n full (R.remaining input.old) (R.remaining input.new)
        (W.contents output.old) (W.contents output.new)) }
{
    let mut asked = [0u8; PART];
    let mut made = [0u8; PART];
    let list = &mut asked[..n];
    let got = fill(input, errors, list);
    put_converted(output, errors, &list[..got], &mut made[..got])?;
    Ok(got == n)
}

// At most so many bytes of the input, and whether there were so many. `u64::MAX` is more than any input has. What goes
// wrong is said in `errors`.
pub fn convert_input<R: Read, W: Write, E: Write>(
    input: &mut R,
    output: &mut W,
    errors: &mut E,
    most: u64,
) -> io::Result<bool>
    ensures { IfOk result (λ full. Converts most full (R.remaining input.old) (R.remaining input.new)
        (W.contents output.old) (W.contents output.new)) }
{
    for part in 0..most.div_ceil(PART as u64) {
        let n = (most - part * PART as u64).min(PART as u64) as usize;
        if !convert_next(input, output, errors, n)? {
            return Ok(false);
        }
    }
    Ok(true)
}
