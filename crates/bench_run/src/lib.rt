// The loop of the segment bench: records from a reader, their texts to a writer. What is read and written has no
// contract.
#![tactic(auto)]

ghost use Rattle.std.specs.Prelude.{◌≤◌, length};

use std::io;
use std::io::{Read, Write};

// Fills the list as far as the input goes, and answers how far; a read that fails ends the input. std's `read_exact`
// fills it too, but does not say how far it came. A `while`, since a turn goes on by as much as the read gave. It is
// not conversion_run's, which says a failed read on the error stream.
fn fill<R: Read>(input: &mut R, list: &mut [u8]) -> usize
    ensures { result ≤ length list.old }
{
    let mut done = 0;
    while done < list.len() {
        match input.read(&mut list[done..]) {
            Ok(more) if more > 0 => done += more,
            _ => break,
        }
    }
    done
}

// Reads one record and writes its text. Whether there may be another: a record shorter than 72 bytes is the last.
fn one_record<R: Read, W: Write>(input: &mut R, output: &mut W) -> io::Result<bool> {
    let mut record = [0u8; 72];
    let got = fill(input, &mut record);
    output.write_all(bench::bench_text(&record[..got]).bytes())?;
    Ok(got == 72)
}

// A proved loop has to end, and nothing says that the input does. So the turns are counted, up to a number that no run
// reaches. A write that fails ends the run, and is not said.
pub fn run<R: Read, W: Write>(input: &mut R, output: &mut W) {
    for _ in 0..u64::MAX {
        if !one_record(input, output).unwrap_or(false) {
            break;
        }
    }
}
