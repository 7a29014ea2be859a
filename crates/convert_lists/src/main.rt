// The loop of convert_cells on many lists, each behind its length (two bytes, low first), in one run. Out come the
// lengths, each with its converted list.
#![tactic(auto)]

use std::io;
use std::io::{Read, Write};

// The next list; whether there may be another.
fn one_list<R: Read, W: Write, E: Write>(
    input: &mut R,
    output: &mut W,
    errors: &mut E,
) -> io::Result<bool> {
    let mut head = [0u8; 2];
    input.read_exact(&mut head)?;
    output.write_all(&head)?;
    conversion_run::convert_input(input, output, errors, u16::from_le_bytes(head) as u64)
}

// A proved loop has to end, and nothing says that the input does. So the turns are counted, up to a number that no run
// reaches. What goes wrong in a list's bytes has been said.
fn main(rt: HostRuntime) {
    for _ in 0..u64::MAX {
        let next = one_list(&mut rt.stdin(), &mut rt.stdout(), &mut rt.stderr());
        if !next.unwrap_or(false) {
            break;
        }
    }
}
