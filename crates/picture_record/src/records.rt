// One record after another.
ghost use Rattle.std.specs.Prelude.{IfOk, OnOk};
ghost use Rattle.std.specs.Io.KnownBytes.{Consumes};

use crate::Stop;
use crate::reading::read_bytes;
use std::io::{Read, Write};

// The first N bytes of the next record. Without a byte the input has ended, and so it has where the read fails.
pub fn read_head<const N: usize, R: Read>(input: &mut R) -> Result<[u8; N], Stop>
    ensures { IfOk result (λ head. Consumes (R.remaining input.old) (R.remaining input.new) head) }
{
    let mut head = [0u8; N];
    read_first(input, &mut head)?;
    Ok(head)
}

fn read_first<R: Read>(input: &mut R, head: &mut [u8]) -> Result<(), Stop>
    ensures { OnOk result (Consumes (R.remaining input.old) (R.remaining input.new) head.new) }
{
    let got = input.read(head).unwrap_or(0);
    if got == 0 {
        return Err(Stop::End);
    }
    read_bytes(input, &mut head[got..])
}

// A proved loop has to end, and nothing says that the input does. So the loop counts its turns, to a number that no
// run reaches.
fn answer_all<R, W, F>(input: &mut R, output: &mut W, mut answer: F) -> Result<(), Stop>
where
    R: Read,
    W: Write,
    F: FnMut(&mut R, &mut W, u64) -> Result<(), Stop>,
    requires { F.IsAlwaysCallable answer }
{
    for number in 1..u64::MAX {
        answer(input, output, number)?;
    }
    Ok(())
}

// Reads and answers one record after another, each with its number from 1 on, until the first stop. A record that is
// at fault is told in a line. No `ensures`: what becomes of the streams is what each call of `answer` makes of them.
pub fn each_record<R, W, F>(input: &mut R, output: &mut W, answer: F)
where
    R: Read,
    W: Write,
    F: FnMut(&mut R, &mut W, u64) -> Result<(), Stop>,
    requires { F.IsAlwaysCallable answer }
{
    match answer_all(input, output, answer) {
        Ok(()) | Err(Stop::End | Stop::Output) => {}
        Err(fault) => {
            let _ = writeln!(output, "{fault}");
        }
    }
}
