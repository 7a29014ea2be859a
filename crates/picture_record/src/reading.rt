// The lists of a record, from its reader.
ghost use Rattle.std.specs.Prelude.{OnOk};
ghost use Rattle.std.specs.Io.KnownBytes.{Consumes};
ghost use Rattle.picture_record.specs.Reading.{ConsumesNumbers};

use crate::Stop;
use crate::numbers::unpack;
use std::io::Read;

// Fills the list. An input that ends before, or fails, is too short.
pub fn read_bytes<R: Read>(input: &mut R, out: &mut [u8]) -> Result<(), Stop>
    ensures { OnOk result (Consumes (R.remaining input.old) (R.remaining input.new) out.new) }
{
    match input.read_exact(out) {
        Ok(()) => Ok(()),
        Err(_) => Err(Stop::Short),
    }
}

// Fills the list by way of the bytes.
fn read_by<R: Read>(input: &mut R, bytes: &mut [u8], out: &mut [u16]) -> Result<(), Stop>
    ensures { OnOk result (ConsumesNumbers (R.remaining input.old) (R.remaining input.new) out.new) }
{
    if bytes.len() / 2 < out.len() {
        return Err(Stop::Short);
    }
    let n = 2 * out.len();
    let bytes = &mut bytes[..n];
    read_bytes(input, bytes)?;
    unpack(bytes, out);
    Ok(())
}

// At most 40,000 numbers.
pub fn read_numbers<R: Read>(input: &mut R, out: &mut [u16]) -> Result<(), Stop>
    ensures { OnOk result (ConsumesNumbers (R.remaining input.old) (R.remaining input.new) out.new) }
{
    let mut bytes = [0u8; 80000];
    read_by(input, &mut bytes, out)
}
