// Strengths above 0 need their edge flag. Here those that have none are zeroed.
ghost use Rattle.std.specs.Prelude.{◌+◌, ◌*◌, ◌≤◌, cond, ◌≡◌, eqb, length};
ghost use Rattle.conversion.specs.Converted.{converted, converted_into};
ghost use Rattle.conversion.specs.Steps.{record_converted};

// A strength as it may stay.
fn kept(edge: bool, bs: u8) -> u8
    ensures { result ≡ cond edge bs 0 }
{
    if edge { bs } else { 0 }
}

// Record n in place.
fn convert_record(cells: &mut [u8], n: usize)
    requires { 8 * n + 8 ≤ length cells.old }
    ensures { cells.new ≡ record_converted cells.old n }
{
    let at = 8 * n;
    let flags = cells[at + 1];
    let vertical = kept(flags % 2 == 1, cells[at + 2]);
    let horizontal = kept(flags / 2 % 2 == 1, cells[at + 3]);
    cells[at + 2] = vertical;
    cells[at + 3] = horizontal;
}

// All whole records in place. They go by number: once `chunks_exact_mut` is over, a proof knows the list's length and
// no more.
fn convert_records(cells: &mut [u8])
    ensures { cells.new ≡ converted cells.old }
{
    for n in 0..cells.len() / 8 {
        convert_record(cells, n);
    }
}

// The list converted into another of the same length. Where the lengths differ the answer is false, and nothing is
// written. A Result would be no plainer: that refusal has neither kind nor place, and no caller passes it on.
pub fn convert_cells(cells: &[u8], out: &mut [u8]) -> bool
    ensures value { result ≡ eqb (length cells.now) (length out.old) }
    ensures written { out.new ≡ converted_into cells.now out.old }
{
    if cells.len() != out.len() {
        return false;
    }
    out.copy_from_slice(cells);
    convert_records(out);
    true
}
