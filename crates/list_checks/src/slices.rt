// Cause 7 of the ledger: the slice records.
ghost use Rattle.std.specs.Prelude.{◌+◌, ◌*◌, ◌≤◌, ◌≡◌, length};
ghost use Rattle.picture.specs.Causes.{bad_slice, cause7};
ghost use Rattle.picture.specs.Ledger.{any_of, first_place};
ghost use Rattle.picture.specs.Slice.{slice_byte, slice_count};

// How many records a list stands for.
pub fn slice_count(slices: &[u8]) -> usize
    ensures { result ≡ slice_count slices.now }
{
    if slices.len() == 0 {
        return 1;
    }
    slices.len() / 4
}

// Slice record n is out of range.
fn bad_slice_at(slices: &[u8], n: usize) -> bool
    requires { 4 * n + 4 ≤ length slices.now }
    ensures { result ≡ any_of (bad_slice (slice_byte slices.now n)) }
{
    let at = 4 * n;
    (1 < slices[at]) | (12 < slices[at + 1]) | (12 < slices[at + 2]) | (1 < slices[at + 3])
}

// 7. The first slice record out of range.
pub fn first_bad_slice(slices: &[u8]) -> Option<usize>
    ensures { result ≡ first_place (cause7 slices.now) }
{
    (0..slices.len() / 4).find(|n| bad_slice_at(slices, *n))
}
