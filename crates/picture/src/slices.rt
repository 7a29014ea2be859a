// Slice records, 4 bytes each.
ghost use Rattle.std.specs.Prelude.{◌≡◌, ◌+◌, ◌*◌, ◌≤◌, ◌<◌, length};
ghost use Rattle.picture.specs.Slice.{slice_at, slice_count};

use crate::Slice;

// The record that an empty list stands for: 0, 6, 5, 1.
const DEFAULT: Slice = Slice {
    disabled: false,
    beta: 6,
    tc: 5,
    across: true,
};

// Slice record n of a list whose length is a multiple of 4.
#[tactic(auto, using(crate::proofs::Records::slice_default, crate::proofs::Records::slice_made))]
pub fn slice_at(slices: &[u8], n: usize) -> Slice
    requires { n < slice_count slices.now }
    ensures { result ≡ slice_at slices.now n }
{
    if slices.is_empty() {
        return DEFAULT;
    }
    let at = 4 * n;
    Slice {
        disabled: slices[at] == 1,
        beta: slices[at + 1],
        tc: slices[at + 2],
        across: slices[at + 3] == 1,
    }
}
