// A plane as one number: FNV-1a of 64 bits, a sample in place of a byte. The samples are read through the plane's
// view.
#![tactic(auto)]

ghost use Rattle.std.specs.Prelude.{◌≡◌, ◌<◌};
ghost use Rattle.fingerprint.specs.Fnv.{step, with_samples, row_shown};
ghost use Rattle.fingerprint.specs.Fnv.{list_fingerprint, plane_fingerprint};

use plane_view::{PlaneView, plane_view};

pub const BASIS: u64 = 14695981039346656037;

// 2^40 + 435
const PRIME: u64 = 1099511628211;

// With one more number in place of a byte.
pub fn with_word(before: u64, word: u32) -> u64
    ensures { result ≡ step before word }
{
    (before ^ (word as u64)).wrapping_mul(PRIME)
}

// With the samples of row y.
fn with_row(before: u64, plane: PlaneView<'_>, y: usize) -> u64
    requires { y < plane.height }
    ensures { result ≡ with_samples before (row_shown plane.entry.samples.now plane.entry.width plane.entry.height y) }
{
    let mut sum = before;
    for x in 0..plane.width() {
        if let Some(sample) = plane.sample_at(x, y) {
            sum = with_word(sum, sample as u32);
        }
    }
    sum
}

// Of a plane of this size, row by row. Samples that are no plane of it show none, and have the basis.
pub fn plane_fingerprint(plane: &[u16], width: usize, height: usize) -> u64
    ensures { result ≡ plane_fingerprint plane.now width height }
{
    let view = plane_view(plane, width, height);
    let mut sum = BASIS;
    for y in 0..view.height() {
        sum = with_row(sum, view, y);
    }
    sum
}

// Of all samples of a list, of whatever length: one row.
pub fn fingerprint(list: &[u16]) -> u64
    ensures { result ≡ list_fingerprint list.now }
{
    plane_fingerprint(list, list.len(), 1)
}
