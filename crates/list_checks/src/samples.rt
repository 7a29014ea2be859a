// Cause 10 of the ledger: the original samples.
ghost use Rattle.std.specs.Int.Bits.{bit_or};
ghost use Rattle.std.specs.Prelude.{◌≤◌, ◌≡◌, fold};
ghost use Rattle.picture.specs.Causes.{cause10};
ghost use Rattle.picture.specs.Given.{of_planes};
ghost use Rattle.picture.specs.Ledger.{first_place};
ghost use Rattle.picture.specs.Lent.{planes_lent};
ghost use Rattle.list_checks.specs.Samples.{above};

use ints::largest_at;
use picture::{Planes, Settings};

// The bits of a block of samples.
fn block_bits(block: &[u16]) -> u16
    ensures { result ≡ fold bit_or 0 block.now }
{
    block.iter().fold(0, |bits, sample| bits | *sample)
}

// The first sample of a plane above the largest. Blocks of 256 samples are passed over by one test each: `largest` is
// all the bits of a depth, so the bits of a block are above it only where a sample is.
fn first_bad_sample(plane: &[u16], largest: u16) -> Option<usize>
    ensures { result ≡ first_place (above largest plane.now) }
{
    let blocks = plane.len() / 256;
    let passed = (0..blocks)
        .find(|n| largest < block_bits(&plane[256 * *n..256 * *n + 256]))
        .unwrap_or(blocks);
    // A loop and not `find`, which takes a third longer on the samples that are left.
    for k in 256 * passed..plane.len() {
        if largest < plane[k] {
            return Some(k);
        }
    }
    None
}

// 10. The first original sample above its largest, counted through Y, Cb, Cr.
pub fn first_bad_original(settings: Settings, planes: &Planes<'_>) -> Option<usize>
    requires { (settings.luma_depth ≤ 16) × (settings.chroma_depth ≤ 16) }
    ensures { result ≡ first_place (cause10 (of_planes settings (planes_lent planes.now))) }
{
    if let Some(k) = first_bad_sample(planes.y, largest_at(settings.luma_depth)) {
        return Some(k);
    }
    let largest = largest_at(settings.chroma_depth);
    if let Some(k) = first_bad_sample(planes.cb, largest) {
        return Some(planes.y.len() + k);
    }
    let k = first_bad_sample(planes.cr, largest)?;
    Some(planes.y.len() + (planes.cb.len() + k))
}
