// The picture checksum of one plane: a u32 that starts at 0 and wraps, to which each sample's masked bytes are added.
// Rows are walked in memory order, twice where the high parts join: a row stays in the cache.
ghost use Rattle.std.specs.Prelude.{◌≡◌, ℕ, Bool, ◌+◌, ◌*◌, ◌%◌, ◌^◌, ◌<◌, ◌≤◌, length, bit_xor};
ghost use Rattle.picture.specs.Plane.{at};
ghost use Rattle.checksum.specs.Checksum.{checksum};
ghost use Rattle.checksum.specs.Rows.{fold, part, parts_sum, row_sum};

// What a column, or a row, brings to the mask: its low byte xor what stands above that.
fn folded(n: u32) -> u32
    ensures { result ≡ fold n }
{
    (n % 256) ^ (n / 256)
}

// With one byte, masked.
fn with_byte(before: u32, byte: u32, mask: u32) -> u32
    ensures { result ≡ (before + bit_xor byte mask) % 2 ^ 32 }
{
    before.wrapping_add(byte ^ mask)
}

// With the part that `part_of` gives, low byte or high part, of each of the samples from `start` on, which are a row's;
// the row brings `row` to their masks.
fn with_parts<F: Fn(u16) -> u32>(
    before: u32,
    plane: &[u16],
    start: usize,
    width: u32,
    row: u32,
    part_of: F,
) -> u32
    requires callable { F.IsAlwaysCallable part_of }
    requires row_len { start + width ≤ length plane.now }
    ensures { (high : Bool) → ((s r : ℕ) → s < 2 ^ 16 → F.post part_of s r → r ≡ part high s)
        → result ≡ (before + parts_sum high plane.now start width row) % 2 ^ 32 }
{
    let mut sum = before;
    for x in 0..width {
        let byte = part_of(plane[start + x as usize]);
        sum = with_byte(sum, byte, folded(x) ^ row);
    }
    sum
}

// With row y. Above depth 8 the samples have a high part.
fn with_row(before: u32, plane: &[u16], width: u32, y: u32, depth: u32) -> u32
    requires { y * width + width ≤ length plane.now }
    ensures { result ≡ (before + row_sum depth (at plane.now width) width y) % 2 ^ 32 }
{
    let start = y as usize * width as usize;
    let row = folded(y);
    let low = with_parts(
        before,
        plane,
        start,
        width,
        row,
        |sample| sample as u32 % 256,
    );
    if depth <= 8 {
        return low;
    }
    with_parts(low, plane, start, width, row, |sample| sample as u32 / 256)
}

// Of a plane of this size and depth.
pub(crate) fn plane_checksum(plane: &[u16], width: u32, height: u32, depth: u32) -> u32
    requires { length plane.now ≡ width * height }
    ensures { result ≡ checksum depth width height (at plane.now width) }
{
    let mut sum = 0;
    for y in 0..height {
        sum = with_row(sum, plane, width, y, depth);
    }
    sum
}
