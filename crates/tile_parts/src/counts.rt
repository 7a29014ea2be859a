// The count of samples that differ.
ghost use Rattle.std.specs.Prelude.{◌≡◌, ◌*◌, ◌^◌, ◌≤◌, length};
ghost use Rattle.filter.specs.Count.{differing};
ghost use Rattle.picture.specs.Plane.{at};
ghost use Rattle.tile_parts.specs.Parts.{part_of, Room, row_differences};

use crate::Part;

// Of two rows of one length. By number: the compiler makes no vector instructions of a `zip` that is filtered and
// counted, which took half as long again and more.
#[tactic(auto, unfolding(crate::specs::Parts::row_differences))]
fn differing_row(cut: &[u16], out: &[u16]) -> usize
    requires { length out.now ≡ length cut.now }
    ensures { result ≡ row_differences cut.now out.now }
{
    let mut n = 0;
    for x in 0..cut.len() {
        n += usize::from(cut[x] != out[x]);
    }
    n
}

// Of one plane: `cut` has the part's columns and rows, and `out` has rows of `stride` samples in which the part lies.
pub fn differing_plane(cut: &[u16], out: &[u16], stride: usize, part: Part) -> usize
    requires room { Room (part_of part) stride out.now }
    requires cut_len { length cut.now ≡ part.width * part.height }
    ensures value { result ≡ differing (at cut.now part.width) (at out.now stride) (part_of part) }
    ensures upper_bound { result ≤ 2 ^ 32 }
{
    let count = part.width;
    let mut n = 0;
    for y in 0..part.height {
        let own = y * count;
        let start = (part.y + y) * stride + part.x;
        n += differing_row(&cut[own..own + count], &out[start..start + count]);
    }
    n
}
