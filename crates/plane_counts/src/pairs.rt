// A record's numbers, and what is asked of them before its planes are read.
ghost use Rattle.std.specs.Prelude.{◌≡◌, ◌+◌, leb};
ghost use Rattle.plane_counts.specs.Pairs.{pair_in, small, inside};

use picture_record::{SAMPLES, word};
use tile_parts::Part;

// The first plane is compared with the part of the second, which has rows of `stride` samples.
#[derive(Clone, Copy)]
pub(crate) struct Pair {
    pub part: Part,
    pub stride: usize,
    pub rows: usize,
}

pub(crate) fn pair_in(head: &[u8; 24]) -> Pair
    ensures { result ≡ pair_in head.now }
{
    Pair {
        part: Part {
            x: word(head, 2) as usize,
            y: word(head, 3) as usize,
            width: word(head, 0) as usize,
            height: word(head, 1) as usize,
        },
        stride: word(head, 4) as usize,
        rows: word(head, 5) as usize,
    }
}

// Whether the program's lists hold the planes.
#[tactic(auto, unfolding(crate::specs::Pairs::small))]
pub(crate) fn is_small(pair: Pair) -> bool
    ensures { result ≡ small pair }
{
    pair.stride <= SAMPLES && pair.rows <= SAMPLES && pair.stride * pair.rows <= SAMPLES
}

// Whether the columns or rows from `first` on, so many, are among `all`.
fn lies_in(first: usize, count: usize, all: usize) -> bool
    ensures { result ≡ leb (count + first) all }
{
    first <= all && count <= all - first
}

#[tactic(auto, unfolding(crate::specs::Pairs::inside))]
pub(crate) fn is_inside(pair: Pair) -> bool
    ensures { result ≡ inside pair }
{
    let part = pair.part;
    lies_in(part.x, part.width, pair.stride) & lies_in(part.y, part.height, pair.rows)
}
