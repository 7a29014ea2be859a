// What Q's slice and the cells' flags allow.
ghost use Rattle.std.specs.Prelude.{◌≡◌, ◌<◌};
ghost use Rattle.filter.specs.Answer.{slice_gate};
ghost use Rattle.picture.specs.Cell.{suppressed};
ghost use Rattle.picture.specs.Slice.{slice_count};

use picture::{Cell, Slice, slice_at};

// Q's slice, whose offsets a segment is filtered by, where the slices let it be filtered: Q's must not be disabled, and
// must filter across unless P lies in it too.
pub fn slice_gate(slices: &[u8], p: Cell, q: Cell) -> Option<Slice>
    requires { q.slice < slice_count slices.now }
    ensures { result ≡ slice_gate slices.now p q }
{
    let s = slice_at(slices, q.slice as usize);
    let open = (s.across | (p.slice == q.slice)) & !s.disabled;
    open.then_some(s)
}

// sample_suppressed of the Rust, and palette cells, which it has not: a lossless cell, a PCM one with the switch on or
// a palette one keeps its original samples, in luma and in chroma. Its edges stay open.
pub fn is_suppressed(pcm: bool, c: Cell) -> bool
    ensures { result ≡ suppressed pcm c }
{
    (c.flags / 4 % 2 == 1) | ((c.flags / 8 % 2 == 1) & pcm) | (c.flags / 16 % 2 == 1)
}
