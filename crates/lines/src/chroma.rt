// 8.7.2.5.8: the filter of a chroma line.
ghost use Rattle.std.specs.Prelude.{◌≡◌};
ghost use Rattle.lines.specs.Chroma.{chroma_line};

use crate::ChromaLine;
use crate::delta::{clip_delta, moved};

// One chroma line; `largest` is the depth's largest sample.
#[tactic(auto, using(crate::proofs::Filtered::chroma_made))]
pub fn chroma_line(largest: u16, tc: u16, l: ChromaLine) -> ChromaLine
    ensures { result ≡ chroma_line largest tc l }
{
    let d0 = (4 * (l.q0 as u32) + (l.p1 as u32) + 524292 - (4 * (l.p0 as u32) + (l.q1 as u32)))
        >> 3;
    let d = clip_delta(tc, d0);
    ChromaLine {
        p1: l.p1,
        p0: moved(largest, l.p0, d),
        q0: moved(largest, l.q0, 131072 - d),
        q1: l.q1,
    }
}
