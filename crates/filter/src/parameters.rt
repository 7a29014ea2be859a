// How a segment whose gate is open is filtered, by its two cells and Q's slice.
ghost use Rattle.std.specs.Prelude.{◌≡◌, ◌≤◌};
ghost use Rattle.ints.specs.Int.{◌⊖◌};
ghost use Rattle.filter.specs.Answer.{SegmentInRange, Sound, chroma_of, luma_of};
ghost use Rattle.filter.specs.Segment.{chroma_filter, luma_filter};
ghost use Rattle.thresholds.specs.LumaTable.{TcTable};

use crate::{ChromaFilter, Component, LumaFilter};
use picture::{Cell, Slice};
use thresholds::{average_qp, chroma_tc, luma_beta, luma_tc};

pub fn luma_filter(tcs: &[u8; 1352], k: Component, p: Cell, q: Cell, s: Slice, bs: u8) -> LumaFilter
    requires sound { Sound k }
    requires tc_table { TcTable tcs.now }
    requires in_range { (1 ≤ bs) × SegmentInRange p q s bs }
    ensures { luma_of result ≡ luma_filter k.depth p q s bs }
{
    let average = average_qp(p.qp, q.qp);
    LumaFilter {
        beta: luma_beta(k.depth, average, s.beta),
        tc: luma_tc(tcs, k.depth, average, bs, s.tc),
        largest: k.largest,
    }
}

// Of one chroma plane, by its own offset.
pub fn chroma_filter(k: Component, p: Cell, q: Cell, s: Slice) -> ChromaFilter
    requires { Sound k }
    ensures { chroma_of result ≡ chroma_filter k.format k.depth (k.offset ⊖ 12) p q s }
{
    let average = average_qp(p.qp, q.qp);
    ChromaFilter {
        tc: chroma_tc(k.format, k.depth, average, k.offset, s.tc),
        largest: k.largest,
    }
}
