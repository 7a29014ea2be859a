// The gate and the filter of a segment whose edge flag is set.
ghost use Rattle.std.specs.Prelude.{◌≡◌, cond, ◌≤◌, ◌<◌};
ghost use Rattle.filter.specs.Answer.{SegmentInRange};
ghost use Rattle.picture.specs.Slice.{slice_at, slice_count};
ghost use Rattle.segments.specs.Between.{between_for, filter_for, option_of, positive};

use crate::{PassInput, SegmentFilter, Sides};
use filter::{chroma_filter, luma_filter, slice_gate};
use picture::Slice;

// The least bS that is filtered: 1 in luma, 2 in chroma.
fn least_bs(luma: bool) -> u8
    ensures { result ≡ cond luma 1 2 }
{
    if luma { 1 } else { 2 }
}

// The filter of a segment whose gate is open. tc 0 leaves it alone. That P, Q and the slice are in range is asked here
// and below: no struct holds the three, since the slice is looked up once the gate has let the segment by.
fn open_filter(input: &PassInput<'_>, v: Sides, s: Slice, bs: u8) -> Option<SegmentFilter>
    requires in_range { (1 ≤ bs) × SegmentInRange v.p v.q s bs }
    ensures { option_of input.now.component.largest result
        ≡ positive (filter_for input.now.component v.p v.q s bs) }
{
    let k = input.component;
    if k.luma {
        let f = luma_filter(input.tcs, k, v.p, v.q, s, bs);
        (f.tc > 0).then_some(SegmentFilter::Luma {
            beta: f.beta,
            tc: f.tc,
        })
    } else {
        let f = chroma_filter(k, v.p, v.q, s);
        (f.tc > 0).then_some(SegmentFilter::Chroma { tc: f.tc })
    }
}

// `bs` is the Q cell's for the edge's direction.
pub(crate) fn segment_filter(input: &PassInput<'_>, v: Sides, bs: u8) -> Option<SegmentFilter>
    requires slice_bound { v.q.slice < slice_count input.now.slices.now }
    requires segment_in_range { SegmentInRange v.p v.q (slice_at input.now.slices.now v.q.slice) bs }
    ensures { option_of input.now.component.largest result
        ≡ between_for input.now.component input.now.slices.now v bs }
{
    if bs < least_bs(input.component.luma) || !v.same {
        return None;
    }
    let s = slice_gate(input.slices, v.p, v.q)?;
    open_filter(input, v, s, bs)
}
