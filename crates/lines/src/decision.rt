// 8.7.2.5.3 and 8.7.2.5.6: how a luma segment is filtered.
ghost use Rattle.std.specs.Prelude.{◌≡◌, ◌+◌, ◌*◌, ◌<◌};
ghost use Rattle.ints.specs.Sample.{distance};
ghost use Rattle.lines.specs.Answer.{answer_of};
ghost use Rattle.lines.specs.Code.{d_sam_n};
ghost use Rattle.lines.specs.Decision.{decision};

use crate::counts::with_counts;
use crate::{Line, LumaAnswer, LumaDecision};

// |x2 - 2 x1 + x0|
fn side_activity(x2: u16, x1: u16, x0: u16) -> u32
    ensures value { result ≡ distance (x2 + x0) (2 * x1) }
    ensures upper_bound { result < 131072 }
{
    ints::abs_diff((x2 as u32) + (x0 as u32), 2 * (x1 as u32))
}

// Whether one line is flat enough on both sides and across.
fn d_sam(beta: u32, tc: u16, dpq: u32, l: Line) -> bool
    ensures { result ≡ d_sam_n beta tc dpq l.p3 l.p0 l.q0 l.q3 }
{
    let ends = ints::abs_diff(l.p3 as u32, l.p0 as u32) + ints::abs_diff(l.q0 as u32, l.q3 as u32);
    let step = ints::abs_diff(l.p0 as u32, l.q0 as u32);
    dpq < beta >> 2 && ends < beta >> 3 && step < (5 * (tc as u32) + 1) >> 1
}

// 8.7.2.5.3, in its order and by its names: the decision for a segment by its lines 0 and 3; it holds for all four.
pub fn luma_decision(beta: u16, tc: u16, l0: Line, l3: Line) -> LumaAnswer
    ensures { result ≡ answer_of (decision beta tc l0 l3) }
{
    let beta = beta as u32;
    let dp0 = side_activity(l0.p2, l0.p1, l0.p0);
    let dp3 = side_activity(l3.p2, l3.p1, l3.p0);
    let dq0 = side_activity(l0.q2, l0.q1, l0.q0);
    let dq3 = side_activity(l3.q2, l3.q1, l3.q0);
    let dpq0 = dp0 + dq0;
    let dpq3 = dp3 + dq3;
    let dp = dp0 + dp3;
    let dq = dq0 + dq3;
    let d = dpq0 + dpq3;
    // dE is 0
    if d >= beta {
        return with_counts(LumaDecision::Skip);
    }
    let d_sam0 = d_sam(beta, tc, 2 * dpq0, l0);
    // where dSam0 is 0, dSam3 decides nothing
    let d_sam3 = d_sam0 && d_sam(beta, tc, 2 * dpq3, l3);
    // dE is 2, whose filter reads no side flag
    if d_sam3 {
        return with_counts(LumaDecision::Strong);
    }
    // dE is 1
    let d_ep = dp < (beta + (beta >> 1)) >> 3;
    let d_eq = dq < (beta + (beta >> 1)) >> 3;
    with_counts(LumaDecision::Weak {
        do_p1: d_ep,
        do_q1: d_eq,
    })
}
