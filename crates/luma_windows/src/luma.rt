// The luma filter on a window, which answers the decision that it took and its counts. The decision is made once, from
// lines 0 and 3, before anything is written, and holds for all four lines.
ghost use Rattle.std.specs.Prelude.{◌≡◌, ◌+◌, ◌*◌, ◌<◌, length};
ghost use Rattle.filter.specs.Answer.{luma_of};
ghost use Rattle.filter.specs.Kernel.{kernel};
ghost use Rattle.planes.specs.Window.{Filtered, Strides, window_at};
ghost use Rattle.luma_windows.specs.Decided.{answer_at, decision_at};

use crate::rows::filter_rows;
use crate::turned::filter_turned;
use filter::LumaFilter;
use lines::{LumaAnswer, LumaDecision, luma_decision, with_counts};
use window_lines::take_line;

// The decision alone. Its counts are added where it is answered: a pass does not ask for them, and the compiler sees
// that there, so that they cost it nothing.
fn decide(s: &[u16], base: usize, across: usize, along: usize, t: LumaFilter) -> LumaDecision
    requires { base + 3 * along + 7 * across < length s.now }
    ensures { result ≡ decision_at t (window_at s.now base across along) }
{
    let l0 = take_line(s, base, across);
    let l3 = take_line(s, base + 3 * along, across);
    let answer = luma_decision(t.beta, t.tc, l0, l3);
    answer.decision
}

// At a horizontal edge; `across` is the stride across it.
pub fn horizontal_luma(s: &mut [u16], base: usize, across: usize, t: LumaFilter) -> LumaAnswer
    requires across_in_bounds { base + 3 + 7 * across < length s.old }
    requires strides { Strides across 1 }
    ensures filtered { Filtered 4 (kernel (luma_of t)) base across 1 s.old s.new }
    ensures value { result ≡ answer_at t (window_at s.old base across 1) }
{
    let d = decide(s, base, across, 1, t);
    filter_rows(s, base, across, d, t);
    with_counts(d)
}

// At a vertical edge; `along` is the stride along it. Lines that are left alone are not turned.
pub fn vertical_luma(s: &mut [u16], base: usize, along: usize, t: LumaFilter) -> LumaAnswer
    requires along_in_bounds { base + 3 * along + 7 < length s.old }
    requires strides { Strides 1 along }
    ensures filtered { Filtered 4 (kernel (luma_of t)) base 1 along s.old s.new }
    ensures value { result ≡ answer_at t (window_at s.old base 1 along) }
{
    let d = decide(s, base, 1, along, t);
    if let LumaDecision::Skip = d {
        return with_counts(d);
    }
    filter_turned(s, base, along, d, t);
    with_counts(d)
}
