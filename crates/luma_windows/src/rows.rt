// Four lines side by side, as at a horizontal edge: all are read before any is written, so that the compiler can filter
// the four as one.
ghost use Rattle.std.specs.Prelude.{◌+◌, ◌*◌, ◌<◌, length};
ghost use Rattle.lines.specs.Answer.{values_of};
ghost use Rattle.luma_windows.specs.Decided.{decided_by};
ghost use Rattle.planes.specs.Window.{Filtered, Strides};

use filter::LumaFilter;
use lines::{Line, LumaDecision, strong_line, weak_line};
use window_lines::{Lines, put_rows, take_lines};

// The filter on each of the four lines.
fn each<F: Fn(Line) -> Line>(w: Lines, f: F) -> Lines
    requires { F.IsAlwaysCallable f }
    ensures { F.post f w.l0 result.l0 × F.post f w.l1 result.l1
        × F.post f w.l2 result.l2 × F.post f w.l3 result.l3 }
{
    Lines {
        l0: f(w.l0),
        l1: f(w.l1),
        l2: f(w.l2),
        l3: f(w.l3),
    }
}

// The four lines, each by the decision that is given.
pub(crate) fn filter_rows(s: &mut [u16], base: usize, across: usize, d: LumaDecision, t: LumaFilter)
    requires across_in_bounds { base + 3 + 7 * across < length s.old }
    requires strides { Strides across 1 }
    ensures { Filtered 4 (decided_by (values_of d) t) base across 1 s.old s.new }
{
    match d {
        LumaDecision::Skip => {}
        LumaDecision::Strong => {
            let w = take_lines(s, base, across, 1);
            put_rows(s, base, across, each(w, |l| strong_line(t.tc, l)));
        }
        LumaDecision::Weak { do_p1, do_q1 } => {
            let w = take_lines(s, base, across, 1);
            let v = each(w, |l| weak_line(t.largest, t.tc, do_p1, do_q1, l));
            put_rows(s, base, across, v);
        }
    }
}
