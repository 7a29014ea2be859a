// Four lines of neighbouring samples, one below the other, as at a vertical edge: turned into lines side by side in a
// small array, filtered there and turned back.
ghost use Rattle.std.specs.Prelude.{◌+◌, ◌*◌, ◌<◌, length};
ghost use Rattle.lines.specs.Answer.{values_of};
ghost use Rattle.planes.specs.Window.{Filtered, Strides, window_at};
ghost use Rattle.luma_windows.specs.Decided.{Turned, decided_by, shown};

use crate::rows::filter_rows;
use filter::LumaFilter;
use lines::LumaDecision;
use window_lines::{put_line, put_rows, take_line, take_lines};

fn turn(s: &[u16], base: usize, along: usize, t: &mut [u16; 32])
    requires { base + 3 * along + 7 < length s.now }
    ensures { Turned (window_at s.now base 1 along) t.new }
{
    put_rows(&mut t[..], 0, 4, take_lines(s, base, 1, along));
}

fn turn_back(s: &mut [u16], base: usize, along: usize, t: &[u16; 32])
    requires along_in_bounds { base + 3 * along + 7 < length s.old }
    requires strides { Strides 1 along }
    ensures { Filtered 4 (shown t.now) base 1 along s.old s.new }
{
    for j in 0..4 {
        put_line(s, base + j * along, 1, take_line(&t[..], j, 4));
    }
}

// The four lines, each by the decision that is given.
pub(crate) fn filter_turned(
    s: &mut [u16],
    base: usize,
    along: usize,
    d: LumaDecision,
    f: LumaFilter,
)
    requires along_in_bounds { base + 3 * along + 7 < length s.old }
    requires strides { Strides 1 along }
    ensures { Filtered 4 (decided_by (values_of d) f) base 1 along s.old s.new }
{
    let mut t = [0u16; 32];
    turn(s, base, along, &mut t);
    filter_rows(&mut t[..], 0, 4, d, f);
    turn_back(s, base, along, &t);
}
