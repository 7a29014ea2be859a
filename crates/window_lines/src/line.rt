// Lines of eight samples, `step` apart, read and written sample by sample: a line's fields are no list, so that a loop
// over them would be no plainer.
ghost use Rattle.std.specs.Prelude.{◌≡◌, ◌+◌, ◌*◌, ◌<◌, length};
ghost use Rattle.filter.specs.Kernel.{samples_of};
ghost use Rattle.planes.specs.Window.{Put, window_at};
ghost use Rattle.window_lines.specs.Line.{line_at, lines_of};

use crate::Lines;
use lines::Line;

pub fn take_line(s: &[u16], at: usize, step: usize) -> Line
    requires { at + 7 * step < length s.now }
    ensures { result ≡ line_at s.now at step }
{
    Line {
        p3: s[at],
        p2: s[at + step],
        p1: s[at + 2 * step],
        p0: s[at + 3 * step],
        q0: s[at + 4 * step],
        q1: s[at + 5 * step],
        q2: s[at + 6 * step],
        q3: s[at + 7 * step],
    }
}

pub fn put_line(s: &mut [u16], at: usize, step: usize, l: Line)
    requires { (at + 7 * step < length s.old) × (0 < step) }
    ensures { Put 8 at step (samples_of l) s.old s.new }
{
    s[at] = l.p3;
    s[at + step] = l.p2;
    s[at + 2 * step] = l.p1;
    s[at + 3 * step] = l.p0;
    s[at + 4 * step] = l.q0;
    s[at + 5 * step] = l.q1;
    s[at + 6 * step] = l.q2;
    s[at + 7 * step] = l.q3;
}

// The four lines of a window.
pub fn take_lines(s: &[u16], base: usize, across: usize, along: usize) -> Lines
    requires { base + 3 * along + 7 * across < length s.now }
    ensures { result ≡ lines_of (window_at s.now base across along) }
{
    Lines {
        l0: take_line(s, base, across),
        l1: take_line(s, base + along, across),
        l2: take_line(s, base + 2 * along, across),
        l3: take_line(s, base + 3 * along, across),
    }
}
