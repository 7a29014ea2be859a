// Four lines side by side, written row by row, four neighbours at a time: a form that the compiler can turn into vector
// instructions.
ghost use Rattle.std.specs.Prelude.{[], ◌∷◌, ◌+◌, ◌*◌, ◌<◌, length};
ghost use Rattle.planes.specs.Window.{Filtered, Put, Strides};
ghost use Rattle.window_lines.specs.Line.{laid};

use crate::Lines;

// Tried: an array of four and `copy_from_slice`. The lines were filtered one by one then, at 5.4 ns a sample, not 3.0.
pub fn put_row(s: &mut [u16], at: usize, a: u16, b: u16, c: u16, d: u16)
    requires { at + 3 < length s.old }
    ensures { Put 4 at 1 (a ∷ b ∷ c ∷ d ∷ []) s.old s.new }
{
    s[at] = a;
    s[at + 1] = b;
    s[at + 2] = c;
    s[at + 3] = d;
}

pub fn put_rows(s: &mut [u16], base: usize, across: usize, w: Lines)
    requires across_in_bounds { base + 3 + 7 * across < length s.old }
    requires strides { Strides across 1 }
    ensures { Filtered 4 (laid w) base across 1 s.old s.new }
{
    let a = w.l0;
    let b = w.l1;
    let c = w.l2;
    let d = w.l3;
    put_row(s, base, a.p3, b.p3, c.p3, d.p3);
    put_row(s, base + across, a.p2, b.p2, c.p2, d.p2);
    put_row(s, base + 2 * across, a.p1, b.p1, c.p1, d.p1);
    put_row(s, base + 3 * across, a.p0, b.p0, c.p0, d.p0);
    put_row(s, base + 4 * across, a.q0, b.q0, c.q0, d.q0);
    put_row(s, base + 5 * across, a.q1, b.q1, c.q1, d.q1);
    put_row(s, base + 6 * across, a.q2, b.q2, c.q2, d.q2);
    put_row(s, base + 7 * across, a.q3, b.q3, c.q3, d.q3);
}
