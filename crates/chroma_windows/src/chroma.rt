// The chroma filter on a window. Of each line the two samples next to the edge are written.
ghost use Rattle.std.specs.Prelude.{◌≡◌, [], ◌∷◌, ◌+◌, ◌*◌, ◌<◌, length};
ghost use Rattle.filter.specs.Answer.{chroma_of};
ghost use Rattle.filter.specs.Kernel.{kernel};
ghost use Rattle.lines.specs.Chroma.{chroma_line};
ghost use Rattle.planes.specs.Window.{Filtered, Put, Strides};
ghost use Rattle.chroma_windows.specs.Line.{chroma_line_at};

use filter::ChromaFilter;
use lines::{ChromaLine, chroma_line};
use window_lines::put_row;

fn take_chroma(s: &[u16], at: usize, step: usize) -> ChromaLine
    requires { at + 3 * step < length s.now }
    ensures { result ≡ chroma_line_at s.now at step }
{
    ChromaLine {
        p1: s[at],
        p0: s[at + step],
        q0: s[at + 2 * step],
        q1: s[at + 3 * step],
    }
}

// The line from p1 at `at`, filtered.
fn filtered_chroma(s: &[u16], at: usize, step: usize, t: ChromaFilter) -> ChromaLine
    requires { at + 3 * step < length s.now }
    ensures { result ≡ chroma_line t.largest t.tc (chroma_line_at s.now at step) }
{
    chroma_line(t.largest, t.tc, take_chroma(s, at, step))
}

fn put_pair(s: &mut [u16], at: usize, p0: u16, q0: u16)
    requires { at + 1 < length s.old }
    ensures { Put 2 at 1 (p0 ∷ q0 ∷ []) s.old s.new }
{
    s[at] = p0;
    s[at + 1] = q0;
}

// At a horizontal edge: all four lines are read before any is written, so that the compiler can filter the four as
// one.
pub fn horizontal_chroma(s: &mut [u16], base: usize, across: usize, t: ChromaFilter)
    requires across_in_bounds { base + 3 + 7 * across < length s.old }
    requires strides { Strides across 1 }
    ensures { Filtered 4 (kernel (chroma_of t)) base across 1 s.old s.new }
{
    let at = base + 2 * across;
    let a = filtered_chroma(s, at, across, t);
    let b = filtered_chroma(s, at + 1, across, t);
    let c = filtered_chroma(s, at + 2, across, t);
    let d = filtered_chroma(s, at + 3, across, t);
    put_row(s, at + across, a.p0, b.p0, c.p0, d.p0);
    put_row(s, at + 2 * across, a.q0, b.q0, c.q0, d.q0);
}

// At a vertical edge: one line after the other.
pub fn vertical_chroma(s: &mut [u16], base: usize, along: usize, t: ChromaFilter)
    requires along_in_bounds { base + 3 * along + 7 < length s.old }
    requires strides { Strides 1 along }
    ensures { Filtered 4 (kernel (chroma_of t)) base 1 along s.old s.new }
{
    for j in 0..4 {
        let at = base + j * along + 2;
        let l = filtered_chroma(s, at, 1, t);
        put_pair(s, at + 1, l.p0, l.q0);
    }
}
