// 8.7.2.5.7 with dE 1: the weak filter of a luma line.
ghost use Rattle.std.specs.Prelude.{◌≡◌, ◌≤◌};
ghost use Rattle.lines.specs.Code.{weak_delta_n, second_n};
ghost use Rattle.lines.specs.Luma.{weak_line};

use crate::Line;
use crate::delta::{clip_delta, moved};

// The step before it is clipped.
fn weak_delta(p1: u16, p0: u16, q0: u16, q1: u16) -> u32
    ensures { result ≡ weak_delta_n p1 p0 q0 q1 }
{
    (9 * (q0 as u32) + 3 * (p1 as u32) + 1048584 - (9 * (p0 as u32) + 3 * (q1 as u32))) >> 4
}

// The second sample of a side, which moves where `on` says so. It is made in either case: a choice of two samples
// takes no jump, so that four lines side by side can be filtered as one.
fn second_sample(on: bool, largest: u16, half: u16, x2: u16, x1: u16, x0: u16, d: u32) -> u16
    requires { d ≤ 131072 }
    ensures { result ≡ second_n on largest half x2 x1 x0 d }
{
    let mean = ((x2 as u32) + (x0 as u32) + 1) >> 1;
    let e = clip_delta(half, (mean + d + 65536 - (x1 as u32)) >> 1);
    let made = moved(largest, x1, e);
    if on { made } else { x1 }
}

// One line. The moved line is made before the step's size is known, for the same reason.
#[tactic(auto, using(crate::proofs::Filtered::weak_made, crate::proofs::Filtered::weak_kept))]
pub fn weak_line(largest: u16, tc: u16, p: bool, q: bool, l: Line) -> Line
    ensures { result ≡ weak_line largest tc p q l }
{
    let d0 = weak_delta(l.p1, l.p0, l.q0, l.q1);
    let d = clip_delta(tc, d0);
    let e = 131072 - d;
    let half = tc >> 1;
    let made = Line {
        p3: l.p3,
        p2: l.p2,
        p1: second_sample(p, largest, half, l.p2, l.p1, l.p0, d),
        p0: moved(largest, l.p0, d),
        q0: moved(largest, l.q0, e),
        q1: second_sample(q, largest, half, l.q2, l.q1, l.q0, e),
        q2: l.q2,
        q3: l.q3,
    };
    if ints::abs_diff(d0, 65536) < (tc as u32) * 10 {
        made
    } else {
        l
    }
}
