// 8.7.2.5.7 with dE 2: the strong filter of a luma line.
ghost use Rattle.std.specs.Prelude.{◌≡◌, ◌+◌, ◌*◌, ◌/◌, ◌<◌};
ghost use Rattle.lines.specs.Code.{near_n};
ghost use Rattle.lines.specs.Luma.{strong_line};

use crate::Line;

// Clip3(x - 2 tc, x + 2 tc, v), of 16 bits: what 2 tc is past them makes no difference. Each limit is one choice of two
// numbers, which takes no jump, so that four lines side by side can be filtered as one.
fn clip_near(tc: u16, x: u16, v: u32) -> u16
    requires { v < 65536 }
    ensures { result ≡ near_n tc x v }
{
    let d = tc.saturating_add(tc);
    // in this nesting, which the compiler makes saturating instructions of, on eight samples at once
    x.saturating_sub(d).max(x.saturating_add(d).min(v as u16))
}

// The first, second and third sample of a side: a mean of the samples around it, held near the sample x that it
// replaces.
fn strong0(tc: u16, x: u16, a: u16, b: u16, c: u16, d: u16, e: u16) -> u16
    ensures { result ≡ near_n tc x ((a + 2 * b + 2 * c + 2 * d + e + 4) / 8) }
{
    clip_near(
        tc,
        x,
        ((a as u32) + 2 * (b as u32) + 2 * (c as u32) + 2 * (d as u32) + (e as u32) + 4) >> 3,
    )
}

fn strong1(tc: u16, x: u16, a: u16, b: u16, c: u16, d: u16) -> u16
    ensures { result ≡ near_n tc x ((a + b + c + d + 2) / 4) }
{
    clip_near(
        tc,
        x,
        ((a as u32) + (b as u32) + (c as u32) + (d as u32) + 2) >> 2,
    )
}

fn strong2(tc: u16, x: u16, a: u16, b: u16, c: u16, d: u16, e: u16) -> u16
    ensures { result ≡ near_n tc x ((2 * a + 3 * b + c + d + e + 4) / 8) }
{
    clip_near(
        tc,
        x,
        (2 * (a as u32) + 3 * (b as u32) + (c as u32) + (d as u32) + (e as u32) + 4) >> 3,
    )
}

#[tactic(auto, using(crate::proofs::Filtered::strong_made))]
pub fn strong_line(tc: u16, l: Line) -> Line
    ensures { result ≡ strong_line tc l }
{
    Line {
        p3: l.p3,
        p2: strong2(tc, l.p2, l.p3, l.p2, l.p1, l.p0, l.q0),
        p1: strong1(tc, l.p1, l.p2, l.p1, l.p0, l.q0),
        p0: strong0(tc, l.p0, l.p2, l.p1, l.p0, l.q0, l.q1),
        q0: strong0(tc, l.q0, l.p1, l.p0, l.q0, l.q1, l.q2),
        q1: strong1(tc, l.q1, l.p0, l.q0, l.q1, l.q2),
        q2: strong2(tc, l.q2, l.q3, l.q2, l.q1, l.q0, l.p0),
        q3: l.q3,
    }
}
