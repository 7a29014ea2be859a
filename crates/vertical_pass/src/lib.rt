// The pass over a component's vertical edges, in place: the strips of a band, the bands of a plane. It serves luma and
// chroma. It shares no body with the pass over horizontal edges (horizontal_pass), which would be no plainer: a band's
// first edge and end, the step from strip to strip and the rows lent to one are all others there.
#![tactic(auto)]

ghost use Rattle.std.specs.Prelude.{◌≡◌, ◌-◌, ◌*◌, ◌%◌, ◌≤◌, length};
ghost use Rattle.filter.specs.Segment.{vertical};
ghost use Rattle.picture.specs.Plane.{at};
ghost use Rattle.planes.specs.Rows.{Holds, Rows, seen};
ghost use Rattle.strips.specs.Passed.{pass_in};

use filter::ctb_band_end;
use segments::PassInput;
use strips::vertical_strip;

// The vertical edges of the rows from `row0` to `row1`, of which `s` holds the samples, strip by strip.
fn vertical_band(s: &mut [u16], input: &PassInput<'_>, row0: usize, row1: usize)
    requires { (length s.old ≡ (row1 - row0) * input.now.frame.columns)
        × (row0 % 4 ≡ 0) × (row1 % 4 ≡ 0) × (row1 ≤ input.now.frame.rows) }
    ensures { Rows input.now.frame.columns row0 row1 s.new
        (pass_in vertical input.now (seen input.now.frame.columns row0 s.old)) }
{
    let columns = input.frame.columns;
    for r in (row0..row1).step_by(4) {
        let a = (r - row0) * columns;
        let b = (r + 4 - row0) * columns;
        vertical_strip(&mut s[a..b], input, r);
    }
}

// The vertical edges of a whole plane, band by band.
pub fn vertical_pass(s: &mut [u16], input: &PassInput<'_>)
    requires { length s.old ≡ input.now.frame.rows * input.now.frame.columns }
    ensures { Holds input.now.frame.columns input.now.frame.rows s.new
        (pass_in vertical input.now (at s.old input.now.frame.columns)) }
{
    let f = input.frame;
    let mut r = 0;
    // A `while`: its invariant holds the bands' ends to the definition's list, and the edit bands_of_another_height,
    // which changes no sample, is refused for that alone (docs/DECISIONS.md, 26).
    while r < f.rows {
        let end = ctb_band_end(f.rows, f.band, r);
        let a = r * f.columns;
        let b = end * f.columns;
        vertical_band(&mut s[a..b], input, r, end);
        r = end;
    }
}
