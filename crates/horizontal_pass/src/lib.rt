// The pass over a component's horizontal edges, in place: the strips of a band, the bands of a plane. It serves luma
// and chroma.
#![tactic(auto)]

ghost use Rattle.std.specs.Prelude.{◌≡◌, ◌-◌, ◌*◌, ◌≤◌, length};
ghost use Rattle.filter.specs.Bands.{Seam};
ghost use Rattle.filter.specs.Segment.{horizontal};
ghost use Rattle.picture.specs.Plane.{at};
ghost use Rattle.planes.specs.Rows.{Holds, Rows, seen};
ghost use Rattle.strips.specs.Passed.{pass_in};

use filter::horiz_band_end;
use segments::PassInput;
use strips::horizontal_strip;

// The horizontal edges of the rows from `row0` to `row1`, of which `s` holds the samples, strip by strip.
fn horizontal_band(s: &mut [u16], input: &PassInput<'_>, row0: usize, row1: usize)
    requires s_len { (length s.old ≡ (row1 - row0) * input.now.frame.columns)
        × (row0 ≤ row1) × (row1 ≤ input.now.frame.rows) }
    requires seam { Seam input.now.frame.rows row0 × Seam input.now.frame.rows row1 }
    ensures { Rows input.now.frame.columns row0 row1 s.new
        (pass_in horizontal input.now (seen input.now.frame.columns row0 s.old)) }
{
    let columns = input.frame.columns;
    let first = (row0 / 8 + 1) * 8;
    for e in (first..row1).step_by(8) {
        let a = (e - 4 - row0) * columns;
        let b = (e + 4 - row0) * columns;
        horizontal_strip(&mut s[a..b], input, e);
    }
}

// The horizontal edges of a whole plane, band by band.
pub fn horizontal_pass(s: &mut [u16], input: &PassInput<'_>)
    requires { length s.old ≡ input.now.frame.rows * input.now.frame.columns }
    ensures { Holds input.now.frame.columns input.now.frame.rows s.new
        (pass_in horizontal input.now (at s.old input.now.frame.columns)) }
{
    let f = input.frame;
    let mut r = 0;
    // No range: `horiz_band_end` says where a band ends.
    while r < f.rows {
        let end = horiz_band_end(f.rows, f.band, r);
        let a = r * f.columns;
        let b = end * f.columns;
        horizontal_band(&mut s[a..b], input, r, end);
        r = end;
    }
}
