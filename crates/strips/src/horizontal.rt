// A strip: the segments of one horizontal edge.
ghost use Rattle.std.specs.Prelude.{◌≡◌, ◌-◌, ◌+◌, ◌*◌, ◌%◌, ◌≤◌, ◌<◌, length};
ghost use Rattle.filter.specs.Segment.{horizontal};
ghost use Rattle.planes.specs.Rows.{Rows, seen};
ghost use Rattle.strips.specs.Passed.{pass_in};

use crate::segment::filter_segment;
use segments::{Horizontal, PassInput};

// The horizontal edge above row `edge`: `s` holds the four rows above it and the four from it on.
pub fn horizontal_strip(s: &mut [u16], input: &PassInput<'_>, edge: usize)
    requires { (length s.old ≡ 8 * input.now.frame.columns) × (edge % 8 ≡ 0) × (8 ≤ edge)
        × (edge < input.now.frame.rows) }
    ensures { Rows input.now.frame.columns (edge - 4) (edge + 4) s.new
        (pass_in horizontal input.now (seen input.now.frame.columns (edge - 4) s.old)) }
{
    for x in (0..input.frame.columns).step_by(4) {
        filter_segment::<Horizontal>(s, input, edge, x);
    }
}
