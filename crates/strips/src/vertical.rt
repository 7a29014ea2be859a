// A strip: the segments of the vertical edges of four rows.
ghost use Rattle.std.specs.Prelude.{◌≡◌, ◌+◌, ◌*◌, ◌%◌, ◌≤◌, length};
ghost use Rattle.filter.specs.Segment.{vertical};
ghost use Rattle.planes.specs.Rows.{Rows, seen};
ghost use Rattle.strips.specs.Passed.{pass_in};

use crate::segment::filter_segment;
use segments::{PassInput, Vertical};

// The vertical edges of the four rows from `row`, of which `s` holds the samples. It shares no body with a horizontal
// strip's, which would be no plainer: here the loop goes over edges and there along one, by other steps.
pub fn vertical_strip(s: &mut [u16], input: &PassInput<'_>, row: usize)
    requires { (length s.old ≡ 4 * input.now.frame.columns) × (row % 4 ≡ 0) × (row + 4 ≤ input.now.frame.rows) }
    ensures { Rows input.now.frame.columns row (row + 4) s.new
        (pass_in vertical input.now (seen input.now.frame.columns row s.old)) }
{
    for e in (8..input.frame.columns).step_by(8) {
        filter_segment::<Vertical>(s, input, e, row);
    }
}
