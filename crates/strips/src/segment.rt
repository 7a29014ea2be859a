// One segment: what is filtered there, and the filter on its window.
ghost use Rattle.std.specs.Prelude.{◌≡◌, ◌+◌, ◌*◌, ◌≤◌, length};
ghost use Rattle.filter.specs.Kernel.{kernel};
ghost use Rattle.planes.specs.Window.{Filtered, taken, window_at};
ghost use Rattle.segments.specs.Input.{segment_in};
ghost use Rattle.segments.specs.Sides.{breadth, length_of};
ghost use Rattle.strips.specs.Passed.{across_in, along_in, base_in, rows_in, treatment};

use crate::Treatment;
use crate::direction::WindowDirection;
use filter::{ChromaFilter, LumaFilter};
use segments::{PassInput, SegmentFilter, edge_at, filter_at};

// The segment at edge e whose first line is l, filtered in the strip `s` that its window lies in.
pub(crate) fn filter_segment<D: WindowDirection>(
    s: &mut [u16],
    input: &PassInput<'_>,
    e: usize,
    l: usize,
) -> Option<Treatment>
    requires s_len { length s.old ≡ rows_in D.direction * input.now.frame.columns }
    requires on_edge { (8 ≤ e) × (e + 4 ≤ breadth D.direction input.now.frame)
        × (l + 4 ≤ length_of D.direction input.now.frame) }
    ensures filtered { Filtered 4 (taken kernel (segment_in D.direction input.now e l)) (base_in D.direction e l)
        (across_in D.direction input.now.frame.columns) (along_in D.direction input.now.frame.columns) s.old s.new }
    ensures value { result ≡ treatment (segment_in D.direction input.now e l)
        (window_at s.old (base_in D.direction e l) (across_in D.direction input.now.frame.columns)
        (along_in D.direction input.now.frame.columns)) }
{
    if !edge_at::<D>(input.cells, input.component, input.frame, e, l) {
        return None;
    }
    let filter = filter_at::<D>(input, e, l)?;
    let base = D::base(e, l);
    let width = input.frame.columns;
    let largest = input.component.largest;
    match filter {
        SegmentFilter::Luma { beta, tc } => {
            let t = LumaFilter { beta, tc, largest };
            Some(Treatment::Luma(D::luma(s, base, width, t)))
        }
        SegmentFilter::Chroma { tc } => {
            let t = ChromaFilter { tc, largest };
            D::chroma(s, base, width, t);
            Some(Treatment::Chroma)
        }
    }
}
