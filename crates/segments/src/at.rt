// What is filtered at an edge and a first line, of which nothing is filtered here: whether there is an edge, and how it
// is filtered. Most segments have none, and then nothing else of them is read.
ghost use Rattle.std.specs.Prelude.{true, ◌≡◌, ◌+◌, ◌^◌, ◌≤◌, ◌<◌};
ghost use Rattle.filter.specs.Segment.{edge_flag};
ghost use Rattle.segments.specs.Between.{option_of};
ghost use Rattle.segments.specs.Input.{segment_in};
ghost use Rattle.segments.specs.Listed.{Listed};
ghost use Rattle.segments.specs.Sides.{breadth, cell_for, length_of, position_for};

use crate::between::segment_filter;
use crate::neighbours::{cell_of, sides_of};
use crate::{EdgeDirection, Frame, PassInput, SegmentFilter};
use filter::Component;

// Whether there is an edge at column or row e, of the segment whose first row or column is l: the flag of its Q cell,
// which is that of its second sample. It needs less than a pass has ready, and so takes less.
pub fn edge_at<D: EdgeDirection>(cells: &[u8], k: Component, f: Frame, e: usize, l: usize) -> bool
    requires e_bound { (e < 2 ^ 32) × (l + 1 < 2 ^ 32) }
    requires listed { Listed cells.now f.cell_columns.0 (position_for k D.direction e l).x
        (position_for k D.direction e l).y }
    ensures { result ≡ edge_flag D.direction (cell_for D.direction k f cells.now e l) }
{
    D::has_edge(cell_of(cells, f.cell_columns, D::position_q(k, e, l)))
}

// How it is filtered, if it is.
pub fn filter_at<D: EdgeDirection>(
    input: &PassInput<'_>,
    e: usize,
    l: usize,
) -> Option<SegmentFilter>
    requires on_edge { (8 ≤ e) × (e < breadth D.direction input.now.frame)
        × (l + 1 < length_of D.direction input.now.frame) }
    requires flagged { edge_flag D.direction (cell_for D.direction input.now.component input.now.frame
        input.now.cells.now e l) ≡ true }
    ensures { option_of input.now.component.largest result ≡ segment_in D.direction input.now e l }
{
    let v = sides_of::<D>(input, D::position_q(input.component, e, l));
    segment_filter(input, v, D::strength(v.q))
}
