// What vertical and horizontal edges differ in: where P and Q of a segment are, which of a cell's flags and strengths
// are the edge's, and which tile starts part its sides.
ghost use Rattle.std.specs.Prelude.{◌≡◌, ◌+◌, ◌^◌, ◌≤◌, ◌<◌};
ghost use Rattle.filter.specs.Segment.{Direction, bs_of, edge_flag, horizontal, position_p, vertical};
ghost use Rattle.segments.specs.Input.{one_tile_in};
ghost use Rattle.segments.specs.Sides.{crossing, place_of, position_for};

use crate::scales::{luma_column_at, luma_row_at};
use crate::{LumaPosition, PassInput};
use filter::Component;
use picture::{Cell, LumaColumn, row_of_ctbs, same_tile_column, same_tile_row};

pub trait EdgeDirection {
    ghost direction: { Direction };

    // The position of Q of the segment at edge e and first line l: that of its second sample.
    fn position_q(k: Component, e: usize, l: usize) -> LumaPosition
        requires { (e < 2 ^ 32) × (l + 1 < 2 ^ 32) }
        ensures { place_of result ≡ position_for k direction e l };

    // That of P, by Q's.
    fn position_p(q: LumaPosition) -> LumaPosition
        requires { 1 ≤ crossing direction (place_of q) }
        ensures { place_of result ≡ position_p direction (place_of q) };

    // Whether there is an edge at Q.
    fn has_edge(q: Cell) -> bool
        ensures { result ≡ edge_flag direction q };

    // Its bS.
    fn strength(q: Cell) -> u8
        ensures { result ≡ bs_of direction q };

    // Whether P and Q lie in one tile, as far as the edge can part them.
    fn in_one_tile(input: &PassInput<'_>, p: LumaPosition, q: LumaPosition) -> bool
        ensures { result ≡ one_tile_in direction input.now (place_of p) (place_of q) };
}

// P is left of Q.
pub struct Vertical;

impl EdgeDirection for Vertical {
    ghost direction = { vertical };

    fn position_q(k: Component, e: usize, l: usize) -> LumaPosition {
        LumaPosition {
            x: luma_column_at(k, e),
            y: luma_row_at(k, l + 1),
        }
    }

    fn position_p(q: LumaPosition) -> LumaPosition {
        LumaPosition {
            x: LumaColumn(q.x.0 - 1),
            y: q.y,
        }
    }

    fn has_edge(q: Cell) -> bool {
        q.flags % 2 == 1
    }

    fn strength(q: Cell) -> u8 {
        q.bsv
    }

    fn in_one_tile(input: &PassInput<'_>, p: LumaPosition, q: LumaPosition) -> bool {
        let log2 = input.frame.log2_ctb;
        same_tile_column(input.columns, p.x.ctb(log2), q.x.ctb(log2))
    }
}

// P is above Q.
pub struct Horizontal;

impl EdgeDirection for Horizontal {
    ghost direction = { horizontal };

    fn position_q(k: Component, e: usize, l: usize) -> LumaPosition {
        LumaPosition {
            x: luma_column_at(k, l + 1),
            y: luma_row_at(k, e),
        }
    }

    fn position_p(q: LumaPosition) -> LumaPosition {
        LumaPosition { x: q.x, y: q.y - 1 }
    }

    fn has_edge(q: Cell) -> bool {
        q.flags / 2 % 2 == 1
    }

    fn strength(q: Cell) -> u8 {
        q.bsh
    }

    fn in_one_tile(input: &PassInput<'_>, p: LumaPosition, q: LumaPosition) -> bool {
        let log2 = input.frame.log2_ctb;
        same_tile_row(input.rows, row_of_ctbs(p.y, log2), row_of_ctbs(q.y, log2))
    }
}
