// The window of a segment in a strip: where it stands, and the filters on it.
ghost use Rattle.std.specs.Prelude.{◌≡◌, ◌+◌, ◌*◌, ◌≤◌, ◌<◌, length};
ghost use Rattle.filter.specs.Answer.{chroma_of, luma_of};
ghost use Rattle.filter.specs.Kernel.{kernel};
ghost use Rattle.luma_windows.specs.Decided.{answer_at};
ghost use Rattle.planes.specs.Window.{Filtered, Strides, window_at};
ghost use Rattle.strips.specs.Passed.{across_in, along_in, base_in};

use chroma_windows::{horizontal_chroma, vertical_chroma};
use filter::{ChromaFilter, LumaFilter};
use lines::LumaAnswer;
use luma_windows::{horizontal_luma, vertical_luma};
use segments::{EdgeDirection, Horizontal, Vertical};

// `width` is how many samples the strip has to a row.
pub(crate) trait WindowDirection: EdgeDirection {
    // Where the window of the segment at edge e and first line l begins.
    fn base(e: usize, l: usize) -> usize
        requires { 8 ≤ e }
        ensures { result ≡ base_in Self.direction e l };

    fn luma(s: &mut [u16], base: usize, width: usize, t: LumaFilter) -> LumaAnswer
        requires in_bounds { base + 3 * along_in Self.direction width + 7 * across_in Self.direction width
            < length s.old }
        requires strides { Strides (across_in Self.direction width) (along_in Self.direction width) }
        ensures filtered { Filtered 4 (kernel (luma_of t)) base (across_in Self.direction width)
            (along_in Self.direction width) s.old s.new }
        ensures value { result ≡ answer_at t
            (window_at s.old base (across_in Self.direction width) (along_in Self.direction width)) };

    fn chroma(s: &mut [u16], base: usize, width: usize, t: ChromaFilter)
        requires in_bounds { base + 3 * along_in Self.direction width + 7 * across_in Self.direction width
            < length s.old }
        requires strides { Strides (across_in Self.direction width) (along_in Self.direction width) }
        ensures { Filtered 4 (kernel (chroma_of t)) base (across_in Self.direction width)
            (along_in Self.direction width) s.old s.new };
}

// The strip begins at the segment's first line.
impl WindowDirection for Vertical {
    fn base(e: usize, _l: usize) -> usize {
        e - 4
    }

    fn luma(s: &mut [u16], base: usize, width: usize, t: LumaFilter) -> LumaAnswer {
        vertical_luma(s, base, width, t)
    }

    fn chroma(s: &mut [u16], base: usize, width: usize, t: ChromaFilter) {
        vertical_chroma(s, base, width, t);
    }
}

// The strip begins four rows above the edge.
impl WindowDirection for Horizontal {
    fn base(_e: usize, l: usize) -> usize {
        l
    }

    fn luma(s: &mut [u16], base: usize, width: usize, t: LumaFilter) -> LumaAnswer {
        horizontal_luma(s, base, width, t)
    }

    fn chroma(s: &mut [u16], base: usize, width: usize, t: ChromaFilter) {
        horizontal_chroma(s, base, width, t);
    }
}
