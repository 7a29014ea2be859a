// From a plane's own samples to luma samples.
ghost use Rattle.std.specs.Prelude.{◌≡◌, ◌<◌, ◌^◌};
ghost use Rattle.picture.specs.Scale.{to_luma};
ghost use Rattle.segments.specs.Sides.{across_for, down_for};

use filter::Component;
use picture::{ChromaColumn, LumaColumn};

// The luma column of a component's column.
pub(crate) fn luma_column_at(k: Component, x: usize) -> LumaColumn
    requires { x < 2 ^ 32 }
    ensures { result.0 ≡ to_luma (across_for k) x }
{
    if k.luma {
        return LumaColumn(x);
    }
    ChromaColumn(x).luma(k.format)
}

// The luma row of a component's row. Rows are plain numbers, and go by a sampling of their own.
pub fn luma_row_at(k: Component, y: usize) -> usize
    requires { y < 2 ^ 32 }
    ensures { result ≡ to_luma (down_for k) y }
{
    if k.luma {
        return y;
    }
    picture::luma_row(k.format, y)
}
