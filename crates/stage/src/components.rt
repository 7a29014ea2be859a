// The components of an accepted picture: what their segments go by, and the frames of their planes.
ghost use Rattle.std.specs.Prelude.{◌≡◌, ◌≤◌};
ghost use Rattle.ints.specs.Int.{◌⊖◌};
ghost use Rattle.picture.specs.Accepted.{OffsetOk};
ghost use Rattle.picture.specs.Given.{bare, settings_of};
ghost use Rattle.picture.specs.Scale.{Y, Cb};
ghost use Rattle.segments.specs.Pictures.{component_for, frame_for};

use filter::Component;
use ints::largest_at;
use picture::{LumaColumn, Settings, chroma_rows, row_of_cells};
use segments::Frame;

// The Cb or Cr offset plus 12, so that it is no longer signed. The `as` loses nothing, by the clause; a `try_from`
// would be no plainer, since it asks for an answer that cannot come.
pub(crate) fn biased_offset(offset: i32) -> u8
    requires { OffsetOk offset }
    ensures { result ⊖ 12 ≡ offset }
{
    (offset + 12) as u8
}

// Luma has no offset of its own. Luma and chroma keep a function each, here and for the frames below: the depth that is
// read differs, and luma is not scaled, so that one function would ask for the component at every field.
pub(crate) fn luma_component(settings: Settings) -> Component
    requires { settings.luma_depth ≤ 16 }
    ensures { result ≡ component_for (settings_of settings) 12 Y }
{
    Component {
        luma: true,
        format: settings.chroma_format,
        depth: settings.luma_depth,
        offset: 12,
        largest: largest_at(settings.luma_depth),
    }
}

// Cb or Cr: they differ in their offset alone, which is given plus 12.
pub(crate) fn chroma_component(settings: Settings, offset: u8) -> Component
    requires { settings.chroma_depth ≤ 16 }
    ensures { result ≡ component_for (settings_of settings) offset Cb }
{
    Component {
        luma: false,
        format: settings.chroma_format,
        depth: settings.chroma_depth,
        offset,
        largest: largest_at(settings.chroma_depth),
    }
}

pub(crate) fn luma_frame(settings: Settings) -> Frame
    requires { settings.log2_ctb ≤ 6 }
    ensures { result ≡ frame_for (bare settings) Y }
{
    let wide = LumaColumn(settings.width as usize);
    let high = settings.height as usize;
    Frame {
        columns: wide.0,
        rows: high,
        cell_columns: wide.cell(),
        cell_rows: row_of_cells(high),
        log2_ctb: settings.log2_ctb,
        band: 1usize << settings.log2_ctb,
    }
}

pub(crate) fn chroma_frame(settings: Settings) -> Frame
    requires { settings.log2_ctb ≤ 6 }
    ensures { result ≡ frame_for (bare settings) Cb }
{
    let format = settings.chroma_format;
    let wide = LumaColumn(settings.width as usize);
    let high = settings.height as usize;
    let columns = wide.chroma(format);
    Frame {
        columns: columns.0,
        rows: chroma_rows(format, high),
        cell_columns: wide.cell(),
        cell_rows: row_of_cells(high),
        log2_ctb: settings.log2_ctb,
        band: chroma_rows(format, 1usize << settings.log2_ctb),
    }
}
