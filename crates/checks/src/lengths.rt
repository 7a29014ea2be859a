// Cause 6 of the ledger: the lengths. The sizes were checked before, so that the products fit. Each function asks for
// their bound by itself: README names this crate, and a type that held the bound would ask more of its callers.
ghost use Rattle.std.specs.Prelude.{◌≤◌, ◌≡◌, length};
ghost use Rattle.picture.specs.Causes.{bad_cells};
ghost use Rattle.picture.specs.Given.{bare};
ghost use Rattle.picture.specs.Ledger.{any_of};
ghost use Rattle.picture.specs.Lent.{picture_lent};
ghost use Rattle.checks.specs.Lengths.{bad_lengths, lent_tests, list_tests, plane_tests};

use picture::{LumaColumn, Picture, Settings, cell_bytes, chroma_rows, row_of_cells};

// What a call is lent to be written beside a picture, by its lengths.
#[derive(Clone, Copy)]
pub enum OutputLengths {
    Planes { y: usize, cb: usize, cr: usize },
    Cells(usize),
}

// One of three planes, of y, cb and cr samples, is not of its exact length. They are given by their lengths and not as
// `Planes`, since output planes are lent by `&mut`.
pub fn bad_planes(settings: Settings, y: usize, cb: usize, cr: usize) -> bool
    requires { (settings.width ≤ 8192) × (settings.height ≤ 8192) }
    ensures { result ≡ any_of (plane_tests (bare settings) y cb cr) }
{
    let width = LumaColumn(settings.width as usize);
    let height = settings.height as usize;
    let across = width.chroma(settings.chroma_format);
    let chroma = across.0 * chroma_rows(settings.chroma_format, height);
    (y != width.0 * height) | (cb != chroma) | (cr != chroma)
}

// A cell list of so many bytes is not of its exact length.
pub fn bad_cell_bytes(settings: Settings, bytes: usize) -> bool
    requires { (settings.width ≤ 8192) × (settings.height ≤ 8192) }
    ensures { result ≡ bad_cells (bare settings) bytes }
{
    let columns = LumaColumn(settings.width as usize).cell();
    bytes != cell_bytes(columns, row_of_cells(settings.height as usize))
}

// What is lent to be written, where anything is, is not of its exact lengths.
pub fn bad_lent(settings: Settings, lent: Option<OutputLengths>) -> bool
    requires { (settings.width ≤ 8192) × (settings.height ≤ 8192) }
    ensures { result ≡ any_of (lent_tests (bare settings) lent) }
{
    match lent {
        None => false,
        Some(OutputLengths::Planes { y, cb, cr }) => bad_planes(settings, y, cb, cr),
        Some(OutputLengths::Cells(bytes)) => bad_cell_bytes(settings, bytes),
    }
}

// The cell list is not of its exact length; slice bytes not a multiple of 4 or above 2,400; too few or too many tile
// starts.
fn bad_lists(picture: &Picture<'_>) -> bool
    requires { (picture.now.settings.width ≤ 8192) × (picture.now.settings.height ≤ 8192) }
    ensures { result ≡ any_of (list_tests (bare picture.now.settings) (length picture.now.cells.now)
        (length picture.now.slices.now) (length picture.now.columns.now) (length picture.now.rows.now)) }
{
    let slices = picture.slices.len();
    let columns = picture.columns.len();
    let rows = picture.rows.len();
    bad_cell_bytes(picture.settings, picture.cells.len())
        | (slices % 4 != 0)
        | (2400 < slices)
        | (columns < 1)
        | (20 < columns)
        | (rows < 1)
        | (22 < rows)
}

// 6. A plane or the cell list, or what is lent to be written, is not of its exact length; slice bytes not a multiple
// of 4 or above 2,400; too few or too many tile starts.
pub fn bad_lengths(picture: &Picture<'_>, lent: Option<OutputLengths>) -> bool
    requires { (picture.now.settings.width ≤ 8192) × (picture.now.settings.height ≤ 8192) }
    ensures { result ≡ any_of
        (bad_lengths (lent_tests (bare picture.now.settings) lent) (picture_lent picture.now)) }
{
    let settings = picture.settings;
    let planes = picture.planes;
    bad_planes(settings, planes.y.len(), planes.cb.len(), planes.cr.len())
        | bad_lent(settings, lent)
        | bad_lists(picture)
}
