// One component's plane, from the original to the finished samples.
ghost use Rattle.std.specs.Prelude.{◌≡◌};
ghost use Rattle.picture.specs.Plane.{table};
ghost use Rattle.stage.specs.Plane.{PlaneReady, finished_for};

use filter::Component;
use horizontal_pass::horizontal_pass;
use picture::Picture;
use restore::{Restoration, restore};
use segments::{Frame, PassInput};
use vertical_pass::vertical_pass;

// Output starts as the original; then vertical edges, restoration, horizontal edges on that result, restoration. What
// differs by component, `original`, k and f, and what is made once for all, the table and r, stay parameters: one
// struct of them would be built for one call.
pub(crate) fn finish_plane(
    out: &mut [u16],
    original: &[u16],
    picture: &Picture<'_>,
    tcs: &[u8; 1352],
    k: Component,
    f: Frame,
    r: Restoration,
)
    requires { PlaneReady k f r out.old original.now picture.now.cells.now picture.now.slices.now tcs.now }
    ensures { out.new ≡ table f.columns f.rows (finished_for k f r.pcm original.now picture.now.cells.now
        picture.now.slices.now picture.now.columns.now picture.now.rows.now) }
{
    let cells = picture.cells;
    let input = PassInput {
        cells,
        slices: picture.slices,
        columns: picture.columns,
        rows: picture.rows,
        tcs,
        component: k,
        frame: f,
    };
    out.copy_from_slice(original);
    vertical_pass(out, &input);
    restore(out, original, cells, r, k, f);
    horizontal_pass(out, &input);
    restore(out, original, cells, r, k, f);
}
