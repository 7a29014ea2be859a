// Which cells are suppressed.
ghost use Rattle.std.specs.Prelude.{◌≡◌, ◌+◌, ◌*◌, ◌≤◌, length};
ghost use Rattle.picture.specs.Cell.{suppressed, cell_at};
ghost use Rattle.restore.specs.Restored.{AnySuppressed};

use crate::Restoration;
use filter::is_suppressed;
use picture::cell_at;

// Whether cell n is suppressed; `pcm` is the switch.
pub(crate) fn sample_suppressed(cells: &[u8], pcm: bool, n: usize) -> bool
    requires { 8 * n + 8 ≤ length cells.now }
    ensures { result ≡ suppressed pcm (cell_at cells.now n) }
{
    is_suppressed(pcm, cell_at(cells, n))
}

fn any_suppressed(cells: &[u8], pcm: bool) -> bool
    ensures { AnySuppressed pcm cells.now result }
{
    (0..cells.len() / 8).any(|n| sample_suppressed(cells, pcm, n))
}

// The restoration of a picture with these cells, the same for each of its planes.
pub fn restoration_of(cells: &[u8], pcm: bool) -> Restoration
    ensures { (result.pcm ≡ pcm) × AnySuppressed pcm cells.now result.any }
{
    let any = any_suppressed(cells, pcm);
    Restoration { pcm, any }
}
