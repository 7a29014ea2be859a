// Cause 8 of the ledger: the tile starts. Columns and rows have one rule, over the starts and the luma samples.
ghost use Rattle.std.specs.Prelude.{◌+◌, ◌^◌, ◌≤◌, ◌<◌, ◌≡◌, [], ◌∷◌, leb, length, get_or};
ghost use Rattle.picture.specs.Causes.{bad_order, cause8, starts_cause};
ghost use Rattle.picture.specs.Given.{picture_of, planes_of};
ghost use Rattle.picture.specs.Ledger.{any_of, first_place};

use picture::Settings;

// Start k is not 0 where it is the first, or not above the one before.
fn bad_order(starts: &[u16], k: usize) -> bool
    requires { k < length starts.now }
    ensures { result ≡ bad_order starts.now k }
{
    if k == 0 {
        return starts[k] != 0;
    }
    starts[k] <= starts[k - 1]
}

// Start k is out of order, or not below the number of CTBs.
fn bad_start(starts: &[u16], k: usize, ctbs: u32) -> bool
    requires { k < length starts.now }
    ensures { result ≡ any_of (bad_order starts.now k ∷ leb ctbs (get_or starts.now k 0) ∷ []) }
{
    bad_order(starts, k) | (ctbs <= starts[k] as u32)
}

// The first start out of rule, of CTBs of this size in this many samples.
fn first_bad_start(starts: &[u16], size: u32, total: u32) -> Option<usize>
    requires { (0 < size) × (total + size < 2 ^ 32) }
    ensures { result ≡ first_place (starts_cause starts.now size total) }
{
    let ctbs = (total + size - 1) / size;
    (0..starts.len()).find(|k| bad_start(starts, *k, ctbs))
}

// 8. The first tile start out of rule, rows numbered on after the columns.
pub fn first_bad_tile(settings: Settings, columns: &[u16], rows: &[u16]) -> Option<usize>
    requires { (settings.width ≤ 8192) × (settings.height ≤ 8192) × (settings.log2_ctb ≤ 6) }
    ensures { result ≡ first_place (cause8
        (picture_of settings (planes_of [] [] []) [] [] columns.now rows.now)) }
{
    let size = 1 << settings.log2_ctb;
    if let Some(column) = first_bad_start(columns, size, settings.width) {
        return Some(column);
    }
    let row = first_bad_start(rows, size, settings.height)?;
    Some(columns.len() + row)
}
