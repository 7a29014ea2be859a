// The head of a record: twenty words. Word 0 is the mark; then nine settings and ten lengths.
ghost use Rattle.std.specs.Prelude.{◌≡◌, ◌<◌, min};
ghost use Rattle.picture_record.specs.Head.{marked, settings_in, length_in, limit_of, within};

use crate::numbers::word;
use picture::Settings;

const MARK: u32 = 1397247060;

// The most that a program holds of one list.
pub const SAMPLES: usize = 40000;

pub const CELL_BYTES: usize = 20000;

pub const SLICE_BYTES: usize = 4000;

pub const STARTS: usize = 40;

pub fn is_marked(head: &[u8; 80]) -> bool
    ensures { result ≡ marked head.now }
{
    word(head, 0) == MARK
}

pub fn settings(head: &[u8; 80]) -> Settings
    ensures { result ≡ settings_in head.now }
{
    Settings {
        width: word(head, 1),
        height: word(head, 2),
        chroma_format: word(head, 3),
        luma_depth: word(head, 4),
        chroma_depth: word(head, 5),
        log2_ctb: word(head, 6),
        cb_qp_offset: word(head, 7).cast_signed(),
        cr_qp_offset: word(head, 8).cast_signed(),
        pcm_loop_filter_disabled: word(head, 9) != 0,
    }
}

// The most that length k of the ten may be.
fn limit_of(k: usize) -> usize
    ensures { result ≡ limit_of k }
{
    match k {
        0..=5 => SAMPLES,
        6 => CELL_BYTES,
        7 => SLICE_BYTES,
        _ => STARTS,
    }
}

// Length k of the ten, and never more than its limit.
pub fn length_at(head: &[u8; 80], k: usize) -> usize
    requires { k < 10 }
    ensures { result ≡ min (length_in head.now k) (limit_of k) }
{
    limit_of(k).min(word(head, 10 + k) as usize)
}

// Whether all lengths are within their limits.
pub fn all_fit(head: &[u8; 80]) -> bool
    ensures { result ≡ within head.now 10 }
{
    for k in 0..10 {
        if limit_of(k) < word(head, 10 + k) as usize {
            return false;
        }
    }
    true
}
