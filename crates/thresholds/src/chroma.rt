// 8.7.2.5.5 and table 8-10: the chroma QP and the chroma threshold. An index and a chroma QP are held 76 more, as 64
// and 12.
ghost use Rattle.std.specs.Prelude.{◌≡◌, ◌≤◌};
ghost use Rattle.ints.specs.Int.{◌⊖◌};
ghost use Rattle.thresholds.specs.Chroma.{table_qpc, chroma_qp, chroma_tc};

use crate::tables::{qpc_row, scale, tc_row};

// Table 8-10.
#[tactic(auto, using(crate::proofs::Facts::qpc_ranges))]
fn table_qpc(index: u32) -> u32
    ensures value { result ⊖ 76 ≡ table_qpc (index ⊖ 76) }
    ensures upper_bound { result ≤ index }
{
    if index < 106 {
        index
    } else if 119 < index {
        index - 6
    } else {
        qpc_row((index - 106) as usize) + 76
    }
}

// The chroma QP of an index: format 1 by the table, the others at most 51. The format is no enum: `qpc` and `chroma_tc`
// answer of any number, and an enum would ask more of callers.
#[tactic(auto, using(crate::proofs::Facts::qpc_table, crate::proofs::Facts::qpc_other))]
pub fn qpc(format: u32, index: u32) -> u32
    ensures value { result ⊖ 76 ≡ chroma_qp format (index ⊖ 76) }
    ensures upper_bound { result ≤ index }
{
    if format == 1 {
        return table_qpc(index);
    }
    index.min(127)
}

// tc of Cb or Cr, of an average QP, that component's picture offset and the tc offset of Q's slice; bS is 2
#[tactic(auto, using(crate::proofs::Facts::chroma_made))]
pub fn chroma_tc(format: u32, depth: u32, average: u8, pic: u8, offset: u8) -> u16
    requires { (8 ≤ depth) × (depth ≤ 16) }
    ensures { result ≡ chroma_tc format depth (average ⊖ 64) (pic ⊖ 12) (offset ⊖ 6) }
{
    let qp = qpc(format, (average as u32) + (pic as u32));
    let q = ints::clip_index(53, qp + 4 + 2 * (offset as u32), 90);
    scale(depth, tc_row(q as usize))
}
