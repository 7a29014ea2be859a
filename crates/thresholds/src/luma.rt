// 8.7.2.5.3: the average QP and the luma thresholds.
ghost use Rattle.std.specs.Prelude.{◌≡◌, ◌+◌, ◌≤◌, pos};
ghost use Rattle.ints.specs.Int.{◌⊖◌};
ghost use Rattle.thresholds.specs.Luma.{average_qp, luma_beta, luma_tc};
ghost use Rattle.thresholds.specs.LumaTable.{TcTable};

use crate::tables::{beta_row, scale};

// (QpQ + QpP + 1) >> 1, rounded down also below zero: the bytes, 64 more than the QPs, are never below it.
#[tactic(auto, using(crate::proofs::Facts::average_is))]
pub fn average_qp(p: u8, q: u8) -> u8
    ensures { result ⊖ 64 ≡ average_qp (p ⊖ 64) (q ⊖ 64) }
{
    (((p as u32) + (q as u32) + 1) >> 1) as u8
}

// beta, of an average QP and the beta offset of Q's slice
#[tactic(auto, using(crate::proofs::Facts::beta_made))]
pub fn luma_beta(depth: u32, average: u8, offset: u8) -> u16
    requires { (8 ≤ depth) × (depth ≤ 16) }
    ensures { result ≡ luma_beta depth (average ⊖ 64) (offset ⊖ 6) }
{
    let q = ints::clip_index(51, (average as u32) + 2 * (offset as u32), 76);
    scale(depth, beta_row(q as usize))
}

// tc, of an average QP, the segment's bS and the tc offset of Q's slice: one look into the table of depth 8, scaled. A
// negative average gives 0 without a look. bS is a number, since the entry's place is a sum with it.
#[tactic(auto, using(crate::proofs::LumaTable::tc_looked_up))]
pub fn luma_tc(tcs: &[u8; 1352], depth: u32, average: u8, bs: u8, offset: u8) -> u16
    requires tc_table { TcTable tcs.now }
    requires depth_bound { (8 ≤ depth) × (depth ≤ 16) }
    requires average_bound { (average ≤ 64 + 51) × (1 ≤ bs) × (bs ≤ 2) × (offset ≤ 12) }
    ensures { result ≡ luma_tc depth (average ⊖ 64) (pos bs) (offset ⊖ 6) }
{
    if average < 64 {
        return 0;
    }
    let place = 26 * ((average as usize) - 64) + 13 * ((bs as usize) - 1) + (offset as usize);
    scale(depth, tcs[place] as u16)
}
