// The segment of a record that is not refused: thresholds, decision, the lines after filtering, and their text.
ghost use Rattle.std.specs.Prelude.{◌≡◌, ◌+◌, ◌≤◌, ◌++◌, length, map};
ghost use Rattle.lines.specs.Answer.{values_of, answer_of};
ghost use Rattle.lines.specs.Luma.{luma_line};
ghost use Rattle.bench_record.specs.Refusal.{InRange, refusal_of};
ghost use Rattle.thresholds.specs.LumaTable.{TcTable};
ghost use Rattle.bench.specs.Bench.{segment_text};
ghost use Rattle.bench.specs.Code.{tc_or_zero, thresholds_of, decision_or_skip};

use bench_lines::{put_first, put_lines};
use bench_record::{Head, Record};
use lines::{Line, LumaAnswer, LumaDecision};
use text::Text;

// What the four lines of a segment are decided and filtered by; `largest` is the depth's largest sample.
#[derive(Clone, Copy)]
pub(crate) struct Thresholds {
    pub beta: u16,
    pub tc: u16,
    pub largest: u16,
}

// tc, and 0 where bS is 0
fn tc_of(tcs: &[u8; 1352], depth: u32, average: u8, bs: u8, offset: u8) -> u16
    requires tc_table { TcTable tcs.now }
    requires depth_bound { (8 ≤ depth) × (depth ≤ 16) }
    requires average_bound { (average ≤ 64 + 51) × (bs ≤ 2) × (offset ≤ 12) }
    ensures { result ≡ tc_or_zero depth average bs offset }
{
    if bs == 0 {
        0
    } else {
        thresholds::luma_tc(tcs, depth, average, bs, offset)
    }
}

// The table is laid out for each record, which is little beside the reading of one.
fn thresholds_of(h: Head) -> Thresholds
    requires { InRange h }
    ensures { result ≡ thresholds_of h }
{
    let tcs = thresholds::luma_tc_table();
    let depth = h.depth as u32;
    let average = thresholds::average_qp(h.qpp, h.qpq);
    Thresholds {
        beta: thresholds::luma_beta(depth, average, h.beta),
        tc: tc_of(&tcs, depth, average, h.bs, h.tc),
        largest: ints::largest_at(depth),
    }
}

// One decision for the whole segment, by its lines 0 and 3, and its counts.
fn decide(t: Thresholds, l0: Line, l3: Line) -> LumaAnswer
    ensures { result ≡ answer_of (decision_or_skip t.beta t.tc l0 l3) }
{
    if t.tc == 0 {
        lines::with_counts(LumaDecision::Skip)
    } else {
        lines::luma_decision(t.beta, t.tc, l0, l3)
    }
}

fn filtered(d: LumaDecision, t: Thresholds, all: [Line; 4]) -> [Line; 4]
    ensures { result ≡ map (luma_line (values_of d) t.largest t.tc) all }
{
    all.map(|l| lines::luma_line(d, t.largest, t.tc, l))
}

pub(crate) fn put_segment(out: &mut Text<256>, r: Record<'_>)
    requires room { length out.old + 217 ≤ 256 }
    requires accepted { refusal_of r.bytes.now ≡ 0 }
    ensures puts { out.new ≡ out.old ++ segment_text r.entry.bytes.now }
    ensures upper_bound { length out.new ≤ length out.old + 217 }
{
    let t = thresholds_of(r.head());
    let all = r.lines();
    let answer = decide(t, all[0], all[3]);
    put_first(out, answer, t.tc);
    put_lines(out, &filtered(answer.decision, t, all));
}
