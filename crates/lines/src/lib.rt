// The decision and the filters of one line of a luma or chroma segment (ITU-T H.265, 8.7.2.5).
// A signed number of the standard is held with a bias, as a u32 that is 65536 more; all arithmetic is unsigned.
// What a public function ensures is the standard's definition, over the integers, or that of C-20's counts. What a
// private one of the filters ensures is an expression of naturals, which the prover checks by itself; the proofs of the
// public ones carry the one to the other.
#![tactic(auto)]

mod chroma;
mod counts;
mod decision;
mod delta;
mod strong;
mod weak;

ghost use Rattle.std.specs.Prelude.{◌≡◌};
ghost use Rattle.lines.specs.Answer.{values_of};
ghost use Rattle.lines.specs.Luma.{luma_line};

pub use chroma::chroma_line;
pub use counts::with_counts;
pub use decision::luma_decision;
pub use strong::strong_line;
pub use weak::weak_line;

// The eight samples across a luma edge: p3 is furthest from the edge on the P side, q3 on the Q side.
#[derive(Clone, Copy)]
pub struct Line {
    pub p3: u16,
    pub p2: u16,
    pub p1: u16,
    pub p0: u16,
    pub q0: u16,
    pub q1: u16,
    pub q2: u16,
    pub q3: u16,
}

// How the four lines of a luma segment are filtered; `Weak` says for P and for Q whether the second sample moves too.
#[derive(Clone, Copy)]
pub enum LumaDecision {
    Skip,
    Strong,
    Weak { do_p1: bool, do_q1: bool },
}

// How many samples next to the edge a decision may change, on the P side and on the Q side.
#[derive(Clone, Copy)]
pub struct SideCounts {
    pub p: u8,
    pub q: u8,
}

// What is answered of a luma segment: its decision, and what that may change.
#[derive(Clone, Copy)]
pub struct LumaAnswer {
    pub decision: LumaDecision,
    pub counts: SideCounts,
}

// The four samples around a chroma edge.
#[derive(Clone, Copy)]
pub struct ChromaLine {
    pub p1: u16,
    pub p0: u16,
    pub q0: u16,
    pub q1: u16,
}

// 8.7.2.5.7: one luma line, as the segment's decision says; `largest` is the depth's largest sample.
#[tactic(auto, unfolding(crate::specs::Luma::luma_line))]
pub fn luma_line(d: LumaDecision, largest: u16, tc: u16, l: Line) -> Line
    ensures { result ≡ luma_line (values_of d) largest tc l }
{
    match d {
        LumaDecision::Skip => l,
        LumaDecision::Strong => strong_line(tc, l),
        LumaDecision::Weak { do_p1, do_q1 } => weak_line(largest, tc, do_p1, do_q1, l),
    }
}
