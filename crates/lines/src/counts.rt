// How many samples next to the edge a decision may change.
ghost use Rattle.std.specs.Prelude.{◌≡◌};
ghost use Rattle.lines.specs.Answer.{values_of};
ghost use Rattle.lines.specs.Decision.{counts_of};

use crate::{LumaAnswer, LumaDecision, SideCounts};

#[tactic(auto, unfolding(crate::specs::Decision::side_count))]
fn counts_of(d: LumaDecision) -> SideCounts
    ensures { result ≡ counts_of (values_of d) }
{
    match d {
        LumaDecision::Skip => SideCounts { p: 0, q: 0 },
        LumaDecision::Strong => SideCounts { p: 3, q: 3 },
        // the weak filter may change the first sample of a side, and the second where the side's flag says so
        LumaDecision::Weak { do_p1, do_q1 } => SideCounts {
            p: 1 + u8::from(do_p1),
            q: 1 + u8::from(do_q1),
        },
    }
}

// A decision and its counts.
pub fn with_counts(d: LumaDecision) -> LumaAnswer
    ensures decision { result.decision ≡ d }
    ensures counts { result.counts ≡ counts_of (values_of d) }
{
    LumaAnswer {
        decision: d,
        counts: counts_of(d),
    }
}
