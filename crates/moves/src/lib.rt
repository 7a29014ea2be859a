// How far the samples of one plane are from those of another, and where (document 02, C-23).
#![tactic(auto)]

ghost use Rattle.std.specs.Prelude.{◌≡◌};
ghost use Rattle.ints.specs.Sample.{distance};
ghost use Rattle.moves.specs.Farthest.{Farthest};

// The largest distance, and the first place that has it.
#[derive(Clone, Copy, PartialEq, Eq, Debug, Default)]
pub struct Move {
    pub distance: u32,
    pub place: usize,
}

// The distance of two samples.
fn apart(a: u16, b: u16) -> u32
    ensures { result ≡ distance a b }
{
    a.abs_diff(b) as u32
}

// The sample that is farthest from the other list's at its place; of lists of two lengths the places are those of the
// shorter one.
pub fn farthest_move(before: &[u16], after: &[u16]) -> Move
    ensures { Farthest before.now after.now result }
{
    let mut farthest = Move::default();
    for place in 0..before.len().min(after.len()) {
        let distance = apart(before[place], after[place]);
        if farthest.distance < distance {
            farthest = Move { distance, place };
        }
    }
    farthest
}
