// The standard's integer operations on unsigned machine numbers, and the largest sample of a depth. The crate's specs
// hold the operations over the integers, and its proofs the laws that carry an expression of integers to naturals.
#![tactic(auto)]

ghost use Rattle.std.specs.Prelude.{◌≡◌, ◌-◌, ◌≤◌, min, pos};
ghost use Rattle.ints.specs.Int.{◌⊖◌, ◌⊟◌, abs, clip3, nat_of};
ghost use Rattle.ints.specs.Sample.{largest_at, distance};

// Abs(a - b). The second clause says the same in naturals.
#[tactic(auto, using(crate::proofs::Laws::gap_is))]
pub fn abs_diff(a: u32, b: u32) -> u32
    ensures value { result ≡ abs (pos a ⊟ pos b) }
    ensures in_naturals { result ≡ distance a b }
{
    a.abs_diff(b)
}

// Clip3(0, most, v - bias): the index that a biased number v stands for. The second clause says the same in naturals.
#[tactic(auto, using(crate::proofs::Laws::clip_index_is))]
pub fn clip_index(most: u32, v: u32, bias: u32) -> u32
    ensures value { result ≡ nat_of (clip3 (pos 0) (pos most) (v ⊖ bias)) }
    ensures in_naturals { result ≡ min most (v - bias) }
{
    v.saturating_sub(bias).min(most)
}

// The largest sample of a depth.
pub fn largest_at(depth: u32) -> u16
    requires { depth ≤ 16 }
    ensures { result ≡ largest_at depth }
{
    ((1u32 << depth) - 1) as u16
}
