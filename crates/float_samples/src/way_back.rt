// The way back: one candidate is worked out, and taken where it gives the float bit for bit.
ghost use Rattle.std.specs.Prelude.{◌≡◌, ℕ, ◌^◌, ◌<◌, Some, true, not, T, pos, is_nan};
ghost use Rattle.float_samples.specs.Found.{Finds};
ghost use Rattle.float_samples.specs.Fraction.{Exactly};
ghost use Rattle.float_samples.specs.Sample.{DepthOk, Gives};

use crate::parts::{middle, part, power};
use std::num::truncating_f32_to_u64;

// Both are numbers, and of one bit pattern: `==` would take -0.0 for 0.0.
fn same(a: f32, b: f32) -> bool
    ensures { (result ≡ true → a ≡ b) × (T (not (is_nan a)) → a ≡ b → result ≡ true) }
{
    if a.is_nan() || b.is_nan() {
        return false;
    }
    a.to_bits() == b.to_bits()
}

// The whole part of x * 2^depth, where that is above -1 and below 2^64.
fn whole_part(depth: u32, x: f32) -> Option<u64>
    requires { DepthOk depth }
    ensures { (n : ℕ) → n < 2 ^ 17 → Exactly x (pos n) depth → result ≡ Some n }
{
    let scaled = x * (power(depth) as f32);
    if scaled > -1.0 {
        if scaled < 18446744073709551616.0 {
            return Some(truncating_f32_to_u64(scaled));
        }
    }
    None
}

// Where a chroma sample gives the float, this is it. The float is below zero where the sample is below the middle.
fn chroma_candidate(depth: u32, value: f32) -> Option<u64>
    requires { DepthOk depth }
    ensures { (s : ℕ) → Gives depth true s value → result ≡ Some s }
{
    let half = middle(depth) as u64;
    if value < 0.0 {
        half.checked_sub(whole_part(depth, -value)?)
    } else {
        half.checked_add(whole_part(depth, value)?)
    }
}

// Where a sample gives the float, this is it.
fn candidate(depth: u32, chroma: bool, value: f32) -> Option<u64>
    requires { DepthOk depth }
    ensures { (s : ℕ) → Gives depth chroma s value → result ≡ Some s }
{
    if chroma {
        chroma_candidate(depth, value)
    } else {
        whole_part(depth, value)
    }
}

// The sample that gives the float.
pub fn find_sample(depth: u32, chroma: bool, value: f32) -> Option<u16>
    requires { DepthOk depth }
    ensures { Finds depth chroma value result }
{
    let s = candidate(depth, chroma, value)?;
    if s < power(depth) as u64 {
        let sample = s as u16;
        let given = part(depth, chroma, sample);
        if same(given, value) {
            return Some(sample);
        }
    }
    None
}
