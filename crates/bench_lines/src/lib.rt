// The lines of text that the segment bench prints, each put behind a text that has room for it.
#![tactic(auto, unfolding(crate::specs::Lines::word_text, crate::specs::Lines::numbers_text, crate::specs::Lines::first_text, crate::specs::Lines::four_text, crate::specs::Lines::line_text, crate::specs::Lines::refused_text))]

ghost use Rattle.std.specs.Prelude.{◌≡◌, ◌+◌, ◌*◌, ◌≤◌, ◌++◌, length};
ghost use Rattle.std.specs.List.{flat_map};
ghost use Rattle.lines.specs.Answer.{values_of};
ghost use Rattle.bench_lines.specs.Lines.{
  word_text,
  numbers_text,
  first_text,
  four_text,
  line_text,
  refused_text,
};

use lines::{Line, LumaAnswer, LumaDecision, SideCounts};
use text::Text;

fn put_word<const N: usize>(out: &mut Text<N>, d: LumaDecision)
    requires { length out.old + 7 ≤ N }
    ensures puts { out.new ≡ out.old ++ word_text (values_of d).d_e }
    ensures upper_bound { length out.new ≤ length out.old + 7 }
{
    match d {
        LumaDecision::Skip => out.push_bytes(b"skip "),
        LumaDecision::Strong => out.push_bytes(b"strong "),
        LumaDecision::Weak { .. } => out.push_bytes(b"weak "),
    }
}

// tc and both counts, to the end of the line.
fn put_numbers<const N: usize>(out: &mut Text<N>, tc: u16, c: SideCounts)
    requires { length out.old + 18 ≤ N }
    ensures puts { out.new ≡ out.old ++ numbers_text tc c }
    ensures upper_bound { length out.new ≤ length out.old + 18 }
{
    let p = c.p as u16;
    let q = c.q as u16;
    out.push_number_then(tc, b' ');
    out.push_number_then(p, b' ');
    out.push_number_then(q, b'\n');
}

// The decision, tc and both counts.
pub fn put_first<const N: usize>(out: &mut Text<N>, answer: LumaAnswer, tc: u16)
    requires { length out.old + 25 ≤ N }
    ensures puts { out.new ≡ out.old ++ first_text (values_of answer.decision).d_e tc answer.counts }
    ensures upper_bound { length out.new ≤ length out.old + 25 }
{
    put_word(out, answer.decision);
    put_numbers(out, tc, answer.counts);
}

fn put_four<const N: usize>(out: &mut Text<N>, a: u16, b: u16, c: u16, d: u16, last: u8)
    requires { length out.old + 24 ≤ N }
    ensures puts { out.new ≡ out.old ++ four_text a b c d last }
    ensures upper_bound { length out.new ≤ length out.old + 24 }
{
    out.push_number_then(a, b' ');
    out.push_number_then(b, b' ');
    out.push_number_then(c, b' ');
    out.push_number_then(d, last);
}

fn put_line<const N: usize>(out: &mut Text<N>, l: Line)
    requires { length out.old + 48 ≤ N }
    ensures puts { out.new ≡ out.old ++ line_text l }
    ensures upper_bound { length out.new ≤ length out.old + 48 }
{
    put_four(out, l.p3, l.p2, l.p1, l.p0, b' ');
    put_four(out, l.q0, l.q1, l.q2, l.q3, b'\n');
}

// The lines of a segment.
pub fn put_lines<const N: usize>(out: &mut Text<N>, lines: &[Line])
    requires { length out.old + 48 * length lines.now ≤ N }
    ensures puts { out.new ≡ out.old ++ flat_map line_text lines.now }
    ensures upper_bound { length out.new ≤ length out.old + 48 * length lines.now }
{
    for line in lines {
        put_line(out, *line);
    }
}

pub fn put_refusal<const N: usize>(out: &mut Text<N>, n: u16)
    requires { length out.old + 14 ≤ N }
    ensures puts { out.new ≡ out.old ++ refused_text n }
    ensures upper_bound { length out.new ≤ length out.old + 14 }
{
    out.push_bytes(b"refused ");
    out.push_number_then(n, b'\n');
}
