// Why a record is refused: the checks in their order, the first that applies decides.
ghost use Rattle.std.specs.Prelude.{◌≡◌, ◌≤◌, nat_lt};
ghost use Rattle.std.specs.List.{list_any};
ghost use Rattle.bench_record.specs.Refusal.{
  depth_bad,
  offsets_bad,
  qp_bad,
  others_bad,
  line_above,
  samples_above,
  refusal_of,
};
ghost use Rattle.bench_record.specs.Numbered.{number_of, numbered};

use crate::fields::{Head, Record};
use lines::Line;

#[derive(Clone, Copy, PartialEq, Eq, Debug)]
pub enum RecordRefusal {
    Depth,
    Offsets,
    Others,
    Sample,
}

impl RecordRefusal {
    // The number that is printed.
    pub fn number(self) -> u16
        ensures { result ≡ number_of self }
    {
        match self {
            RecordRefusal::Depth => 3,
            RecordRefusal::Offsets => 7,
            RecordRefusal::Others => 9,
            RecordRefusal::Sample => 10,
        }
    }
}

// As `bad_depth` of checks, of a byte. One function for both would be no plainer: it is one comparison, and what the
// bench stands on is below checks.
fn depth_bad(depth: u8) -> bool
    ensures { result ≡ depth_bad depth }
{
    depth < 8 || 16 < depth
}

fn offsets_bad(beta: u8, tc: u8) -> bool
    ensures { result ≡ offsets_bad beta tc }
{
    12 < beta || 12 < tc
}

// A QP runs from -6 * (depth - 8) to 51.
fn qp_bad(depth: u8, qp: u8) -> bool
    requires { (8 ≤ depth) × (depth ≤ 16) }
    ensures { result ≡ qp_bad depth qp }
{
    qp < 64 - 6 * (depth - 8) || 64 + 51 < qp
}

// The bytes that are neither depth nor offset: bS, both QPs and the two zeros.
fn others_bad(h: Head) -> bool
    requires { (8 ≤ h.depth) × (h.depth ≤ 16) }
    ensures { result ≡ others_bad h }
{
    let p = qp_bad(h.depth, h.qpp);
    let q = qp_bad(h.depth, h.qpq);
    (2 < h.bs) | p | q | (0 < h.zero6) | (0 < h.zero7)
}

fn one_above(largest: u16, samples: &[u16]) -> bool
    ensures { result ≡ list_any (nat_lt largest) samples.now }
{
    samples.iter().any(|s| largest < *s)
}

fn line_above(largest: u16, l: Line) -> bool
    ensures { result ≡ line_above largest l }
{
    one_above(largest, &[l.p3, l.p2, l.p1, l.p0, l.q0, l.q1, l.q2, l.q3])
}

fn one_line_above(largest: u16, lines: &[Line]) -> bool
    ensures { result ≡ list_any (line_above largest) lines.now }
{
    lines.iter().any(|l| line_above(largest, *l))
}

impl Record<'_> {
    // The first cause, if there is one.
    pub fn check(self) -> Result<(), RecordRefusal>
        ensures { numbered result ≡ refusal_of self.entry.bytes.now }
    {
        let h = self.head();
        if depth_bad(h.depth) {
            return Err(RecordRefusal::Depth);
        }
        if offsets_bad(h.beta, h.tc) {
            return Err(RecordRefusal::Offsets);
        }
        if others_bad(h) {
            return Err(RecordRefusal::Others);
        }
        if self.samples_above(ints::largest_at(h.depth as u32)) {
            return Err(RecordRefusal::Sample);
        }
        Ok(())
    }

    fn samples_above(self, largest: u16) -> bool
        ensures { result ≡ samples_above largest self.entry.bytes.now }
    {
        one_line_above(largest, &self.lines())
    }
}
