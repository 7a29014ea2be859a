// The bytes and the samples of a record.
ghost use Rattle.std.specs.Prelude.{◌≡◌, ◌+◌, ◌*◌, ◌≤◌, ◌<◌, length, MatchOption};
ghost use Rattle.bench_record.specs.Record.{head_of, sample_at, line_of_record, lines_of};

use lines::Line;

// The bytes before the samples. A QP's byte is 64 more than the QP, an offset's 6 more than the offset.
#[derive(Clone, Copy)]
pub struct Head {
    pub depth: u8,
    pub bs: u8,
    pub qpp: u8,
    pub qpq: u8,
    pub beta: u8,
    pub tc: u8,
    pub zero6: u8,
    pub zero7: u8,
}

// A record that is lent to be read: the first 72 of these bytes.
#[derive(Clone, Copy)]
pub struct Record<'a> {
    pub bytes: &'a [u8],
    pub ghost whole: { 72 ≤ length bytes.now },
}

impl<'a> Record<'a> {
    // The record that these bytes begin with, where there are so many.
    pub fn first(input: &'a [u8]) -> Option<Record<'a>>
        ensures { MatchOption result (length input.now < 72)
            (λ r. (72 ≤ length input.now) × (r.bytes.now ≡ input.now)) }
    {
        if input.len() < 72 {
            return None;
        }
        Some(Record { bytes: input })
    }

    // Field by field, which is no longer than naming each byte's place elsewhere: no derive reads a struct from bytes.
    pub fn head(self) -> Head
        ensures { result ≡ head_of self.entry.bytes.now }
    {
        let bytes = self.bytes;
        Head {
            depth: bytes[0],
            bs: bytes[1],
            qpp: bytes[2],
            qpq: bytes[3],
            beta: bytes[4],
            tc: bytes[5],
            zero6: bytes[6],
            zero7: bytes[7],
        }
    }

    pub fn lines(self) -> [Line; 4]
        ensures { result ≡ lines_of self.entry.bytes.now }
    {
        [self.line(0), self.line(1), self.line(2), self.line(3)]
    }

    // Line j of the four.
    fn line(self, j: usize) -> Line
        requires { j < 4 }
        ensures { result ≡ line_of_record self.entry.bytes.now j }
    {
        let at = 8 + 16 * j;
        Line {
            p3: sample(self.bytes, at),
            p2: sample(self.bytes, at + 2),
            p1: sample(self.bytes, at + 4),
            p0: sample(self.bytes, at + 6),
            q0: sample(self.bytes, at + 8),
            q1: sample(self.bytes, at + 10),
            q2: sample(self.bytes, at + 12),
            q3: sample(self.bytes, at + 14),
        }
    }
}

// The sample at byte `at`: the low byte comes first.
fn sample(bytes: &[u8], at: usize) -> u16
    requires { at + 1 < length bytes.now }
    ensures { result ≡ sample_at bytes.now at }
{
    u16::from_le_bytes([bytes[at], bytes[at + 1]])
}
