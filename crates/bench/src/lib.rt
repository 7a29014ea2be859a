// The segment bench: the text that one 72-byte record prints.
#![tactic(auto)]

mod segment;

ghost use Rattle.std.specs.Prelude.{◌≡◌, ◌≤◌, ◌+◌, ◌++◌, length};
ghost use Rattle.bench.specs.Bench.{bench_text, record_text};

use bench_record::Record;
use segment::put_segment;
use text::Text;

// The text of a record; none is longer than 25 + 4 * 48 bytes.
// The input is what was left to read. Where that is more than a record, the first one counts.
pub fn bench_text(input: &[u8]) -> Text<256>
    ensures text { result ≡ bench_text input.now }
    ensures upper_bound { length result ≤ 256 }
{
    let mut text = Text::new();
    if let Some(r) = Record::first(input) {
        put_record(&mut text, r);
    } else if !input.is_empty() {
        text.push_bytes(b"short\n");
    }
    text
}

// A whole record: its refusal, or its segment.
fn put_record(out: &mut Text<256>, r: Record<'_>)
    requires { length out.old + 217 ≤ 256 }
    ensures puts { out.new ≡ out.old ++ record_text r.entry.bytes.now }
    ensures upper_bound { length out.new ≤ length out.old + 217 }
{
    match r.check() {
        Ok(()) => put_segment(out, r),
        Err(refusal) => bench_lines::put_refusal(out, refusal.number()),
    }
}
