// The numbers of a record, low byte first.
ghost use Rattle.std.specs.Prelude.{◌≡◌, ◌+◌, ◌*◌, ◌≤◌, length};
ghost use Rattle.picture_record.specs.Numbers.{word_at, halves};

// Word k of a list of bytes.
pub fn word(bytes: &[u8], k: usize) -> u32
    requires { 4 * k + 4 ≤ length bytes.now }
    ensures { result ≡ word_at bytes.now k }
{
    let at = 4 * k;
    u32::from_le_bytes([bytes[at], bytes[at + 1], bytes[at + 2], bytes[at + 3]])
}

// The numbers of 16 bits in `bytes`, as many as `out` has.
pub(crate) fn unpack(bytes: &[u8], out: &mut [u16])
    requires { 2 * length out.old ≤ length bytes.now }
    ensures { out.new ≡ halves bytes.now (length out.old) }
{
    for (k, number) in out.iter_mut().enumerate() {
        *number = u16::from_le_bytes([bytes[2 * k], bytes[2 * k + 1]]);
    }
}
