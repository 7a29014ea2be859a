// Text in a buffer that the caller lends: each function puts bytes at `at` and answers the place past them, where the
// next function goes on.
ghost use Rattle.std.specs.Prelude.{◌+◌, ◌≤◌, ◌<◌, [], ◌∷◌, ◌++◌, length};
ghost use Rattle.text.specs.Text.{Puts, decimal};

pub fn put_byte(out: &mut [u8], at: usize, b: u8) -> usize
    requires { at < length out.old }
    ensures { Puts out.old out.new at (b ∷ []) result }
{
    out[at] = b;
    at + 1
}

pub fn put_bytes(out: &mut [u8], at: usize, s: &[u8]) -> usize
    requires { at + length s.now ≤ length out.old }
    ensures { Puts out.old out.new at s.now result }
{
    let mut next = at;
    for b in s {
        next = put_byte(out, next, *b);
    }
    next
}

// A u16 has five digits at most.
pub fn put_number(out: &mut [u8], at: usize, n: u16) -> usize
    requires { at + 5 ≤ length out.old }
    ensures puts { Puts out.old out.new at (decimal n) result }
    ensures upper_bound { result ≤ at + 5 }
{
    put_digits(out, at, n)
}

// A number and the byte after it.
pub fn put_number_then(out: &mut [u8], at: usize, n: u16, after: u8) -> usize
    requires { at + 6 ≤ length out.old }
    ensures puts { Puts out.old out.new at (decimal n ++ (after ∷ [])) result }
    ensures upper_bound { result ≤ at + 6 }
{
    let next = put_number(out, at, n);
    put_byte(out, next, after)
}

// Asks room for n's own digits and no more, so that the call for the digits before the last can be met. By hand, not
// by `write!`, since the edits wrong_zero and last_digit_over_the_first of must-fail/ change a digit.
fn put_digits(out: &mut [u8], at: usize, n: u16) -> usize
    requires { at + length (decimal n) ≤ length out.old }
    ensures { Puts out.old out.new at (decimal n) result }
{
    if n < 10 {
        put_byte(out, at, b'0' + n as u8)
    } else {
        let last = put_digits(out, at, n / 10);
        put_byte(out, last, b'0' + (n % 10) as u8)
    }
}
