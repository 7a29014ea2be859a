// Text put together from its front, bytes and numbers in decimal: in a buffer that the caller lends, or in a `Text`,
// which has its own.
#![tactic(auto)]

ghost use Rattle.std.specs.Prelude.{◌≡◌, ◌+◌, ◌≤◌, ◌<◌, [], ◌∷◌, ◌++◌, length};
ghost use Rattle.text.specs.Text.{decimal};

mod puts;

pub use puts::{put_byte, put_bytes, put_number, put_number_then};
use std::marker::Model;

// The text has N bytes at most. What stands in the buffer past its length is no part of it.
#[derive(Drop)]
pub struct Text<const N: usize> {
    buffer: [u8; N],
    len: usize,
}

impl<const N: usize> Model for Text<N> {
    ghost use Rattle.std.specs.Prelude.{◌≡◌, ◌≤◌, ℕ, List, length, take};

    ghost Value = { List ℕ };

    ghost view = { λ t. take t.len t.buffer };

    ghost invariant = { λ t. (t.len ≤ N) × (length t.buffer ≡ N) };
}

impl<const N: usize> Text<N> {
    pub fn new() -> Text<N>
        ensures { result ≡ [] }
    {
        Text {
            buffer: [0; N],
            len: 0,
        }
    }

    pub fn bytes(&self) -> &[u8]
        ensures value { result.now ≡ self.now }
        ensures upper_bound { length result.now ≤ N }
    {
        &self.buffer[..self.len]
    }

    pub fn push_byte(&mut self, b: u8)
        requires { length self.old < N }
        ensures { self.new ≡ self.old ++ (b ∷ []) }
    {
        self.len = put_byte(&mut self.buffer, self.len, b);
    }

    pub fn push_bytes(&mut self, bytes: &[u8])
        requires { length self.old + length bytes.now ≤ N }
        ensures { self.new ≡ self.old ++ bytes.now }
    {
        self.len = put_bytes(&mut self.buffer, self.len, bytes);
    }

    // A u16 has five digits at most.
    pub fn push_number(&mut self, n: u16)
        requires { length self.old + 5 ≤ N }
        ensures puts { self.new ≡ self.old ++ decimal n }
        ensures upper_bound { length self.new ≤ length self.old + 5 }
    {
        self.len = put_number(&mut self.buffer, self.len, n);
    }

    // A number and the byte after it.
    pub fn push_number_then(&mut self, n: u16, after: u8)
        requires { length self.old + 6 ≤ N }
        ensures puts { self.new ≡ self.old ++ (decimal n ++ (after ∷ [])) }
        ensures upper_bound { length self.new ≤ length self.old + 6 }
    {
        self.len = put_number_then(&mut self.buffer, self.len, n, after);
    }
}
