// An answer as two numbers, for C, which has no such enum.
ghost use Rattle.std.specs.Prelude.{◌≡◌};
ghost use Rattle.ledger.specs.Numbered.{numbered, refused};

use crate::{Refusal, Verdict};

impl Refusal {
    // The ledger's number of a refusal.
    pub fn number(self) -> u32
        ensures { result ≡ (refused self).number }
    {
        match self {
            Refusal::Size => 1,
            Refusal::Format => 2,
            Refusal::Depth => 3,
            Refusal::CtbSize => 4,
            Refusal::Offset => 5,
            Refusal::Lengths => 6,
            Refusal::Slice(_) => 7,
            Refusal::TileStart(_) => 8,
            Refusal::Cell(_) => 9,
            Refusal::Sample(_) => 10,
        }
    }

    // The ledger's place of a refusal: 0 where it names none.
    pub fn place(self) -> u64
        ensures { result ≡ (refused self).place }
    {
        match self {
            Refusal::Slice(record) => record as u64,
            Refusal::TileStart(entry) => entry as u64,
            Refusal::Cell(cell) => cell as u64,
            Refusal::Sample(sample) => sample as u64,
            _ => 0,
        }
    }
}

// The ledger's number of an answer: 0 is acceptance.
pub fn number_of(answer: Verdict) -> u32
    ensures { result ≡ (numbered answer).number }
{
    match answer {
        Ok(()) => 0,
        Err(refusal) => refusal.number(),
    }
}

// The ledger's place of an answer: 0 where it names none.
pub fn place_of(answer: Verdict) -> u64
    ensures { result ≡ (numbered answer).place }
{
    match answer {
        Ok(()) => 0,
        Err(refusal) => refusal.place(),
    }
}
