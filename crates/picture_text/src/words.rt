// The words of a line.
ghost use Rattle.std.specs.Prelude.{◌≡◌, OnOk, Some};
ghost use Rattle.std.specs.Io.KnownBytes.{Appends};
ghost use Rattle.picture.specs.Lent.{planes_lent};
ghost use Rattle.picture_text.specs.Lines.{hex, fingerprints_of, fingerprints_text, refused_line};

use fingerprint::fingerprint;
use ledger::Refusal;
use picture::Planes;
use std::io::Write;
use std::{fmt, io};

// A number in N hexadecimal digits.
#[derive(Clone, Copy)]
pub(crate) struct Hex<const N: usize>(pub u64);

impl<const N: usize> fmt::Display for Hex<N> {
    ghost output = { λ word. Some (hex N word.0) };

    fn fmt<W: fmt::Write>(&self, f: &mut fmt::Formatter<W>) -> fmt::Result {
        let digits = N;
        let number = self.0;
        write!(f, "{number:0digits$x}")
    }
}

// A number of 32 bits, eight digits.
pub(crate) fn word(number: u32) -> Hex<8>
    ensures { result.0 ≡ number }
{
    Hex(u64::from(number))
}

// The fingerprints of a picture's three planes, sixteen digits each.
#[derive(Clone, Copy)]
pub struct Fingerprints {
    pub y: u64,
    pub cb: u64,
    pub cr: u64,
}

impl Fingerprints {
    pub fn of(planes: &Planes<'_>) -> Fingerprints
        ensures { result ≡ fingerprints_of (planes_lent planes.now) }
    {
        Fingerprints {
            y: fingerprint(planes.y),
            cb: fingerprint(planes.cb),
            cr: fingerprint(planes.cr),
        }
    }
}

impl fmt::Display for Fingerprints {
    ghost output = { λ planes. Some (fingerprints_text planes) };

    #[tactic(auto, unfolding(crate::specs::Lines::fingerprints_text))]
    fn fmt<W: fmt::Write>(&self, f: &mut fmt::Formatter<W>) -> fmt::Result {
        let y = Hex::<16>(self.y);
        let cb = Hex::<16>(self.cb);
        let cr = Hex::<16>(self.cr);
        write!(f, "{y} {cb} {cr}")
    }
}

// The line of what is refused: its number, and the refusal's number and place.
pub(crate) fn put_refused<W: Write>(output: &mut W, number: u64, refusal: Refusal) -> io::Result<()>
    ensures { OnOk result (Appends (W.contents output.old) (W.contents output.new) (refused_line number refusal)) }
{
    writeln!(output, "{number} {} {}", refusal.number(), refusal.place())
}
