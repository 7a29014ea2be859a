// Why a program reads no further record.
ghost use Rattle.std.specs.Prelude.{◌≡◌, Some};
ghost use Rattle.picture_record.specs.Stops.{text_of};
ghost use Rattle.picture_record.specs.declared.stops.Stop.TheVariants.{Output};

use std::{fmt, io};

#[derive(Clone, Copy, Debug, PartialEq, Eq)]
pub enum Stop {
    // There is none.
    End,
    // The output takes no more.
    Output,
    // The input ends within the record.
    Short,
    // The record begins with no picture's mark.
    NoPicture,
    // One of its lists is longer than what the program holds.
    TooLarge,
    // Its part does not lie in its plane.
    Outside,
}

impl fmt::Display for Stop {
    ghost output = { λ stop. Some (text_of stop) };

    fn fmt<W: fmt::Write>(&self, f: &mut fmt::Formatter<W>) -> fmt::Result {
        match self {
            Stop::End => write!(f, "no further record"),
            Stop::Output => write!(f, "the output could not be written"),
            Stop::Short => write!(f, "short"),
            Stop::NoPicture => write!(f, "no picture"),
            Stop::TooLarge => write!(f, "too large"),
            Stop::Outside => write!(f, "outside"),
        }
    }
}

impl From<io::Error> for Stop {
    ghost from_gives = { λ _ stop. stop ≡ Output };

    fn from(_error: io::Error) -> Stop {
        Stop::Output
    }
}
