//! The one line of a program whose input was refused.
ghost use Rattle.std.specs.Prelude.{Some};
ghost use Rattle.console.specs.Texts.{refused_text};

use std::fmt;

/// `REFUSED` and the refusal's number. (A program prints this for a refusal of any crate, so a number is all that the line knows of it.)
#[derive(Clone, Copy, Drop, PartialEq, Eq, Debug)]
pub struct Refused {
    pub number: u8,
}

impl fmt::Display for Refused {
    ghost output = { λ line. Some (refused_text line.number) };

    fn fmt<W: fmt::Write>(&self, f: &mut fmt::Formatter<W>) -> fmt::Result {
        let number = self.number;
        write!(f, "REFUSED {number}")
    }
}
