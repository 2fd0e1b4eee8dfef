//! What the text of a plan may be: its signs, its refusals, and how it is read.
//!
//! A plan is written one pattern a line, each line ended by byte 10, and each sign is one byte. The letters 0 to 25 are
//! written `A` to `Z`, the letters 26 to 31 `a` to `f`. A step of a pattern is a letter's sign, a dot for every letter,
//! `[` signs `]` for one of those letters, or `[^` signs `]` for one of all the others.
//!
//! `specs/Reading` defines how a text is read, `specs/Grammar` which texts write which plan, and `specs/Refusals` why a
//! text is refused. The first is executable, and the two theorems here say that it is right by the other two.
#![tactic(auto)]

ghost use Rattle.std.specs.Prelude.{◌≡◌};
ghost use Rattle.notation.specs.Examples.{Examples};
ghost use Rattle.notation.specs.Grammar.{ReadsWhatIsWritten};
ghost use Rattle.notation.specs.Numbers.{number_of, line_of_refusal};
ghost use Rattle.notation.specs.Refusals.{RefusesForItsReason};

/// What a byte stands for in the text of a plan.
#[derive(Clone, Copy, PartialEq, Eq, Debug)]
pub enum Sign {
    /// The sign of this letter, which is one of the plan's.
    Letter(u8),
    Dot,
    Open,
    Close,
    Caret,
    /// Any other byte, and the sign of a letter that the plan does not have.
    Other,
}

/// What is wrong with a line, by the number of the question that it answers with no.
#[derive(Clone, Copy, PartialEq, Eq, Debug)]
pub enum LineFault {
    /// It comes after the last line that a plan may have.
    TooManyLines = 3,
    /// No step begins with the next byte.
    BadSign = 4,
    /// The opened bracket is not followed by signs of letters and its closing bracket.
    BadSet = 5,
    /// The step admits no letter.
    NoLetter = 6,
    /// The step comes after the last one that a plan may have.
    TooManySteps = 7,
    /// The line has no step.
    EmptyLine = 8,
}

/// Why a text is no plan.
#[derive(Clone, Copy, PartialEq, Eq, Debug)]
pub enum PlanRefusal {
    /// No alphabet has this many letters.
    Letters,
    /// The text is too long, or does not end with a line end.
    Text,
    /// The line, counted from 1, and what is wrong with it.
    Line(usize, LineFault),
}

impl PlanRefusal {
    /// The number of the question that was answered no.
    pub fn number(self) -> u8
        ensures answer { result ≡ number_of self }
    {
        // A refusal with a line in it is not cast, so the first two numbers stand here, and those of a line at its faults.
        match self {
            PlanRefusal::Letters => 1,
            PlanRefusal::Text => 2,
            PlanRefusal::Line(_, fault) => fault as u8,
        }
    }

    /// The line that is wrong, counted from 1, if it is a line.
    pub fn line(self) -> Option<usize>
        ensures answer { result ≡ line_of_refusal self }
    {
        match self {
            PlanRefusal::Line(line, _) => Some(line),
            _ => None,
        }
    }
}

/// A text is read as a plan exactly if it writes that plan, within the limits.
pub fn reads_what_is_written()
    ensures { ReadsWhatIsWritten }
{}

/// A text is refused so exactly if there is that reason.
#[tactic(auto, using(crate::proofs::Refusing::refuses_for_its_reason_lem))]
pub fn refuses_for_its_reason()
    ensures { RefusesForItsReason }
{}

/// The texts tried by hand are read as they should be.
#[tactic(auto, using(crate::proofs::Examples::examples))]
pub fn examples_hold()
    ensures { Examples }
{}
