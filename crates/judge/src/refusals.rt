//! Why a sheet is not accepted, or not drawn.
ghost use Rattle.std.specs.Prelude.{◌≡◌};
ghost use Rattle.judge.specs.Refusals.{number_of, draw_number_of};
ghost use Rattle.sheet.specs.declared.refusals.Unmade.TheVariants.{Refused as RefusedFor};

use sheet::Unmade;

/// The question about a sheet, for a plan, that was answered by no.
#[derive(Clone, Copy, Debug, PartialEq, Eq)]
pub enum JudgeRefusal {
    /// Has the sheet the plan's letters?
    Letters,
    /// Is its shortest length the plan's?
    Shortest,
    /// Are there 65 bytes for a word, and is there a group of four words in the memory?
    Room,
    /// Do the words before the first wrong one (all words if none is wrong) show at most as many pairs as there are groups?
    Pairs,
    /// Is no word wrong? The first wrong word, of so many letters, stands in the word buffer.
    Word(usize),
}

impl JudgeRefusal {
    /// The number of the refusal.
    pub fn number(self) -> u8
        ensures answer { result ≡ number_of self }
    {
        // A refusal with a length in it is not cast, so the numbers stand here and not at the variants.
        match self {
            JudgeRefusal::Letters => 32,
            JudgeRefusal::Shortest => 33,
            JudgeRefusal::Room => 34,
            JudgeRefusal::Pairs => 35,
            JudgeRefusal::Word(_) => 36,
        }
    }
}

/// The question about drawing that was answered by no.
#[derive(Clone, Copy, Debug, PartialEq, Eq)]
pub enum DrawRefusal {
    /// Has the working memory 1,020 words?
    Words = 20,
    /// Do 255 states suffice?
    States = 21,
}

impl DrawRefusal {
    /// The number of the refusal.
    pub fn number(self) -> u8
        ensures answer { result ≡ draw_number_of self }
    {
        // Each enum casts itself: a trait over all refusals would ask for this body in each `impl`.
        self as u8
    }
}

/// Why no sheet was drawn: it was refused, or memory for its states was wanting, which says nothing about the plan.
pub type DrawError = Unmade<DrawRefusal>;

// By hand: a derived one has no contract, and clauses name what this gives.
impl From<DrawRefusal> for DrawError {
    ghost from_gives = { λ e r. r ≡ RefusedFor e };

    fn from(refusal: DrawRefusal) -> DrawError {
        DrawError::Refused(refusal)
    }
}
