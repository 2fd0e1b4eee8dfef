//! A plan from its text, question by question.
ghost use Rattle.std.specs.Prelude.{◌≡◌};
ghost use Rattle.notation.specs.Reading.{read_plan, whole as whole_text};
ghost use Rattle.plan.specs.Views.{planned, Over, Right, empty_plan};

use crate::Plan;
use crate::alphabet::Alphabet;
use crate::steps::Scanner;
use notation::{LineFault, PlanRefusal};

/// The most bytes that a text may have.
const MOST_BYTES: usize = 65536;

/// The most lines that a text may have.
const MOST_LINES: usize = 32;

/// The most steps that all lines of a text together may have.
const MOST_STEPS: usize = 64;

/// Whether the text is not too long, and its last byte ends a line.
#[tactic(auto, using(notation::proofs::Turns::whole_none))]
fn whole(text: &[u8]) -> bool
    ensures { result ≡ whole_text text.now }
{
    match text {
        [.., b'\n'] => text.len() <= MOST_BYTES,
        _ => false,
    }
}

impl Plan {
    /// The plan without patterns, over so many letters. No text reads as this one.
    pub fn empty(letters: u8) -> Result<Plan, PlanRefusal>
        ensures answer { planned result ≡ empty_plan letters }
        ensures letters { Over letters result }
    {
        Ok(Plan::bare(Alphabet::new(letters)?))
    }

    /// The plan that the text writes over so many letters, or the first question that it answers no.
    pub fn read(letters: u8, text: &[u8]) -> Result<Plan, PlanRefusal>
        ensures answer { planned result ≡ read_plan letters text.now }
        ensures letters { Over letters result }
        ensures right { Right letters text.now result }
    {
        let mut plan = Plan::empty(letters)?;
        if !whole(text) {
            return Err(PlanRefusal::Text);
        }
        let mut lines = Scanner {
            alphabet: plan.alphabet,
            rest: text,
        };
        while !lines.is_empty() {
            let number = plan.spans.len() + 1;
            if number > MOST_LINES {
                return Err(PlanRefusal::Line(number, LineFault::TooManyLines));
            }
            let pattern = lines
                .line(MOST_STEPS - plan.steps.len())
                .map_err(|fault| PlanRefusal::Line(number, fault))?;
            plan = plan.with(pattern.as_slice());
        }
        Ok(plan)
    }
}
