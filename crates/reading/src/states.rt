//! A reading outside a search, and inside one: two types, so that the order of the calls is settled where they are written.
ghost use Rattle.std.specs.Prelude.{◌≡◌, ◌≤◌};
ghost use Rattle.pattern.specs.Patterns.{shortest};
ghost use Rattle.pattern.specs.Images.{images_of};
ghost use Rattle.automaton.specs.Wrong.{NoWrong};
ghost use Rattle.plan.specs.Views.{letters_of, patterns_of};
ghost use Rattle.sheet.specs.Views.{table_of, automaton_of};
ghost use Rattle.reading.specs.Spots.{Roomy};

use crate::spot::Spot;
use plan::Plan;
use sheet::Sheet;

mod admit;
mod calls;
mod next;

/// A reading in which no search is begun. Its sheet has no wrong word for its plan.
#[derive(Drop)]
pub struct Reading<T> {
    /// What is read.
    trace: T,
    /// What is looked for.
    plan: Plan,
    /// The automaton that it is looked for with.
    sheet: Sheet,
    ghost right: { NoWrong (letters_of plan) (images_of (patterns_of plan)) (automaton_of sheet) },
    ghost lettered: { (table_of sheet).letters ≡ letters_of plan },
    ghost least: { (table_of sheet).shortest ≡ shortest (patterns_of plan) },
}

/// A reading in which a search is begun.
// What ties it to its trace's row (`Stands`) is in contracts: a ghost field for it would ask for `T: Trace` wherever the type is named.
#[derive(Drop)]
pub struct Search<T> {
    /// The reading that is searched.
    reading: Reading<T>,
    /// Where the search is.
    at: Spot,
    /// How many hits were answered.
    hits: usize,
    ghost roomy: { Roomy at },
    ghost few: { hits ≤ at.fetches },
}
