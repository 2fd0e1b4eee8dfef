//! A plan: the patterns that a search looks for, read from text, and where a word fits in them.
//!
//! A plan is a small value that is copied freely. [`Plan::read`] makes one from its text, [`Plan::empty`] makes the one
//! without patterns. A word is read from the log backwards, so its text in log order grows at the front, a letter at a
//! time: [`Plan::first`] gives the fits of one letter, and [`Plan::extend`] those of a text with one letter more before it.
//! From the fits of a text alone, [`Plan::marks`] tells which patterns have it as image and [`Plan::is_prefix`] whether an
//! image goes on after it.
//!
//! ```
//! let plan = Plan::read(26, b"ABA\n")?;
//! let a = plan.first(0);
//! let ba = plan.extend(a, 1);
//! let aba = plan.extend(ba, 0);
//! assert_eq!(rt; plan.marks(aba), 1);
//! ```
#![tactic(auto)]

ghost use Rattle.plan.specs.Spans.{items};
ghost use Rattle.plan.specs.Tables.{Tables};

use alphabet::Alphabet;
use copy_vec::CopyVec;
use span::Span;

mod alphabet;
mod build;
mod copy_vec;
mod fits;
mod lines;
mod read;
mod span;
mod steps;

/// A plan: at most 32 patterns over 1 to 32 letters, with at most 64 steps in all.
/// The steps are numbered through all patterns, one after the other, and bit g of a set of steps stands for step g.
#[derive(Clone, Copy, Debug)]
pub struct Plan {
    alphabet: Alphabet,
    /// The letters that each step admits: bit a stands for the letter a.
    steps: CopyVec<u32, 64>,
    /// The steps of each pattern.
    spans: CopyVec<Span, 32>,
    /// The length of the shortest pattern, 0 where there is none.
    shortest: u8,
    /// The length of the longest pattern, 0 where there is none.
    longest: u8,
    /// For each letter, the set of the steps that admit it.
    admit: [u64; 32],
    /// The set of the first steps of the patterns.
    starts: u64,
    /// The set of the last steps of the patterns.
    ends: u64,
    ghost tables: { Tables alphabet.letters (items spans) (items steps) shortest longest admit starts ends },
}
