//! How many cells of a trace are letters, and how many are damaged.
ghost use Rattle.std.specs.Prelude.{◌≡◌, Some};
ghost use Rattle.trace.specs.Tallies.{tally_of, tally_text};

use crate::interface::Trace;
use std::fmt;

/// The cells of a trace, counted.
#[derive(Clone, Copy, Drop, PartialEq, Eq, Debug)]
pub struct Tally {
    pub letters: usize,
    pub damaged: usize,
}

/// The line that tells both counts.
impl fmt::Display for Tally {
    ghost output = { λ tally. Some (tally_text tally) };

    fn fmt<W: fmt::Write>(&self, f: &mut fmt::Formatter<W>) -> fmt::Result {
        let letters = self.letters;
        let damaged = self.damaged;
        write!(f, "LETTERS {letters} DAMAGED {damaged}")
    }
}

/// The tally of any trace, of any kind and under any pile of layers.
pub fn tally_of<T: Trace>(trace: &T) -> Tally
    ensures { result ≡ tally_of (T.Trace.row trace.now) }
{
    let len = trace.len();
    let letters = (0..len).filter(|&i| trace.cell(i).is_ok()).count();
    Tally {
        letters,
        damaged: len - letters,
    }
}
