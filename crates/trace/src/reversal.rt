//! A layer that shows a trace from its end.
ghost use Rattle.std.specs.Prelude.{reverse};
ghost use Rattle.trace.specs.Rows.{lawful_reverse};

use crate::fault::Fault;
use crate::interface::Trace;

/// The same cells, the last one first.
#[derive(Clone, Copy, Drop, Debug)]
pub struct Reversal<T> {
    pub below: T,
}

impl<T: Trace> Trace for Reversal<T> {
    type Damage = T::Damage;

    const LETTER_COUNT: u8 = T::LETTER_COUNT;

    ghost alphabet = { T.Trace.alphabet };

    ghost row = { λ s. reverse (T.Trace.row s.below) };

    ghost lawful = { λ s. lawful_reverse (T.Trace.lawful s.below) };

    fn letters(&self) -> u8 {
        self.below.letters()
    }

    #[tactic(auto, using(crate::specs::Rows::rows))]
    fn len(&self) -> usize {
        self.below.len()
    }

    #[tactic(auto, using(crate::specs::Rows::rows))]
    fn cell(&self, i: usize) -> Result<u8, Fault<T::Damage>> {
        let n = self.below.len();
        if i >= n {
            return Err(Fault::NoSuchCell);
        }
        // A fault goes up by `?`, as through every layer.
        let letter = self.below.cell(n - 1 - i)?;
        Ok(letter)
    }
}
