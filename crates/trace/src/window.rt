//! A layer that shows a part of a trace.
ghost use Rattle.trace.specs.Layers.{window};
ghost use Rattle.trace.specs.Rows.{lawful_window};

use crate::fault::Fault;
use crate::interface::Trace;

/// The cells from `from` up to, and without, `to`. Where `to` is past the end the window ends there; where `from` is not below its end it is empty.
#[derive(Clone, Copy, Drop, Debug)]
pub struct Window<T> {
    pub below: T,
    pub from: usize,
    pub to: usize,
}

impl<T: Trace> Trace for Window<T> {
    type Damage = T::Damage;

    const LETTER_COUNT: u8 = T::LETTER_COUNT;

    ghost alphabet = { T.Trace.alphabet };

    ghost row = { λ s. window s.from s.to (T.Trace.row s.below) };

    ghost lawful = { λ s. lawful_window s.from s.to (T.Trace.lawful s.below) };

    fn letters(&self) -> u8 {
        self.below.letters()
    }

    #[tactic(auto, using(crate::specs::Rows::rows))]
    fn len(&self) -> usize {
        self.to.min(self.below.len()).saturating_sub(self.from)
    }

    #[tactic(auto, using(crate::specs::Rows::rows))]
    fn cell(&self, i: usize) -> Result<u8, Fault<T::Damage>> {
        if i >= self.len() {
            return Err(Fault::NoSuchCell);
        }
        // A fault goes up by `?`, as through every layer.
        let letter = self.below.cell(self.from + i)?;
        Ok(letter)
    }
}
