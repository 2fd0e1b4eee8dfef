//! A layer that shows two logs of one kind, one after the other.
ghost use Rattle.std.specs.Prelude.{◌≡◌};
ghost use Rattle.trace.specs.Layers.{join, refault};
ghost use Rattle.trace.specs.Rows.{lawful_join};
ghost use Rattle.trace.specs.declared.fault.Origin.TheVariants.{First};

use crate::fault::{Fault, Origin};
use crate::interface::{MOST_CELLS, Trace};

/// The cells of the first log and then those of the second, up to `MOST_CELLS` of both together. Each damage is told with its origin.
#[derive(Clone, Copy, Drop, Debug)]
pub struct Join<T> {
    pub first: T,
    pub second: T,
}

impl<T: Trace> Trace for Join<T> {
    type Damage = Origin<T::Damage>;

    const LETTER_COUNT: u8 = T::LETTER_COUNT;

    ghost alphabet = { T.Trace.alphabet };

    ghost row = { λ s. join (T.Trace.row s.first) (T.Trace.row s.second) };

    ghost lawful = { λ s. lawful_join (T.Trace.lawful s.first) (T.Trace.lawful s.second) };

    fn letters(&self) -> u8 {
        self.first.letters()
    }

    #[tactic(auto, using(crate::specs::Rows::rows))]
    fn len(&self) -> usize {
        let first = self.first.len();
        let second = self.second.len();
        (first + second).min(MOST_CELLS)
    }

    #[tactic(auto, using(crate::specs::Rows::rows))]
    fn cell(&self, i: usize) -> Result<u8, Fault<Origin<T::Damage>>> {
        if i >= self.len() {
            return Err(Fault::NoSuchCell);
        }
        let n = self.first.len();
        if i < n {
            let letter = self.first.cell(i)?;
            Ok(letter)
        } else {
            self.second
                .cell(i - n)
                .map_err(|fault| fault.map(Origin::Second))
        }
    }
}

// A fault of the first log, as the join tells it: by this a `?` carries it up. Two types have one `From`, so a fault of the second is
// mapped where it comes.
impl<D> From<Fault<D>> for Fault<Origin<D>> {
    ghost from_gives = { λ x y. y ≡ refault First x };

    fn from(value: Fault<D>) -> Fault<Origin<D>> {
        value.map(Origin::First)
    }
}
