//! A trace that is lent: its borrower reads what its owner has.
use crate::fault::Fault;
use crate::interface::Trace;

impl<'a, T: Trace> Trace for &'a T {
    type Damage = T::Damage;

    const LETTER_COUNT: u8 = T::LETTER_COUNT;

    ghost alphabet = { T.Trace.alphabet };

    ghost row = { λ s. T.Trace.row s.now };

    ghost lawful = { λ s. T.Trace.lawful s.now };

    fn letters(&self) -> u8 {
        let owner: &T = *self;
        owner.letters()
    }

    fn len(&self) -> usize {
        let owner: &T = *self;
        owner.len()
    }

    fn cell(&self, i: usize) -> Result<u8, Fault<T::Damage>> {
        let owner: &T = *self;
        owner.cell(i)
    }
}
