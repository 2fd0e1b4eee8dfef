//! Why a cell answers no letter.
ghost use Rattle.trace.specs.Faults.{ForDamage, Retold};

/// There is no such cell, or the cell is damaged, and the damage is what its kind of log says of it. (An error with a name for each case:
/// an `Option` of a damage would not say what none means.)
#[derive(Clone, Copy, Drop, PartialEq, Eq, Debug)]
pub enum Fault<D> {
    NoSuchCell,
    Damaged(D),
}

/// A damage with the log that it comes from, of the two that a join shows. (No `Result`: neither log is the other's error.)
#[derive(Clone, Copy, Drop, PartialEq, Eq, Debug)]
pub enum Origin<D> {
    First(D),
    Second(D),
}

impl<D> Fault<D> {
    /// The same fault, its damage told anew by `tell`.
    pub(crate) fn map<E, F: FnOnce(D) -> E>(self, tell: F) -> Fault<E>
        requires { ForDamage self (F.pre tell) }
        ensures { Retold (F.post tell) self result }
    {
        match self {
            Fault::NoSuchCell => Fault::NoSuchCell,
            Fault::Damaged(damage) => Fault::Damaged(tell(damage)),
        }
    }
}
