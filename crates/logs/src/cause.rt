//! The causes of damage, and what each kind of log tells of a damaged cell.
ghost use Rattle.std.specs.Prelude.{◌≡◌, Some};
ghost use Rattle.logs.specs.Causes.{cause_number, damage_text};
ghost use Rattle.logs.specs.declared.cause.Cause.TheVariants.{NotASign};

use std::fmt;

/// Why a cell is damaged.
#[derive(Clone, Copy, Drop, PartialEq, Eq, Debug)]
pub enum Cause {
    /// The byte is no sign.
    NotASign = 1,
    /// The block's check does not hold.
    Check = 2,
    /// The block's number is not its place in the log.
    Number = 3,
    /// The block's fourth byte is not zero, or its count is not one that it may have.
    Header = 4,
    /// The record's minute or its code is out of range.
    Record = 5,
}

impl Cause {
    /// The number by which people know the cause, from 1 to 5.
    pub fn number(self) -> u8
        ensures { result ≡ cause_number self }
    {
        // Each enum casts itself: a trait over all such enums would ask for this body in each `impl`.
        self as u8
    }
}

/// The byte at this offset of a sign log is no sign.
#[derive(Clone, Copy, Drop, PartialEq, Eq, Debug)]
pub struct SignDamage {
    pub offset: usize,
}

impl SignDamage {
    /// A sign log knows one cause of damage.
    pub fn cause(self) -> Cause
        ensures { result ≡ NotASign }
    {
        Cause::NotASign
    }
}

/// The cause of damage in an event log, and the offset in the log's bytes of the block, or for `Cause::Record` of the record, that it concerns.
#[derive(Clone, Copy, Drop, PartialEq, Eq, Debug)]
pub struct EventDamage {
    pub cause: Cause,
    pub offset: usize,
}

/// The damage by the number of its cause, and its offset.
impl fmt::Display for EventDamage {
    ghost output = { λ damage. Some (damage_text damage) };

    fn fmt<W: fmt::Write>(&self, f: &mut fmt::Formatter<W>) -> fmt::Result {
        let cause = self.cause.number();
        let offset = self.offset;
        write!(f, "cause {cause} at byte {offset}")
    }
}
