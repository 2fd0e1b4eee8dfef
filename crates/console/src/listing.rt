//! The lines of a listing of an event log: one for each cell. (The line with the counts is that of the log's tally.)
ghost use Rattle.std.specs.Prelude.{◌≡◌, Some};
ghost use Rattle.console.specs.Listings.{damage_text, cell_text, note_of, line_of};

use logs::cause::EventDamage;
use std::fmt;
use trace::fault::Fault;
use trace::signs::sign_of;

/// A damage by the number of its cause, whatever number that is, and its offset in the log.
#[derive(Clone, Copy, Drop, PartialEq, Eq, Debug)]
pub struct DamageNote {
    pub cause: u8,
    pub offset: usize,
}

impl fmt::Display for DamageNote {
    ghost output = { λ note. Some (damage_text note) };

    fn fmt<W: fmt::Write>(&self, f: &mut fmt::Formatter<W>) -> fmt::Result {
        let cause = self.cause;
        let offset = self.offset;
        write!(f, "cause {cause} at byte {offset}")
    }
}

// By hand: a derived one has no contract, and the line of a cell names what this gives.
impl From<EventDamage> for DamageNote {
    ghost from_gives = { λ damage note. note ≡ note_of damage };

    fn from(damage: EventDamage) -> DamageNote {
        DamageNote {
            cause: damage.cause.number(),
            offset: damage.offset,
        }
    }
}

/// What there is to say of a cell. (No `Result`: it holds what is printed, a sign in place of the letter.)
#[derive(Clone, Copy, Drop, PartialEq, Eq, Debug)]
pub enum CellLine {
    /// There is no such cell.
    Missing { cell: usize },
    /// It has a letter, which is written by its sign.
    Letter { cell: usize, sign: char },
    /// It is damaged.
    Damaged { cell: usize, damage: DamageNote },
}

impl fmt::Display for CellLine {
    ghost output = { λ line. Some (cell_text line) };

    fn fmt<W: fmt::Write>(&self, f: &mut fmt::Formatter<W>) -> fmt::Result {
        match *self {
            CellLine::Missing { cell } => write!(f, "{cell} MISSING"),
            CellLine::Letter { cell, sign } => write!(f, "{cell} {sign}"),
            CellLine::Damaged { cell, damage } => write!(f, "{cell} DAMAGED {damage}"),
        }
    }
}

/// The line of a cell of an event log, by what asking for it answered. (A log's letters all have signs; a number that is no letter is shown
/// as `?`. A `From` of the number with the answer would be no plainer.)
pub fn cell_line(cell: usize, answer: Result<u8, Fault<EventDamage>>) -> CellLine
    ensures { result ≡ line_of cell answer }
{
    match answer {
        Ok(letter) => CellLine::Letter {
            cell,
            sign: sign_of(letter).unwrap_or('?'),
        },
        Err(Fault::NoSuchCell) => CellLine::Missing { cell },
        Err(Fault::Damaged(damage)) => CellLine::Damaged {
            cell,
            damage: DamageNote::from(damage),
        },
    }
}
