//! Sheets are made state by state and arrow by arrow.
ghost use Rattle.std.specs.Prelude.{◌≡◌, replicate, if◌then◌else◌, Ok};
ghost use Rattle.sheet.specs.Views.{table_of, Gives, Grows};
ghost use Rattle.sheet.specs.Tables.{single as single_table, has_state, has_places, redirected, most_letters};
ghost use Rattle.sheet.specs.Files.{ask, is_counted};
ghost use Rattle.sheet.specs.declared.refusals.SheetRefusal.TheVariants.{Counts};

use crate::states::{ArrowNumber, State};
use crate::{GrowthError, MOST_LETTERS, MOST_STATES, Sheet, SheetError, SheetRefusal, StateNumber};
use std::alloc::Global;

/// A state without arrows.
fn plain(marks: u32, prefix: bool) -> State
    ensures answer { result ≡ record { marks = marks; prefix = prefix; arrows = replicate most_letters 0 } }
{
    State {
        marks,
        prefix,
        arrows: [0; MOST_LETTERS],
    }
}

/// Whether the number is that of one of so many states.
fn is_state(count: usize, state: StateNumber) -> bool
    ensures answer { result ≡ has_state count state }
{
    1 <= state && state as usize <= count
}

impl Sheet {
    /// The sheet of one state without marks and arrows, unless there are not 1 to 32 letters.
    pub fn single(heap: Global, letters: u8, shortest: u8) -> Result<Sheet, SheetError>
        ensures answer { Gives (ask (is_counted 1 letters) Counts (Ok (single_table letters shortest))) result }
    {
        if letters == 0 || letters as usize > MOST_LETTERS {
            return Err(SheetError::Refused(SheetRefusal::Counts));
        }
        let mut states = Vec::with_capacity(heap, 1)?;
        states.push_reserved(plain(0, false));
        Ok(Sheet {
            letters,
            shortest,
            states,
        })
    }

    /// Adds a state without arrows, and answers its number.
    pub fn push_state(&mut self, marks: u32, prefix: bool) -> Result<StateNumber, GrowthError>
        ensures answer { Grows (table_of self.old) marks prefix (table_of self.new) result }
    {
        if self.states.len() == MOST_STATES {
            return Err(GrowthError::Full);
        }
        self.states.push(plain(marks, prefix))?;
        Ok(self.states.len() as StateNumber)
    }

    /// Whether both states and the letter exist.
    fn has_places(&self, from: StateNumber, letter: u8, to: StateNumber) -> bool
        ensures answer { result ≡ has_places (table_of self.now) from letter to }
    {
        let count = self.states.len();
        is_state(count, from) && is_state(count, to) && letter < self.letters
    }

    /// Lets the arrow of a state by a letter lead to a state; answers whether both states and the letter exist, and does nothing otherwise.
    pub fn set_arrow(&mut self, from: StateNumber, letter: u8, to: StateNumber) -> bool
        ensures answer { result ≡ has_places (table_of self.old) from letter to }
        ensures held { table_of self.new ≡ (if result then redirected (table_of self.old) from letter to else table_of self.old) }
    {
        if !self.has_places(from, letter, to) {
            return false;
        }
        self.states[from as usize - 1].arrows[letter as usize] = to as ArrowNumber;
        true
    }
}
