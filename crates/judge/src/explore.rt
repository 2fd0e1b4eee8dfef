//! The exploration: all words in word order, as far as they lead to new nodes and the memory has room for these.
ghost use Rattle.std.specs.Prelude.{◌≡◌, ℕ, ◌+◌, ◌*◌, ◌<◌, ◌≤◌, length};
ghost use Rattle.exploration.specs.Cells.{Sound};
ghost use Rattle.judge.specs.Tables.{words_in, Same};
ghost use Rattle.judge.specs.Exploring.{After, Explored};

use crate::machine::{Machine, Wrong};
use crate::table::Table;

/// Why an exploration stops before it has found all nodes.
#[derive(Clone, Copy, Debug, PartialEq, Eq)]
pub(crate) enum Stop {
    /// This letter of this entry is the first fault.
    Faulty(usize, u8),
    /// There are more nodes than the table has room for.
    Full,
}

impl Table<'_> {
    /// Settles a letter of entry `row`.
    fn take_turn<M: Machine>(&mut self, machine: &M, row: usize, letter: u8) -> Result<(), Stop>
        requires sound { Sound self.old.letters (M.Machine.meaning machine.now) (words_in self.old) self.old.size row letter }
        requires entry { row < self.old.size }
        requires spelt { letter < self.old.letters }
        requires few { self.old.letters ≤ 32 }
        ensures answer { After self.new.letters (M.Machine.meaning machine.now) (words_in self.new) self.new.size row letter result }
        ensures same { Same self.old self.new }
    {
        // Five ways on, each a decision: no conversion of an error.
        match machine.step(self.node(row), letter) {
            Err(Wrong) => Err(Stop::Faulty(row, letter)),
            Ok(None) => Ok(()),
            Ok(Some(node)) if self.find(node).is_some() => Ok(()),
            Ok(Some(_)) if self.size == self.entries.len() => Err(Stop::Full),
            Ok(Some(node)) => {
                self.push(row, letter, node);
                Ok(())
            }
        }
    }

    /// Explores the machine, in word order, in an empty table.
    pub(crate) fn explore<M: Machine>(&mut self, machine: &M) -> Result<(), Stop>
        requires empty { self.old.size ≡ 0 }
        requires room { 1 ≤ length self.old.entries.now }
        requires few { self.old.letters ≤ 32 }
        ensures answer { Explored self.new.letters (M.Machine.meaning machine.now) (words_in self.new) self.new.size result }
        ensures same { Same self.old self.new }
    {
        self.push(0, 0, machine.start());
        // The rows are counted, since the table grows while they are walked; a letter is a number.
        let mut row = 0;
        while row < self.size {
            for letter in 0..self.letters {
                self.take_turn(machine, row, letter)?;
            }
            row += 1;
        }
        Ok(())
    }
}
