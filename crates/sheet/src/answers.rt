//! What a sheet answers about its states.
ghost use Rattle.std.specs.Prelude.{◌≡◌, length, option_copied};
ghost use Rattle.sheet.specs.Tables.{arrow_of};
ghost use Rattle.sheet.specs.Views.{table_of, state_at, automaton_of};

use crate::states::{ArrowNumber, State};
use crate::{Sheet, StateNumber};

/// The arrow that a number stands for; 0 is none.
fn arrow_in(number: ArrowNumber) -> Option<ArrowNumber>
    ensures { result ≡ arrow_of number }
{
    (number != 0).then_some(number)
}

impl Sheet {
    /// The number of letters.
    pub fn letters(&self) -> u8
        ensures answer { result ≡ (table_of self.now).letters }
    {
        self.letters
    }

    /// The shortest length.
    pub fn shortest(&self) -> u8
        ensures answer { result ≡ (table_of self.now).shortest }
    {
        self.shortest
    }

    /// The number of states.
    #[tactic(auto, using(crate::proofs::Places::count_is))]
    pub fn states(&self) -> usize
        ensures answer { result ≡ length (table_of self.now).states }
    {
        self.states.len()
    }

    /// The state of this number, if it exists.
    fn state(&self, state: StateNumber) -> Option<&State>
        ensures answer { option_copied result ≡ state_at self.now state }
    {
        // For 0 the place wraps round, past all states: one comparison finds out about both ends.
        self.states.get(state.wrapping_sub(1) as usize)
    }

    /// The state that the letter leads to from a state, if it has an arrow there.
    #[tactic(auto, using(crate::proofs::Entries::arrow_past))]
    pub fn follow(&self, state: StateNumber, letter: u8) -> Option<StateNumber>
        ensures answer { result ≡ (automaton_of self.now).arrow state letter }
    {
        arrow_in(*self.state(state)?.arrows.get(letter as usize)?).map(StateNumber::from)
    }

    /// The marks of a state, none where it does not exist.
    #[tactic(auto, using(crate::proofs::Entries::entry_is))]
    pub fn marks(&self, state: StateNumber) -> u32
        ensures answer { result ≡ (automaton_of self.now).marks state }
    {
        self.state(state).map_or(0, |s| s.marks)
    }

    /// Whether a state has the prefix mark.
    #[tactic(auto, using(crate::proofs::Entries::entry_is))]
    pub fn is_prefix(&self, state: StateNumber) -> bool
        ensures answer { result ≡ (automaton_of self.now).prefix state }
    {
        self.state(state).is_some_and(|s| s.prefix)
    }
}
