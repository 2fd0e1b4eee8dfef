//! One state of a sheet, and the limits of sheets.

/// The number of a state, from 1 on.
pub type StateNumber = u16;

/// The number of a state as a state's arrow holds it: the states are few enough for a byte. 0 is no arrow, as in a file.
// An `Option` has a byte of its own beside the number: of 16 bits a sheet took twice the memory, of 8 half again the time to write.
pub(crate) type ArrowNumber = u8;

/// The number of the state in which every reading starts.
pub const START: StateNumber = 1;

/// The most states that a sheet has.
pub const MOST_STATES: usize = 255;

/// The most letters that an alphabet has.
pub const MOST_LETTERS: usize = 32;

/// A state of the automaton. It has room for an arrow by every letter of the largest alphabet, so that following one takes one look.
// A `Vec` of arrows in each state would be one more allocation that can fail.
#[derive(Clone, Copy, Debug, PartialEq, Eq)]
pub(crate) struct State {
    /// Bit j is set where the words that lead here are images of pattern j.
    pub marks: u32,
    /// Whether the words that lead here are proper prefixes of images.
    pub prefix: bool,
    /// The state that each letter leads to; 0 is none.
    pub arrows: [ArrowNumber; MOST_LETTERS],
}
