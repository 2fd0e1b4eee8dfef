//! Judging a sheet for a plan.
ghost use Rattle.std.specs.Prelude.{◌≡◌, ◌&&◌, ◌==◌};
ghost use Rattle.std.specs.Bool.{beq};
ghost use Rattle.pattern.specs.Fits.{fitting};
ghost use Rattle.automaton.specs.Judging.{judge as judging_machine, settled};
ghost use Rattle.plan.specs.Views.{patterns_of};
ghost use Rattle.sheet.specs.Views.{automaton_of};
ghost use Rattle.judge.specs.Judged.{Judged, Answers};
ghost use Rattle.judge.specs.Moves.{outcome};

use crate::JudgeRefusal;
use crate::explore::Stop;
use crate::machine::{Machine, Node, Wrong, grown, is_nowhere};
use crate::memory::Scratch;
use crate::table::{GROUP, Table};
use plan::Plan;
use sheet::{START, Sheet, StateNumber};

/// How many bytes the buffer for a wrong word must have: no word that is not wrong and reaches a state has more than 64 letters.
pub const WORD_BYTES: usize = 65;

/// The machine that finds the wrong words of a sheet: a node is the state that a word reaches, with the fits of the word.
#[derive(Clone, Copy)]
struct Judging<'p, 's> {
    plan: &'p Plan,
    sheet: &'s Sheet,
}

impl<'p, 's> Judging<'p, 's> {
    /// The state that the letter leads to, if the state is one of the sheet's and has an arrow there.
    fn follow(&self, state: u64, letter: u8) -> Option<StateNumber>
        ensures answer { result ≡ (automaton_of self.now.sheet.now).arrow state letter }
    {
        self.sheet
            .follow(StateNumber::try_from(state).ok()?, letter)
    }

    /// Whether both marks of the state are those of a word with these fits.
    fn agrees(&self, state: StateNumber, fits: (u64, u64)) -> bool
        ensures answer { result ≡ ((automaton_of self.now.sheet.now).marks state == (fitting (patterns_of self.now.plan.now)).marks fits && beq ((automaton_of self.now.sheet.now).prefix state) ((fitting (patterns_of self.now.plan.now)).prefix fits)) }
    {
        self.sheet.marks(state) == self.plan.marks(fits)
            && self.sheet.is_prefix(state) == self.plan.is_prefix(fits)
    }

    /// What a word comes to that has these fits and reaches this state, or none.
    fn settle(&self, reached: Option<StateNumber>, fits: (u64, u64)) -> Result<Option<Node>, Wrong>
        ensures answer { outcome result ≡ settled (fitting (patterns_of self.now.plan.now)) (automaton_of self.now.sheet.now) reached fits }
    {
        match reached {
            None if is_nowhere(fits) => Ok(None),
            Some(state) if !is_nowhere(fits) && self.agrees(state, fits) => Ok(Some(Node {
                state: state as u64,
                fits,
            })),
            _ => Err(Wrong),
        }
    }

    /// Judges over the words of the memory, whatever they hold.
    fn judge_over(&self, cells: &mut [u64], word: &mut [u8]) -> Result<(), JudgeRefusal>
        ensures answer { Answers self.now.plan.now self.now.sheet.now cells.old word.old word.new result }
    {
        let letters = self.plan.letters();
        if self.sheet.letters() != letters {
            return Err(JudgeRefusal::Letters);
        }
        if self.sheet.shortest() != self.plan.shortest() {
            return Err(JudgeRefusal::Shortest);
        }
        if word.len() < WORD_BYTES || cells.len() < GROUP {
            return Err(JudgeRefusal::Room);
        }
        let mut table = Table::over(cells, letters);
        // A fault is refused with its word, which is spelt from the table: more than a conversion of the error.
        match table.explore(self) {
            Ok(()) => Ok(()),
            Err(Stop::Full) => Err(JudgeRefusal::Pairs),
            Err(Stop::Faulty(entry, letter)) => {
                let size = table.spell(entry, word);
                word[size] = letter;
                Err(JudgeRefusal::Word(size + 1))
            }
        }
    }
}

impl<'p, 's> Machine for Judging<'p, 's> {
    ghost meaning = { λ m. judging_machine (fitting (patterns_of m.plan.now)) (automaton_of m.sheet.now) };

    fn start(&self) -> Node {
        Node {
            state: START as u64,
            fits: (0, 0),
        }
    }

    fn step(&self, node: Node, letter: u8) -> Result<Option<Node>, Wrong> {
        let fits = grown(self.plan, node.fits, letter);
        self.settle(self.follow(node.state, letter), fits)
    }
}

/// Judges the sheet for the plan over all words, and leaves the working memory all zeros.
pub fn judge(
    plan: &Plan,
    sheet: &Sheet,
    memory: &mut [u64],
    word: &mut [u8],
) -> Result<(), JudgeRefusal>
    ensures judged { Judged plan.now sheet.now memory.old word.old memory.new word.new result }
{
    let guard = Scratch { words: memory };
    Judging { plan, sheet }.judge_over(guard.words, word)
}
