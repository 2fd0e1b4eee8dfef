//! The machines that are explored, and the fits of a word with one letter more.
ghost use Rattle.std.specs.Prelude.{◌≡◌};
ghost use Rattle.pattern.specs.Fits.{fitting};
ghost use Rattle.automaton.specs.Machines.{Machine as Meaning};
ghost use Rattle.automaton.specs.Judging.{Node as NodeTriple, nowhere, grown as grown_fits};
ghost use Rattle.plan.specs.Views.{patterns_of};
ghost use Rattle.judge.specs.Moves.{node_of, outcome};

use plan::Plan;

/// A node of a machine: a state with the fits of a word, closing and inner.
#[derive(Clone, Copy, Debug, PartialEq, Eq)]
pub(crate) struct Node {
    pub(crate) state: u64,
    pub(crate) fits: (u64, u64),
}

/// A letter shows a fault.
#[derive(Clone, Copy, Debug, PartialEq, Eq)]
pub(crate) struct Wrong;

/// A machine that reads words letter by letter.
pub(crate) trait Machine {
    ghost meaning: { Self → Meaning NodeTriple };

    /// The node where the empty word stands; it has no fits.
    fn start(&self) -> Node
        ensures answer { (meaning self.now).start ≡ node_of result }
        ensures none { result.fits ≡ (0, 0) };

    /// The node that the letter leads to from a node, if it leads anywhere.
    fn step(&self, node: Node, letter: u8) -> Result<Option<Node>, Wrong>
        ensures answer { outcome result ≡ (meaning self.now).step (node_of node) letter };
}

/// Whether these are no fits.
pub(crate) fn is_nowhere(fits: (u64, u64)) -> bool
    ensures answer { result ≡ nowhere fits }
{
    fits == (0, 0)
}

/// The fits of a word with one letter more. At a node no fits are those of the empty word.
pub(crate) fn grown(plan: &Plan, fits: (u64, u64), letter: u8) -> (u64, u64)
    ensures answer { result ≡ grown_fits (fitting (patterns_of plan.now)) fits letter }
{
    if is_nowhere(fits) {
        plan.first(letter)
    } else {
        plan.extend(fits, letter)
    }
}
