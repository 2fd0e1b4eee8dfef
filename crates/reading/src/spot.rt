//! Where a search is.
ghost use Rattle.std.specs.Prelude.{◌≡◌};
ghost use Rattle.automaton.specs.Search.{start};
ghost use Rattle.reading.specs.Spots.{conf_of, Roomy};

use sheet::{START, StateNumber};

/// Reading back from cell `p`, `o` cells were read and led to the state `q`; `c` of them are the longest proper prefix among the
/// texts read. With it the counts of the whole search.
// That it is roomy is kept by a search and not by the type: from a fetch to the step or jump after it there is one fetch too many.
#[derive(Clone, Copy, Debug)]
pub(crate) struct Spot {
    pub p: usize,
    pub o: usize,
    pub q: StateNumber,
    pub c: usize,
    pub fetches: usize,
    pub damaged: Option<usize>,
}

impl Spot {
    /// Where a search begins, for a plan of this shortest length.
    pub fn first(least: u8) -> Spot
        ensures answer { conf_of result ≡ start least }
        ensures roomy { Roomy result }
    {
        Spot {
            p: least.saturating_sub(1) as usize,
            o: 0,
            q: START,
            c: 0,
            fetches: 0,
            damaged: None,
        }
    }
}
