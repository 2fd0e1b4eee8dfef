//! The interface of everything that can be searched: a row of cells that is read cell by cell.
ghost use Rattle.std.specs.Prelude.{◌≡◌, ℕ, List, length, Result, ◌==◌};
ghost use Rattle.trace.specs.Cells.{cell_at, Lawful};

use crate::fault::Fault;

/// No trace has more cells than this.
pub const MOST_CELLS: usize = 16_777_216;

/// A row of cells over the letters `0` to `K - 1`. A cell is a letter or damage; `K`, the row, and the damage of each damaged cell are
/// all that a trace means. A kind of log, and a layer over any trace, says by `row` which row it shows, and proves its answers to be those of that row.
pub trait Trace {
    /// What this kind of trace tells of a damaged cell.
    type Damage: Copy + Drop;

    /// The letter count `K` of this kind of trace; a layer passes on that of the trace below it.
    const LETTER_COUNT: u8;

    // The same number for clauses; `letters` ties the two, by a body in each `impl`. (A ghost member of the constant's own name would be
    // tied to it by the check, but not in an `impl` with a lifetime, as those of `&T` and of the logs are.)
    ghost alphabet: { ℕ };

    // The row: a letter or a damage for each cell.
    ghost row: { Self → List (Result ℕ Self.Damage) };

    /// The letter count `K`.
    fn letters(&self) -> u8
        ensures { result ≡ alphabet };

    /// The number of cells.
    fn len(&self) -> usize
        ensures { result ≡ length (row self.now) };

    /// The letter of cell `i`, counted from 0, or why there is none.
    fn cell(&self, i: usize) -> Result<u8, Fault<Self::Damage>>
        ensures { result ≡ cell_at (row self.now) i };

    /// Whether there is no cell.
    fn is_empty(&self) -> bool
        ensures { result ≡ (length (row self.now) == 0) }
    {
        self.len() == 0
    }

    // The law that each `impl` proves of its row: from 1 to 32 letters, each letter of the row one of them, and no more cells than
    // `MOST_CELLS`.
    ghost lawful: { (x : Self) → Lawful alphabet (row x) };
}
