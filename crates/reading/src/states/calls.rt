//! The calls on readings and searches, but for the search itself.
ghost use Rattle.std.specs.Prelude.{◌≡◌, List, length, Option};
ghost use Rattle.pattern.specs.Rows.{Hit as Place};
ghost use Rattle.plan.specs.Views.{patterns_of};
ghost use Rattle.reading.specs.Cells.{inspected};
ghost use Rattle.reading.specs.Standing.{Stands, Begins, Thrifty, Fresh};

use crate::cell_fault::CellFault;
use crate::hits::Report;
use crate::spot::Spot;
use crate::states::{Reading, Search};
use plan::Plan;
use sheet::{Sheet, SheetError};
use std::alloc::{AllocError, Global};
use trace::interface::Trace;

impl<T: Trace + Drop> Reading<T> {
    /// A reading over the trace, with the plan without patterns and a sheet of one state without arrows.
    pub fn new(heap: Global, trace: T) -> Result<Reading<T>, AllocError>
        ensures answer { Fresh T.Trace.alphabet trace result }
    {
        let letters = trace.letters();
        let plan = Plan::empty(letters).unwrap();
        // A `map_err` would pass a refusal off as want of memory; by the `match` the check proves that none comes.
        match Sheet::single(heap, letters, 0) {
            Ok(sheet) => Ok(Reading { trace, plan, sheet }),
            Err(SheetError::NoMemory) => Err(AllocError),
            Err(SheetError::Refused(_)) => unreachable(),
        }
    }
}

impl<T: Trace> Reading<T> {
    /// The letter of cell `i`, or the trace's fault together with the cell.
    pub fn inspect(&self, i: usize) -> Result<u8, CellFault<T::Damage>>
        ensures answer { result ≡ inspected (T.Trace.row self.now.trace) i }
    {
        let letter = self.trace.cell(i).map_err(|fault| (i, fault))?;
        Ok(letter)
    }

    /// Begins a search.
    #[tactic(auto, using(crate::proofs::Answering::reached_start))]
    pub fn begin(self) -> Search<T>
        ensures { Begins T.Trace.alphabet T.Trace.row self result }
    {
        let at = Spot::first(self.plan.shortest());
        Search {
            reading: self,
            at,
            hits: 0,
        }
    }
}

impl<T: Trace> Search<T> {
    /// The letter of cell `i`, or the trace's fault together with the cell. The search does not notice.
    pub fn inspect(&self, i: usize) -> Result<u8, CellFault<T::Damage>>
        ensures answer { result ≡ inspected (T.Trace.row self.now.reading.trace) i }
    {
        self.reading.inspect(i)
    }

    /// What the search has come to since it was begun.
    pub fn report(&self) -> Report
        ensures answer { result ≡ record { hits = self.now.hits; fetches = self.now.at.fetches; damaged = self.now.at.damaged } }
        ensures thrift { (answers : List (Option Place)) → Stands T.Trace.alphabet T.Trace.row answers self.now → Thrifty (length (T.Trace.row self.now.reading.trace)) (patterns_of self.now.reading.plan) result.fetches }
    {
        Report {
            hits: self.hits,
            fetches: self.at.fetches,
            damaged: self.at.damaged,
        }
    }

    /// Ends the search.
    pub fn close(self) -> Reading<T>
        ensures answer { result ≡ self.reading }
    {
        let Search { reading, .. } = self;
        reading
    }

    /// Ends the search and begins another.
    pub fn begin(self) -> Search<T>
        ensures { Begins T.Trace.alphabet T.Trace.row self.reading result }
    {
        self.close().begin()
    }
}
