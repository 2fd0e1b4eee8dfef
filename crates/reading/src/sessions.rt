//! A reading at any moment, and the calls on it.
ghost use Rattle.std.specs.Prelude.{◌≡◌, [], IfOk};
ghost use Rattle.reading.specs.declared.calls.Call.TheVariants.{Admit, Begin, Next, Report, Close};
ghost use Rattle.reading.specs.declared.calls.Answer.TheVariants.{Begun};
ghost use Rattle.reading.specs.Cells.{inspected};
ghost use Rattle.reading.specs.Sessions.{trace_of, Agrees, Made};

use crate::calls::{Answer, Call};
use crate::cell_fault::CellFault;
use crate::states::{Reading, Search};
use judge::draw;
use plan::Plan;
use sheet::Sheet;
use std::alloc::{AllocError, Global};
use trace::interface::Trace;

/// A reading, outside a search or inside one.
#[derive(Drop)]
pub enum Session<T> {
    Idle(Reading<T>),
    Searching(Search<T>),
}

impl<T: Trace + Drop> Session<T> {
    /// Sets up a reading of the trace: its history is empty.
    pub fn new(heap: Global, trace: T) -> Result<Session<T>, AllocError>
        ensures answer { IfOk result (λ s. (trace_of s ≡ trace) × Agrees T.Trace.alphabet (T.Trace.row trace) [] s) }
    {
        Ok(Session::Idle(Reading::new(heap, trace)?))
    }
}

// What each call comes to: the session after it, and its answer.
impl<T: Trace> Session<T> {
    // Admits with buffers that come back; inside a search they come back with the call.
    fn admit(
        self,
        plan: Plan,
        sheet: Sheet,
        mut memory: Vec<u64>,
        mut word: Vec<u8>,
    ) -> (Session<T>, Answer<T::Damage>)
        ensures { Made T.Trace.alphabet T.Trace.row self (Admit plan sheet memory word) result }
    {
        match self {
            Session::Idle(mut reading) => {
                let verdict = reading.admit(
                    plan,
                    sheet,
                    memory.as_mut_slice(),
                    word.as_mut_slice(),
                );
                let answer = Answer::Judged {
                    verdict,
                    memory,
                    word,
                };
                (Session::Idle(reading), answer)
            }
            Session::Searching(search) => {
                let call = Call::Admit {
                    plan,
                    sheet,
                    memory,
                    word,
                };
                (Session::Searching(search), Answer::OutOfTurn(call))
            }
        }
    }

    // Tells a cell, outside a search and inside one.
    fn inspect(&self, i: usize) -> Result<u8, CellFault<T::Damage>>
        ensures answer { result ≡ inspected (T.Trace.row (trace_of self.now)) i }
    {
        match self {
            Session::Idle(reading) => reading.inspect(i),
            Session::Searching(search) => search.inspect(i),
        }
    }

    // Begins a search, or begins it anew.
    fn begin(self) -> Session<T>
        ensures { Made T.Trace.alphabet T.Trace.row self Begin (result, Begun) }
    {
        match self {
            Session::Idle(reading) => Session::Searching(reading.begin()),
            Session::Searching(search) => Session::Searching(search.begin()),
        }
    }

    // Asks a search for the next hit. (What it answers outside a search is short enough to stand in each of these three: a helper would
    // be handed the rest as a closure, with clauses longer than it spares.)
    fn next(self) -> (Session<T>, Answer<T::Damage>)
        ensures { Made T.Trace.alphabet T.Trace.row self Next result }
    {
        match self {
            Session::Idle(reading) => (Session::Idle(reading), Answer::OutOfTurn(Call::Next)),
            Session::Searching(mut search) => {
                let found = search.next();
                (Session::Searching(search), Answer::Found(found))
            }
        }
    }

    // Asks a search for its report.
    #[tactic(auto, using(crate::proofs::Turning::told_of))]
    fn report(self) -> (Session<T>, Answer<T::Damage>)
        ensures { Made T.Trace.alphabet T.Trace.row self Report result }
    {
        match self {
            Session::Idle(reading) => (Session::Idle(reading), Answer::OutOfTurn(Call::Report)),
            Session::Searching(search) => {
                let report = search.report();
                (Session::Searching(search), Answer::Told(report))
            }
        }
    }

    // Ends a search.
    fn close(self) -> (Session<T>, Answer<T::Damage>)
        ensures { Made T.Trace.alphabet T.Trace.row self Close result }
    {
        match self {
            Session::Idle(reading) => (Session::Idle(reading), Answer::OutOfTurn(Call::Close)),
            Session::Searching(search) => (Session::Idle(search.close()), Answer::Closed),
        }
    }

    /// Makes a call, if it is in its turn: the answer is due after the calls that were made before, whatever they were.
    pub fn make(self, heap: Global, call: Call) -> (Session<T>, Answer<T::Damage>)
        ensures { Made T.Trace.alphabet T.Trace.row self call result }
    {
        // A call is a value that its maker can look at, keep and get back, so a `match` tells which one it is.
        match call {
            Call::Draw { plan, mut memory } => {
                let sheet = draw(heap, &plan, memory.as_mut_slice());
                (self, Answer::Drawn { sheet, memory })
            }
            Call::Admit {
                plan,
                sheet,
                memory,
                word,
            } => self.admit(plan, sheet, memory, word),
            Call::Inspect(i) => {
                let cell = self.inspect(i);
                (self, Answer::Cell(cell))
            }
            Call::Begin => (self.begin(), Answer::Begun),
            Call::Next => self.next(),
            Call::Report => self.report(),
            Call::Close => self.close(),
        }
    }
}
