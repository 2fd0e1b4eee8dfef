//! Calls and their answers as values, with the buffers that a call is lent.
use crate::cell_fault::CellFault;
use crate::hits::{Hit, Report};
use crate::refusals::AdmitRefusal;
use judge::DrawError;
use plan::Plan;
use sheet::Sheet;

/// A call on a reading. The buffers that a call is lent come back with its answer.
#[derive(Drop)]
pub enum Call {
    /// Draw the sheet of the plan in this working memory.
    Draw {
        plan: Plan,
        memory: Vec<u64>,
    },
    /// Admit the plan and the sheet, judged in this working memory, with a buffer for a wrong word.
    // A call names its parts itself: its answer gives back the buffers alone, so a struct of the four would be taken apart there.
    Admit {
        plan: Plan,
        sheet: Sheet,
        memory: Vec<u64>,
        word: Vec<u8>,
    },
    /// Inspect a cell.
    Inspect(usize),
    Begin,
    Next,
    Report,
    Close,
}

/// What a call answers.
#[derive(Drop)]
pub enum Answer<D> {
    /// The sheet, and the working memory.
    Drawn {
        sheet: Result<Sheet, DrawError>,
        memory: Vec<u64>,
    },
    /// Whether the plan and the sheet were admitted, and the buffers.
    Judged {
        verdict: Result<(), AdmitRefusal>,
        memory: Vec<u64>,
        word: Vec<u8>,
    },
    Cell(Result<u8, CellFault<D>>),
    Begun,
    Found(Option<Hit>),
    Told(Report),
    Closed,
    /// The call was not made, and is given back: an admission inside a search, or a call that asks for one outside.
    OutOfTurn(Call),
}
