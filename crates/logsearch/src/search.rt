//! A search, begun with the sheet that was drawn for the plan.
ghost use Rattle.std.specs.Prelude.{IfOk};
ghost use Rattle.reading.specs.Sessions.{trace_of};
ghost use Rattle.logsearch.specs.Searches.{Begun};

use crate::failure::Failure;
use judge::{DRAW_WORDS, WORD_BYTES};
use plan::Plan;
use reading::{Answer, Call, Session};
use std::alloc::Global;
use trace::interface::Trace;

/// A session over the trace in which a search for the plan has begun: its sheet is drawn, admitted, and searched with.
pub(crate) fn begun<T: Trace + Drop>(
    heap: Global,
    plan: Plan,
    trace: T,
) -> Result<Session<T>, Failure>
    ensures begun { IfOk result (λ session. Begun T.Trace.alphabet (T.Trace.row (trace_of session)) session) }
{
    let session = Session::new(heap, trace)?;
    let memory = vec![in heap; 0; DRAW_WORDS]?;
    let (session, drawn) = session.make(heap, Call::Draw { plan, memory });
    let Answer::Drawn { sheet, memory } = drawn else {
        unreachable!()
    };
    let sheet = sheet?;
    let word = vec![in heap; 0; WORD_BYTES]?;
    let (session, judged) = session.make(
        heap,
        Call::Admit {
            plan,
            sheet,
            memory,
            word,
        },
    );
    let Answer::Judged { verdict, .. } = judged else {
        unreachable!()
    };
    verdict?;
    let (session, _) = session.make(heap, Call::Begin);
    Ok(session)
}
