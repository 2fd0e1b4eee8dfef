//! Any list of calls, made in turn.
ghost use Rattle.std.specs.Prelude.{◌≡◌, length, IfOk};
ghost use Rattle.reading.specs.Promise.{Performed};
ghost use Rattle.reading.specs.Sessions.{trace_of, Continues};

use crate::calls::{Answer, Call};
use crate::sessions::Session;
use std::alloc::{AllocError, Global};
use trace::interface::Trace;

/// Makes the calls in turn, and answers what each one answered.
pub fn resume<T: Trace + Drop>(
    heap: Global,
    mut session: Session<T>,
    calls: Vec<Call>,
) -> Result<(Session<T>, Vec<Answer<T::Damage>>), AllocError>
    ensures all { IfOk result (λ o. length o.1.items ≡ length calls.items) }
    ensures law { IfOk result (λ o. Continues T.Trace.alphabet (T.Trace.row (trace_of session)) session calls.items o.1.items o.0) }
{
    let mut answers = Vec::new(heap);
    for call in calls {
        let (next, answer) = session.make(heap, call);
        session = next;
        answers.push(answer)?;
    }
    Ok((session, answers))
}

/// Makes the calls in turn on a fresh reading of the trace, and answers what each one answered: the law over histories holds of them,
/// whatever the calls are.
pub fn perform<T: Trace + Drop>(
    heap: Global,
    trace: T,
    calls: Vec<Call>,
) -> Result<Vec<Answer<T::Damage>>, AllocError>
    ensures law { IfOk result (λ answers. Performed T.Trace.alphabet (T.Trace.row trace) calls.items answers.items) }
{
    let session = Session::new(heap, trace)?;
    let (_, answers) = resume(heap, session, calls)?;
    Ok(answers)
}
