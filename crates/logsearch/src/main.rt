//! `logsearch` looks for the patterns of `plan.txt` in the sign log `trace.txt`, with a sheet that it draws itself: a line for each hit,
//! and a line with the counts of hits and of cells fetched. What is refused is answered by `REFUSED` and the refusal's number.
#![tactic(auto)]

ghost use Rattle.std.specs.Prelude.{IfOk};
ghost use Rattle.logs.specs.SignLogs.{sign_row};
ghost use Rattle.reading.specs.Sessions.{trace_of};
ghost use Rattle.logsearch.specs.Searches.{Begun};

mod failure;
mod search;

use console::input::read_or_empty;
use console::refused::Refused;
use failure::Failure;
use logs::sign_log::SignLog;
use plan::Plan;
use reading::{Answer, Call, Session};
use search::begun;
use std::alloc::{AllocError, Global};
use std::io;
use trace::interface::Trace;

// The lines of all hits that are left.
fn list_hits<T: Trace + Drop>(rt: &HostRuntime, session: Session<T>) -> io::Result<Session<T>>
    requires { Begun T.Trace.alphabet (T.Trace.row (trace_of session)) session }
    ensures begun { IfOk result (λ after. Begun T.Trace.alphabet (T.Trace.row (trace_of after)) after) }
{
    let mut session = session;
    loop {
        let (next, answer) = session.make(rt.alloc(), Call::Next);
        session = next;
        let Answer::Found(found) = answer else {
            unreachable!()
        };
        let Some(hit) = found else {
            return Ok(session);
        };
        rt.println(hit)?;
    }
}

// The line of the counts.
fn list_end<T: Trace + Drop>(rt: &HostRuntime, session: Session<T>) -> io::Result<()>
    requires { Begun T.Trace.alphabet (T.Trace.row (trace_of session)) session }
{
    let (_, answer) = session.make(rt.alloc(), Call::Report);
    let Answer::Told(report) = answer else {
        unreachable!()
    };
    rt.println(report)
}

fn list<T: Trace + Drop>(rt: &HostRuntime, session: Session<T>) -> io::Result<()>
    requires { Begun T.Trace.alphabet (T.Trace.row (trace_of session)) session }
{
    rt.println("HITS")?;
    let session = list_hits(rt, session)?;
    list_end(rt, session)
}

// The search that the texts ask for.
fn asked<'a>(heap: Global, text: &[u8], bytes: &'a [u8]) -> Result<Session<SignLog<'a>>, Failure>
    ensures begun { IfOk result (λ session. Begun 26 (sign_row (trace_of session).bytes.now) session) }
{
    let plan = Plan::read(SignLog::LETTER_COUNT, text)?;
    let log = SignLog::open(bytes)?;
    begun(heap, plan, log)
}

fn main(rt: HostRuntime) -> io::Result<()> {
    let text = read_or_empty(&rt, "plan.txt")?;
    let bytes = read_or_empty(&rt, "trace.txt")?;
    match asked(rt.alloc(), text.as_slice(), bytes.as_slice()) {
        Ok(session) => list(&rt, session),
        Err(Failure::Refused(number)) => rt.println(Refused { number }),
        Err(Failure::NoMemory) => Err(io::Error::from(AllocError)),
    }
}
