//! `loglist` lists the event log `log.bin`: a line for each cell, and a line with the counts of letters and of damaged cells. A log that
//! cannot be opened is answered by `REFUSED` and the refusal's number.
#![tactic(auto)]

use console::input::read_or_empty;
use console::listing::cell_line;
use console::refused::Refused;
use logs::event_log::EventLog;
use std::io;
use trace::interface::Trace;
use trace::tally::tally_of;

fn list(rt: &HostRuntime, log: &EventLog<'_>) -> io::Result<()> {
    // The number of a cell is printed beside what the cell answers.
    for i in 0..log.len() {
        rt.println(cell_line(i, log.cell(i)))?;
    }
    rt.println(tally_of(log))
}

fn main(rt: HostRuntime) -> io::Result<()> {
    let bytes = read_or_empty(&rt, "log.bin")?;
    match EventLog::open(bytes.as_slice()) {
        Ok(log) => list(&rt, &log),
        Err(refusal) => rt.println(Refused {
            number: refusal.number(),
        }),
    }
}
