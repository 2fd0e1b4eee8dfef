//! The kinds of log: sign logs and event logs, each a trace over bytes that are lent.
//!
//! Rely on this: `open` refuses exactly the bytes that its question turns down, and what it opens shows the row that `specs/` defines for
//! those bytes, under [`trace::interface::Trace`]. No byte is ever changed.
#![tactic(auto)]

pub mod block;
pub mod cause;
pub mod event_log;
pub mod record;
pub mod refusal;
pub mod sign_log;
